//! Steps that many readers take.

/// What was read. A fault is returned after what is held has been dropped: a `?` with its drop.
#[macro_export]
macro_rules! or_drop {
    ($read:expr, $held:ident) => {
        match $read {
            Ok(value) => value,
            Err(fault) => {
                drop($held);
                return Err(fault);
            }
        }
    };
}

/// What was read from the value of a field: none if the field is absent or null. A fault is returned.
#[macro_export]
macro_rules! if_said {
    ($name:expr, $object:expr, |$value:ident| $read:expr) => {{
        let Some($value) = $crate::field($name, $object) else {
            return Ok(None);
        };
        let said = $read?;
        Ok(Some(said))
    }};
}
