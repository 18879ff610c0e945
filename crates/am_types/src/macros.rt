//! What drops and clones written by hand repeat for each field.

/// Takes a value apart by all its fields, and drops each: the body of a `drop`. With a derived one each crate that drops
/// such a value would prove again how its parts are dropped.
#[macro_export]
macro_rules! drop_parts {
    ($value:ident, $kind:ident: $($field:ident)*) => {
        let $kind { $($field: _),* } = $value;
    };
}

/// A copy of a value by all its fields: the body of a `clone` that gives an equal value. Each field is listed under the
/// function of `copies` that copies it, and those that are `Copy` after the semicolon, as in
/// `copy_parts!(self, UriParts: option(host) value(path); port)`.
#[macro_export]
macro_rules! copy_parts {
    ($value:ident, $kind:ident: $($how:ident($($field:ident)*))* $(; $($same:ident)*)?) => {
        Ok($kind {
            $($($field: $crate::copies::$how(&$value.$field)?,)*)*
            $($($same: $value.$same,)*)?
        })
    };
}

/// A copy of an enum's value whose variants hold one value each: the body of a `clone` that gives an equal value. The
/// variants are listed as the fields are in `copy_parts!`, as in `copy_variants!(self, Extra: value(Word); Whole Truth)`.
#[macro_export]
macro_rules! copy_variants {
    ($value:ident, $kind:ident: $($how:ident($($variant:ident)*))* $(; $($same:ident)*)?) => {
        match $value {
            $($($kind::$variant(held) => Ok($kind::$variant($crate::copies::$how(held)?)),)*)*
            $($($kind::$same(held) => Ok($kind::$same(*held)),)*)?
        }
    };
}
