//! Values that are lent while something may fail, and dropped in one place.

/// What is made of the value that is lent; the value is dropped then.
pub fn lent<T: Drop, R, F: FnOnce(&mut T) -> R>(mut value: T, make: F) -> R
    requires { F.IsAlwaysCallable make }
{
    let made = make(&mut value);
    drop(value);
    made
}
