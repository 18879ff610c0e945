//! Clones of the parts of larger values, if a clone of a part is that part.
ghost use Rattle.std.specs.Prelude.{◌≡◌, IfOk};

use crate::List;
use std::alloc::AllocError;

/// A copy of the value.
pub fn value<T: Clone>(from: &T) -> Result<T, AllocError>
    requires exact { (x y : T) → T.is_clone x y → y ≡ x }
    ensures { IfOk result (λ copy. copy ≡ from.now) }
{
    from.clone()
}

/// A copy of the value, if there is one.
pub fn option<T: Clone>(from: &Option<T>) -> Result<Option<T>, AllocError>
    requires exact { (x y : T) → T.is_clone x y → y ≡ x }
    ensures { IfOk result (λ copy. copy ≡ from.now) }
{
    from.clone()
}

/// A copy of the list.
pub fn list<T: Clone>(from: &List<T>) -> Result<List<T>, AllocError>
    requires exact { (x y : T) → T.is_clone x y → y ≡ x }
    ensures { IfOk result (λ copy. copy ≡ from.now) }
{
    from.clone()
}
