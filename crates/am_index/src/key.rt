//! The keys that components are listed under, and the spots where they are.
ghost use Rattle.std.specs.Prelude.{◌≡◌};

use am_types::{Kind, Text};
use std::alloc::AllocError;

/// What a component is, or what one of its filters lists.
#[derive(Drop, PartialEq, Eq, Hash)]
pub(crate) enum Group {
    /// It has this class.
    Class(Text),
    /// A filter lists this action.
    Action(Text),
    /// A filter lists this scheme.
    Scheme(Text),
    /// A filter lists neither scheme nor type.
    Bare,
    /// A filter lists no scheme and some type.
    Typed,
    /// A filter lists no scheme and some type with this main part.
    Main(Text),
}

/// A kind, one package or all, and a group.
#[derive(Drop, PartialEq, Eq, Hash)]
pub(crate) struct Key {
    pub(crate) kind: Kind,
    /// The name of the package; none for all packages.
    pub(crate) owner: Option<Text>,
    pub(crate) group: Group,
}

/// Where a component is.
#[derive(Clone, Copy)]
pub(crate) struct Spot {
    /// The uid of its package.
    pub(crate) uid: u32,
    /// Its position among the components of its package, from 0.
    pub(crate) position: usize,
    /// Its position among those of its kind, from 0.
    pub(crate) place: u32,
}

impl Clone for Group {
    ghost is_clone = { λ x y. y ≡ x };

    fn clone(&self) -> Result<Group, AllocError> {
        match self {
            Group::Class(class) => Ok(Group::Class(class.clone()?)),
            Group::Action(action) => Ok(Group::Action(action.clone()?)),
            Group::Scheme(scheme) => Ok(Group::Scheme(scheme.clone()?)),
            Group::Bare => Ok(Group::Bare),
            Group::Typed => Ok(Group::Typed),
            Group::Main(main) => Ok(Group::Main(main.clone()?)),
        }
    }
}
