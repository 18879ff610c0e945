//! How keys are hashed.
ghost use Rattle.std.specs.Prelude.{◌≡◌};
ghost use Rattle.am_pending.specs.Hashings.{hasher_of};

use std::hash::{BuildHasher, DefaultHasher, RandomState};

/// SipHash under keys that were drawn for this run, or under publicly known ones. With keys that its callers can't
/// know, nobody can make two keys with the same hash on purpose: the parts are hashed one after another, and nothing is
/// added up.
#[derive(Clone, Copy)]
pub struct Hashing {
    drawn: Option<RandomState>,
}

impl Hashing {
    /// Hashes under the drawn keys, if there are any.
    pub fn under(drawn: Option<RandomState>) -> Hashing
        ensures { result.drawn ≡ drawn }
    {
        Hashing { drawn }
    }
}

impl BuildHasher for Hashing {
    type Hasher = DefaultHasher;

    ghost build_hasher = { hasher_of };

    fn build_hasher(&self) -> DefaultHasher {
        match &self.drawn {
            Some(keys) => keys.build_hasher(),
            None => DefaultHasher::new(),
        }
    }
}
