//! Receivers that are forgotten.
ghost use Rattle.std.specs.Prelude.{◌≡◌};

use am_types::{Aim, Spot};

/// Which receivers go away.
#[derive(Clone, Copy)]
pub enum Struck {
    /// All receivers of an app.
    Uid(u32),
    /// A registered receiver, by its number.
    Registered(u64),
}

impl Struck {
    ghost use Rattle.am_queue_ordered.specs.Struck.{strikes};

    /// Whether the receiver goes away.
    pub fn strikes(&self, spot: &Spot) -> bool
        ensures { result ≡ strikes self.now spot.now }
    {
        match self {
            Struck::Uid(uid) => spot.uid == *uid,
            Struck::Registered(number) => match &spot.aim {
                Aim::Declared(_) => false,
                Aim::Registered(other) => *other == *number,
            },
        }
    }
}
