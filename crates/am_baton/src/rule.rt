//! The rule of a shared manager, and the steps that keep it.
ghost use Rattle.std.specs.Prelude.{[], ◌≡◌};
ghost use Rattle.am_baton.specs.Shared.{OneManager, Begun, Put, Taken, fresh, spent, idle, next_mark};

use crate::baton::Baton;
use crate::view::Ticket;
use am_keeper::Keeper;
use crossbeam_queue::protocol::{Join, Lesson, Outcome, Protocol, Split};

/// There is one manager with one history, of which each desk has seen the beginning.
pub struct OneHistory;

impl<K: Keeper> Protocol<Baton<K>, Ticket> for OneHistory {
    ghost holds = { OneManager };

    ghost first = { fresh };
}

/// The manager is put into the queue for the first time: the sharing begins.
pub struct Begins;

impl<K: Keeper> Outcome<Baton<K>, Ticket> for Begins {
    ghost then = { Begun };
}

impl<K: Keeper> Lesson<Baton<K>, Ticket> for Begins {
    ghost fact = { λ v items. items ≡ [] };
}

/// The manager is put back.
pub struct Puts;

impl<K: Keeper> Outcome<Baton<K>, Ticket> for Puts {
    ghost then = { Put };
}

impl<K: Keeper> Lesson<Baton<K>, Ticket> for Puts {
    ghost fact = { λ v items. items ≡ [] };
}

/// The manager is taken.
pub struct Takes;

impl<K: Keeper> Outcome<Baton<K>, Ticket> for Takes {
    ghost then = { Taken };
}

impl<K: Keeper> Lesson<Baton<K>, Ticket> for Takes {
    ghost use Rattle.std.specs.Prelude.{◌≢◌};

    ghost fact = { λ v items. items ≢ [] };
}

/// The pass of a desk makes the next desk's, and passes are joined once their desks have ended.
pub struct Cut;

impl Split<Ticket> for Cut {
    ghost use Rattle.std.specs.Prelude.{true, false};

    ghost left = { λ v. idle false v.mark v.ended };

    ghost right = { λ v. idle true (next_mark v.mark) [] };
}

impl Join<Ticket> for Cut {
    ghost use Rattle.std.specs.Prelude.{◌∷◌, false};

    ghost both = { λ v w. idle false v.mark (w.mark ∷ v.ended) };

    ghost spent = { spent };
}
