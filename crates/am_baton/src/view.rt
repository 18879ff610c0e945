//! What the pass of a desk knows.
use std::marker::Model;

/// What a pass knows of the shared manager. No value of it is made.
pub struct Ticket;

impl Model for Ticket {
    ghost use Rattle.am_baton.specs.Shared.{Known, fresh};

    ghost Value = { Known };

    ghost view = { λ _. fresh };
}
