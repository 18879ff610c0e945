//! What an ordered broadcast leaves when it ends.
ghost use Rattle.std.specs.Prelude.{◌≡◌, IfOk};
ghost use Rattle.am_queue_ordered.specs.Turns.{final_item};

use am_types::{Item, ItemKind, Outcome, copy_parts};
use std::alloc::AllocError;
use std::marker::Model;

/// The result of an ordered broadcast that ended, for its sender.
#[derive(Drop)]
pub struct Final {
    delivery: u64,
    broadcast: u64,
    sender: u32,
    outcome: Outcome,
}

impl Model for Final {
    ghost use Rattle.am_model.specs.Broadcasts as broadcasts;

    ghost Value = { broadcasts.Result };

    ghost view = { λ f. record { delivery = f.delivery; broadcast = f.broadcast; sender = f.sender; outcome = f.outcome } };
}

impl Clone for Final {
    ghost is_clone = { λ x y. y ≡ x };

    fn clone(&self) -> Result<Final, AllocError> {
        copy_parts!(self, Final: value(outcome); delivery broadcast sender)
    }
}

impl Final {
    /// The result of a broadcast. Takes no memory.
    pub fn new(delivery: u64, broadcast: u64, sender: u32, outcome: Outcome) -> Self
        ensures { result ≡ record { delivery = delivery; broadcast = broadcast; sender = sender; outcome = outcome } }
    {
        Final {
            delivery,
            broadcast,
            sender,
            outcome,
        }
    }

    /// Its delivery number. Takes no memory.
    pub fn delivery(&self) -> u64
        ensures { result ≡ self.now.delivery }
    {
        self.delivery
    }

    /// The uid that the result is for. Takes no memory.
    pub fn sender(&self) -> u32
        ensures { result ≡ self.now.sender }
    {
        self.sender
    }

    /// The result as an item of its sender's inbox.
    pub fn item(&self) -> Result<Item, AllocError>
        ensures { IfOk result (λ item. item ≡ final_item self.now) }
    {
        Ok(Item {
            delivery: self.delivery,
            broadcast: self.broadcast,
            what: ItemKind::Final {
                outcome: self.outcome.clone()?,
            },
        })
    }
}
