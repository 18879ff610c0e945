//! One delivery of a normal broadcast.
ghost use Rattle.std.specs.Prelude.{◌≡◌, IfOk};
ghost use Rattle.am_queue_normal.specs.Posted.{item_of, posted_as};

use am_types::{Intent, Item, ItemKind, Spot};
use std::alloc::{AllocError, Global};
use std::marker::Model;
use std::sync::Arc;

/// What was sent, shared by all deliveries of a broadcast.
#[derive(Drop)]
pub(crate) struct Broadcast {
    pub number: u64,
    pub sender: u32,
    pub intent: Intent,
    /// The number of the first delivery.
    pub first: u64,
    /// One more than the number of the last.
    pub end: u64,
}

/// A delivery that isn't finished.
#[derive(Drop)]
pub(crate) struct Delivery {
    pub sent: Arc<Broadcast, Global>,
    pub spot: Spot,
    /// The moment at which it becomes late, in milliseconds.
    pub deadline: u64,
}

impl Model for Delivery {
    ghost use Rattle.am_queue_normal.specs.Posted.{Posted};

    ghost Value = { Posted };

    ghost view = { λ d. record { sent = d.sent.value; spot = d.spot; deadline = d.deadline } };
}

impl Delivery {
    /// The delivery of what was sent to a receiver.
    pub(crate) fn new(
        sent: &Arc<Broadcast, Global>,
        spot: &Spot,
        deadline: u64,
    ) -> Result<Self, AllocError>
        ensures { IfOk result (λ posted. posted ≡ posted_as sent.now.value deadline spot.now) }
    {
        Ok(Delivery {
            sent: sent.clone()?,
            spot: spot.clone()?,
            deadline,
        })
    }

    /// The number of its broadcast's first delivery.
    pub(crate) fn first(&self) -> u64
        ensures { result ≡ self.now.sent.first }
    {
        self.sent.first
    }

    /// One more than the number of its broadcast's last delivery.
    pub(crate) fn end(&self) -> u64
        ensures { result ≡ self.now.sent.end }
    {
        self.sent.end
    }

    /// Its broadcast's sender.
    pub(crate) fn sender(&self) -> u32
        ensures { result ≡ self.now.sent.sender }
    {
        self.sent.sender
    }

    /// The delivery under its number as an item of its receiver's inbox.
    pub(crate) fn item(&self, number: u64) -> Result<Item, AllocError>
        ensures { IfOk result (λ item. item ≡ item_of (number, self.now)) }
    {
        Ok(Item {
            delivery: number,
            broadcast: self.sent.number,
            what: ItemKind::Normal {
                aim: self.spot.aim.clone()?,
                intent: self.sent.intent.clone()?,
            },
        })
    }
}

/// An equal delivery, which shares what was sent.
impl Clone for Delivery {
    ghost is_clone = { λ x y. y ≡ x };

    fn clone(&self) -> Result<Delivery, AllocError> {
        Delivery::new(&self.sent, &self.spot, self.deadline)
    }
}
