//! What a broadcast is offered to, and what becomes of it.
ghost use Rattle.std.specs.Prelude.{◌≡◌};
ghost use Rattle.am_model.specs.Receivers.{registered_offer};
ghost use Rattle.am_resolve.specs.Ranking.{offer_of};

use am_installed::Installed;
use am_types::{Aim, Intent, Receiving, Registration, Text};

/// What is broadcast on a device: the intent of a sender, and what a receiver must hold.
#[derive(Clone, Copy)]
pub(crate) struct Broadcast<'a> {
    pub(crate) installed: &'a Installed,
    pub(crate) intent: &'a Intent,
    pub(crate) sender: u32,
    pub(crate) required: Option<&'a Text>,
}

/// A receiver that a broadcast is offered to.
#[derive(Drop)]
pub struct Offer<'a> {
    pub uid: u32,
    pub aim: Aim,
    pub priority: i32,
    /// Whether other apps may reach it.
    pub exported: bool,
    /// What a sender must hold.
    pub permission: Option<&'a Text>,
}

/// What becomes of an offer, with the priority of the offer.
#[derive(Drop)]
pub(crate) struct Ranked {
    pub(crate) priority: i32,
    pub(crate) receiving: Receiving,
}

/// The offer to a registered receiver, which counts as exported. Takes no memory.
pub fn registered_offer(registration: &Registration) -> Offer<'_>
    ensures { offer_of result ≡ registered_offer registration.now }
{
    Offer {
        uid: registration.uid,
        aim: Aim::Registered(registration.number),
        priority: registration.filter.priority,
        exported: true,
        permission: registration.permission.as_ref(),
    }
}
