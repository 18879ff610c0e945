use crate::{Component, Intent, List, Named, Rule, Text};

/// The result of an ordered broadcast so far.
#[derive(Drop)]
pub struct Outcome {
    pub code: i64,
    pub text: Option<Text>,
    pub extras: List<Named>,
}

/// How an ordered broadcast starts, and whether its sender wants the result.
#[derive(Drop)]
pub struct Ordered {
    pub initial: Outcome,
    pub wanted: bool,
}

/// What a receiver answers when it finishes a delivery.
#[derive(Drop)]
pub struct Answer {
    /// The outcome that replaces the one so far.
    pub set: Option<Outcome>,
    pub abort: bool,
}

/// Which receiver: one of a manifest, or a registered one by its number.
#[derive(Drop)]
pub enum Aim {
    Declared(Component),
    Registered(u64),
}

/// A receiver that a broadcast was offered to.
#[derive(Drop)]
pub struct Receiving {
    pub uid: u32,
    pub aim: Aim,
    /// Why it was left out; none if it was admitted.
    pub skip: Option<Rule>,
}

/// What waits in an inbox.
#[derive(Drop)]
pub struct Item {
    pub delivery: u64,
    pub broadcast: u64,
    pub what: ItemKind,
}

/// A delivery of a normal or an ordered broadcast, or the result for its sender.
#[derive(Drop)]
pub enum ItemKind {
    Normal {
        aim: Aim,
        intent: Intent,
    },
    InOrder {
        aim: Aim,
        intent: Intent,
        outcome: Outcome,
    },
    Final {
        outcome: Outcome,
    },
}

/// A receiver that a broadcast is to reach.
#[derive(Drop)]
pub struct Spot {
    pub uid: u32,
    pub aim: Aim,
}

/// A broadcast that is to be sent.
#[derive(Drop)]
pub struct Sending {
    pub sender: u32,
    /// The moment of the sending, in milliseconds.
    pub now: u64,
    /// Whether it waits in the foreground queue and has the short deadlines.
    pub foreground: bool,
    /// Whether aborts are ignored.
    pub no_abort: bool,
    pub intent: Intent,
    /// The admitted receivers, in order.
    pub to: List<Spot>,
    /// None for a normal broadcast.
    pub ordered: Option<Ordered>,
}

/// Why a broadcast isn't sent.
#[derive(Clone, Copy, Debug, PartialEq, Eq)]
pub enum SendFault {
    /// The sender has 64 live broadcasts.
    Full,
    /// It would go to more than 1,024 receivers.
    TooMany,
    NoMemory,
}

/// Why a delivery isn't finished.
#[derive(Clone, Copy, Debug, PartialEq, Eq)]
pub enum FinishFault {
    /// There is no such delivery or result.
    NoDelivery,
    /// It belongs to another uid.
    NotYours,
    /// A result or an abort for a delivery that isn't ordered.
    NotOrdered,
}
