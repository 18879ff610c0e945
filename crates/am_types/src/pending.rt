use crate::{Intent, Kind};

/// The flags with which a pending intent is asked for.
#[derive(Clone, Copy, Default)]
pub struct PendingFlags {
    pub one_shot: bool,
    pub no_create: bool,
    pub cancel_current: bool,
    pub update_current: bool,
    pub immutable: bool,
    pub mutable: bool,
}

/// What a token stands for, with what a sender filled in.
#[derive(Drop)]
pub struct Used {
    pub creator: u32,
    pub kind: Kind,
    pub intent: Intent,
    /// Whether this use ends the token.
    pub one_shot: bool,
}

/// Why a call on a pending intent is refused.
#[derive(Clone, Copy, Debug, PartialEq, Eq)]
pub enum PendingFault {
    /// Not exactly one of mutable and immutable is given.
    Mutability,
    /// The creator has 1,024 live records.
    Full,
    /// No such token was ever given, or it isn't live.
    NoToken,
    /// Another uid made it.
    NotCreator,
    /// The caller neither made it nor was given it.
    NotHolder,
    /// It isn't live any more.
    Canceled,
    /// More than 64 extras after the fill-in.
    ExtrasFull,
    /// It has 64 holders beside its creator.
    HoldersFull,
    NoMemory,
}
