//! Gates at which links arrive, and the network that they belong to.
ghost use Rattle.std.specs.Prelude.{◌≡◌, ℕ, ◌≤◌, Option, Some, None, Err, length, slice_get, IfOk, IfSome, OnErr, OnOk};
ghost use Rattle.std.specs.Option.{option_map};
ghost use Rattle.am_outside.specs.Counts.{HasRisen};
ghost use Rattle.am_outside.specs.Memory.{one_more};
ghost use Rattle.am_network.specs.Links.{AreBack, GateView, HandsNext, HandsOut, IsNewGate, IsNoneParked, IsUnread, IsUnreadAtFirst, Links, Listening, MayRelease, MayTakeBack, Parks, failed, link_of, listening_at, parking_counted, raised_by, released, taken_back};

use crate::progress::Progress;
use am_outside::{Failed, Sink, Source};
use std::alloc::{AllocError, AllocFailed};
use std::error::Error;
use std::fmt;

/// A gate at which links arrive: it hands them out one after the other, and takes them back. A link is a connection of
/// a peer: a reader of what the peer sends, and a writer to it. A gate and its links may be used in another thread.
///
/// A gate that parks links keeps each with its progress. If it shares them with other gates, so that a link may come
/// again at another one, it doesn't tell its links; each link comes again with the progress that it was parked with all
/// the same.
pub trait Acceptor: Drop + Send {
    /// Where a link's bytes come from.
    type Reader: Source + Drop + Send;

    /// Where a link's bytes go.
    type Writer: Sink + Drop + Send;

    /// Its links, if it tells them. Then their readers and writers tell their bytes.
    ghost links: { Self → Option Links };

    /// How many calls of `accept` or `next_link` failed, and how many links weren't parked that were to be. It stays at
    /// the greatest 64-bit number.
    ghost faults: { Self → ℕ };

    /// Hands out the next link: its reader and its writer, which have counted no fault yet. If the gate tells its
    /// links, they have given and taken nothing yet, and their mark is the link's number, counted from 0. It answers
    /// `None` if no link is to come, and waits until one arrives if it can't tell that. If it tells its links, each one
    /// that was handed out is back, and none is parked.
    ///
    /// # Errors
    /// `Failed` if the gate failed: its count of faults rose by one, while a call that doesn't fail leaves it as it is.
    /// Its links are as they were, except for how many had been handed out at the last failure.
    fn accept(&mut self) -> Result<Option<(Self::Reader, Self::Writer)>, Failed>
        requires back { IfSome (links self.old) AreBack }
        requires none_parked { IfSome (links self.old) IsNoneParked }
        ensures next { IfOk result (λ handed. HandsOut (links self.old) (links self.new)
            (option_map (λ link. link_of Self.Reader.Source Self.Writer.Sink link.0 link.1) handed)) }
        ensures unread { IfOk result (λ handed. IfSome handed (λ link.
            IsUnread (links self.old) (Self.Reader.given link.0))) }
        ensures none { OnErr result (links self.new ≡ failed (links self.old)) }
        ensures never_falls { faults self.old ≤ faults self.new }
        ensures failed { OnErr result (faults self.new ≡ one_more (faults self.old)) }
        ensures counted { OnOk result (faults self.new ≡ faults self.old) };

    /// Takes a link back, and ends it. Takes no memory.
    fn finish(&mut self, reader: Self::Reader, writer: Self::Writer)
        requires { MayTakeBack (links self.old) (link_of Self.Reader.Source Self.Writer.Sink reader writer) }
        ensures back { links self.new
            ≡ taken_back (links self.old) (link_of Self.Reader.Source Self.Writer.Sink reader writer) }
        ensures faults { faults self.new ≡ faults self.old };

    /// Hands out the next link: one for the first time, as `accept` does, if new ones are taken, or one that was parked,
    /// as it was then and with its progress. A gate that parks links hands one out again when its reader is ready. If no
    /// new ones are taken, it answers `None` once no link is left that was handed out. If it tells its links, each one
    /// that was handed out is back.
    ///
    /// # Errors
    /// `Failed` as in `accept`.
    fn next_link(
        &mut self,
        takes_new: bool,
    ) -> Result<Option<(Self::Reader, Self::Writer, Option<Progress>)>, Failed>
        requires back { IfSome (links self.old) AreBack }
        ensures next { IfOk result (λ handed. HandsNext takes_new (links self.old) (links self.new)
            (option_map (λ link. record {
              link = link_of Self.Reader.Source Self.Writer.Sink link.0 link.1;
              before = link.2;
            }) handed)) }
        ensures unread { IfOk result (λ handed. IfSome handed (λ link.
            IsUnreadAtFirst (links self.old) link.2 (Self.Reader.given link.0))) }
        ensures none { OnErr result (links self.new ≡ failed (links self.old)) }
        ensures never_falls { faults self.old ≤ faults self.new }
        ensures failed { OnErr result (faults self.new ≡ one_more (faults self.old)) }
        ensures counted { OnOk result (faults self.new ≡ faults self.old) };

    /// Takes back a link whose reader isn't ready, with its progress, and answers whether it is parked, that is, handed
    /// out again later. Otherwise it is ended, as by `finish`, and that is a fault of the gate. Takes no memory.
    fn park(&mut self, reader: Self::Reader, writer: Self::Writer, progress: Progress) -> bool
        requires { MayTakeBack (links self.old) (link_of Self.Reader.Source Self.Writer.Sink reader writer) }
        ensures parks { Parks result (links self.old) (links self.new) (record {
          link = link_of Self.Reader.Source Self.Writer.Sink reader writer;
          progress = progress;
        }) }
        ensures faults { faults self.new ≡ parking_counted result (faults self.old) }
        ensures never_falls { faults self.old ≤ faults self.new };
}

/// Why a network doesn't listen.
#[derive(Clone, Copy, Debug, PartialEq, Eq)]
pub enum ListenFail {
    /// The network failed, and its count of faults rose.
    Failed,
    /// Memory ran out.
    NoMemory,
}

impl fmt::Display for ListenFail {
    fn fmt<W: fmt::Write>(&self, f: &mut fmt::Formatter<W>) -> fmt::Result {
        f.write_str(match self {
            ListenFail::Failed => "the network failed",
            ListenFail::NoMemory => "out of memory",
        })
    }
}

impl Error for ListenFail {}

impl From<AllocError> for ListenFail {
    ghost use Rattle.std.specs.Prelude.{◌≡◌};
    ghost use Rattle.am_network.specs.declared.network.ListenFail.TheVariants.{NoMemory};

    ghost from_gives = { λ _ fail. fail ≡ NoMemory };

    fn from(_error: AllocError) -> ListenFail {
        ListenFail::NoMemory
    }
}

impl<T: Drop> From<AllocFailed<T>> for ListenFail {
    ghost use Rattle.std.specs.Prelude.{◌≡◌};
    ghost use Rattle.am_network.specs.declared.network.ListenFail.TheVariants.{NoMemory};

    ghost from_gives = { λ _ fail. fail ≡ NoMemory };

    fn from(_error: AllocFailed<T>) -> ListenFail {
        ListenFail::NoMemory
    }
}

/// Where gates come from.
pub trait Network {
    /// A gate of this network.
    type Gate: Acceptor;

    /// What it was asked for last, if it tells that. By default it doesn't.
    ghost listening: { Self → Option Listening } = { λ _. None };

    /// How many calls of `listen` there were. It stays at the greatest 64-bit number.
    ghost listens: { Self → ℕ };

    /// How many calls of `listen` failed. It stays at the greatest 64-bit number.
    ghost faults: { Self → ℕ };

    /// How many faults the released gates had. It stays at the greatest 64-bit number.
    ghost gate_faults: { Self → ℕ };

    /// Listens at a port, and answers so many gates, at which its links arrive. It takes the memory for all that these
    /// gates and the network are to take back.
    ///
    /// # Errors
    /// `Failed` if the network failed: its count of faults rose then. `NoMemory` if memory ran out. What was
    /// asked for last, and what was released since, is as it was.
    fn listen(&mut self, port: u16, gates: u32) -> Result<Vec<Self::Gate>, ListenFail>
        ensures count { IfOk result (λ made. length made.items ≡ gates) }
        ensures new { IfOk result (λ made. (k : ℕ) (gate : Self.Gate) → slice_get made.items k ≡ Some gate
            → IsNewGate (record { links = Self.Gate.links gate; faults = Self.Gate.faults gate })) }
        ensures told { IfOk result (λ made. listening self.new ≡ listening_at (listening self.old) port gates) }
        ensures same { OnErr result (listening self.new ≡ listening self.old) }
        ensures listens { listens self.new ≡ one_more (listens self.old) }
        ensures never_falls { faults self.old ≤ faults self.new }
        ensures failed { result ≡ Err ListenFail.Failed → HasRisen (faults self.old) (faults self.new) }
        ensures gate_faults { gate_faults self.new ≡ gate_faults self.old };

    /// Takes a gate back, and counts its faults with those of the gates released earlier. Takes no memory.
    fn release(&mut self, gate: Self::Gate)
        requires { MayRelease (listening self.old) }
        ensures told { listening self.new ≡ released (listening self.old)
            (record { links = Self.Gate.links gate; faults = Self.Gate.faults gate }) }
        ensures listens { listens self.new ≡ listens self.old }
        ensures faults { faults self.new ≡ faults self.old }
        ensures gate_faults { gate_faults self.new ≡ raised_by (Self.Gate.faults gate) (gate_faults self.old) }
        ensures calm { Self.Gate.faults gate ≡ 0 → gate_faults self.new ≡ gate_faults self.old };
}
