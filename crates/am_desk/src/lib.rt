//! What a desk is, on which the calls of a connection are made.
#![tactic(auto)]

ghost use Rattle.std.specs.Prelude.{◌≡◌, ◌≤◌, Bool, IfOk, OnErr, IsTrue};
ghost use Rattle.am_history.specs.Desks.{DeskView, IsSameDesk, SeesOthers, Shows, start_of};
ghost use Rattle.am_history.specs.History.{IsLegal};
ghost use Rattle.am_history.specs.Steps.{has_formed_row};

use am_types::{NoMemory, Request, Shown, Text};

/// A call as it is made on a desk: its key, its moment in milliseconds, the length of its request's body in bytes, what
/// it asks, and the least place that its answer may have.
#[derive(Drop)]
pub struct DeskCall<'k> {
    pub key: &'k Text,
    pub now: u64,
    pub weight: u32,
    pub request: Request,
    pub least: u64,
}

/// Where a connection's calls are made. The manager behind it may be shared with other desks.
pub trait Desk {
    /// Where its manager comes from, its number, which desks share the manager, and the entries of
    /// the history that it has seen.
    ghost view: { Self → DeskView };

    /// Whether a call waits until the history has as many entries as the least place that it asks for.
    ghost waits: { Bool };

    /// Makes one call. The row that its request has kept has a row's form. If the desk waits, the place of its answer
    /// isn't below the least one. After `NoMemory` the call itself changed nothing, but the desk may have seen more
    /// calls of others.
    fn call(&mut self, asked: DeskCall<'_>) -> Result<Shown, NoMemory>
        requires formed { IsTrue (has_formed_row asked.request) }
        ensures shown { IfOk result (λ shown. Shows (view self.old) (view self.new)
            (record {
              desk = (view self.old).number;
              key = asked.entry.key.now;
              now = asked.entry.now;
              weight = asked.entry.weight;
              request = asked.entry.request;
            })
            shown) }
        ensures least { IfOk result (λ shown. IsTrue waits → asked.entry.least ≤ shown.at) }
        ensures refused { OnErr result (SeesOthers (view self.old) (view self.new).seen) }
        ensures legal { IsLegal (start_of (view self.new)) (view self.new).seen }
        ensures same { IsSameDesk (view self.old) (view self.new) };
}
