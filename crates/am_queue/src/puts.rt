//! Adds broadcasts to the live ones, with all the memory that they need.
ghost use Rattle.std.specs.Prelude.{◌≡◌, ℕ, ◌+◌, ◌^◌, ◌<◌, ◌≤◌, [], ◌∷◌, ◌++◌, false, length, IsSome, IfSome, OnOk, OnErr};
ghost use Rattle.am_model.specs.Broadcasts.{span};
ghost use Rattle.am_model.specs.Filters.{is_empty};
ghost use Rattle.am_model.specs.Sending.{at_once, in_turn};
ghost use Rattle.am_queue_ordered.specs.Counts.{count_of, one_for};

use crate::results::Results;
use am_queue_normal::{Begin, Normals};
use am_queue_ordered::{Counts, InTurn, Queue};
use am_types::Sending;
use std::alloc::{AllocError, Global};

/// Adds a normal broadcast to the others, and counts it.
pub(crate) fn put_normal(
    alloc: Global,
    normals: &mut Normals,
    live: &mut Counts,
    begin: Begin,
    sending: Sending,
) -> Result<(), AllocError>
    requires end { normals.old.end ≤ begin.first }
    requires some { is_empty sending.to ≡ false }
    requires room { begin.first + length sending.to < 2 ^ 64 }
    requires deadline { begin.deadline ≡ sending.now + span sending.foreground }
    requires few { count_of live.old sending.sender + 1 < 2 ^ 32 }
    ensures ok { OnOk result (normals.new ≡ record {
      normal = normals.old.normal ++ at_once begin.number begin.first sending ∷ [];
      end = begin.first + length sending.to;
    }) }
    ensures counted { OnOk result ((uid : ℕ)
        → count_of live.new uid ≡ count_of live.old uid + one_for sending.sender uid) }
    ensures err { OnErr result (normals.new ≡ normals.old) }
    ensures same { OnErr result ((uid : ℕ) → count_of live.new uid ≡ count_of live.old uid) }
{
    let sender = sending.sender;
    match live.raise(sender) {
        Err(error) => {
            drop(sending);
            Err(error)
        }
        Ok(()) => match normals.add(alloc, begin, sending) {
            Ok(()) => Ok(()),
            Err(error) => {
                live.lower(sender);
                Err(error)
            }
        },
    }
}

/// Puts an ordered broadcast at the end of a queue.
fn add_turn(
    alloc: Global,
    queue: &mut Queue,
    number: u64,
    sending: Sending,
) -> Result<(), AllocError>
    requires { IsSome sending.ordered }
    ensures ok { OnOk result (IfSome sending.ordered (λ ordered.
        queue.new ≡ queue.old ++ in_turn number sending ordered ∷ [])) }
    ensures err { OnErr result (queue.new ≡ queue.old) }
{
    let sent = InTurn::new(alloc, number, sending)?;
    queue.push(sent)
}

/// What comes with an ordered broadcast: its number, and for how many results to make room.
#[derive(Clone, Copy)]
pub(crate) struct Last {
    pub alloc: Global,
    pub number: u64,
    pub more: usize,
}

/// Puts an ordered broadcast at the end of a queue, counts it, and makes room for results.
pub(crate) fn put_turn(
    last: Last,
    queue: &mut Queue,
    results: &mut Results,
    live: &mut Counts,
    sending: Sending,
) -> Result<(), AllocError>
    requires ordered { IsSome sending.ordered }
    requires few { count_of live.old sending.sender + 1 < 2 ^ 32 }
    ensures ok { OnOk result (IfSome sending.ordered (λ ordered.
        queue.new ≡ queue.old ++ in_turn last.number sending ordered ∷ [])) }
    ensures room { OnOk result (last.more ≤ results.new.room) }
    ensures counted { OnOk result ((uid : ℕ)
        → count_of live.new uid ≡ count_of live.old uid + one_for sending.sender uid) }
    ensures err { OnErr result (queue.new ≡ queue.old) }
    ensures same { OnErr result ((uid : ℕ) → count_of live.new uid ≡ count_of live.old uid) }
    ensures results { results.new.list ≡ results.old.list }
    ensures no_less { results.old.room ≤ results.new.room }
{
    let sender = sending.sender;
    match room_for(results, last.more, live, sender) {
        Err(error) => {
            drop(sending);
            Err(error)
        }
        Ok(()) => match add_turn(last.alloc, queue, last.number, sending) {
            Ok(()) => Ok(()),
            Err(error) => {
                live.lower(sender);
                Err(error)
            }
        },
    }
}

/// Makes room for this many more results, and counts a broadcast of the sender.
fn room_for(
    results: &mut Results,
    more: usize,
    live: &mut Counts,
    sender: u32,
) -> Result<(), AllocError>
    requires { count_of live.old sender + 1 < 2 ^ 32 }
    ensures room { OnOk result (more ≤ results.new.room) }
    ensures counted { OnOk result ((uid : ℕ) → count_of live.new uid ≡ count_of live.old uid + one_for sender uid) }
    ensures err { OnErr result (live.new ≡ live.old) }
    ensures results { results.new.list ≡ results.old.list }
    ensures no_less { results.old.room ≤ results.new.room }
{
    results.reserve(more)?;
    live.raise(sender)?;
    Ok(())
}
