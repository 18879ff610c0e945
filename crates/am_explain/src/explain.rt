//! The account of each component of a device.
ghost use Rattle.std.specs.Prelude.{◌≡◌, ◌+◌, ◌*◌, ◌≤◌, IsSome, IfOk, length};
ghost use Rattle.am_index.specs.Groups.{group_size};
ghost use Rattle.am_model.specs.Accounts.{accounts};
ghost use Rattle.am_explain.specs.Asking.{question_of};
ghost use Rattle.am_explain.specs.Contests.{AreGrounds};
ghost use Rattle.am_explain.specs.Costs.{filters_in};

use crate::asking::Question;
use crate::contest::{Grounds, find_contest};
use crate::walk::{add_declared, add_registered};
use am_resolve::Board;
use am_types::{Account, Kind, List, NoMemory, Steps};
use std::alloc::Global;
use std::sync::ledger::Ledger;

/// What the intent reaches, and why it doesn't reach the rest: an account of each component of the kind by
/// uid, then place, and for a question about receivers then of each registered one by number. With `shown` only
/// those of this uid are shown, but they are judged among all. Each full test of a filter is a step:
/// finding what is reached takes at most two for each filter of the intent's group, and then each
/// filter is tested once. ("Intents and intent filters"; which reason comes first is (own).)
pub fn accounts<L: Ledger>(
    alloc: Global,
    board: &Board,
    question: &Question,
    shown: Option<u32>,
    steps: &mut Steps<L>,
) -> Result<List<Account>, NoMemory>
    ensures accounts { IfOk result (λ told. told ≡ accounts board.now (question_of question.now) shown) }
    ensures tests { steps.new ≤ steps.old + 2 * group_size board.now.packages question.now.kind question.now.intent.now
        + (filters_in question.now.kind board.now.packages + length board.now.registered) }
    ensures explicit { IsSome question.now.intent.now.component → steps.new ≡ steps.old }
{
    let contest = find_contest(alloc, board, question, steps)?;
    let grounds = Grounds {
        alloc,
        installed: board.installed(),
        question: *question,
        contest: &contest,
        shown,
    };
    let told = told(&grounds, steps);
    drop(contest);
    told
}

/// The accounts, once it is known what decides.
fn told<L: Ledger>(grounds: &Grounds, steps: &mut Steps<L>) -> Result<List<Account>, NoMemory>
    requires { AreGrounds grounds.now }
    ensures accounts { IfOk result
        (λ told. told ≡ accounts grounds.now.installed.now (question_of grounds.now.question) grounds.now.shown) }
    ensures tests { steps.new ≤ steps.old + (filters_in grounds.now.question.kind grounds.now.installed.now.packages
        + length grounds.now.installed.now.registered) }
    ensures explicit { IsSome grounds.now.question.intent.now.component → steps.new ≡ steps.old }
{
    let mut told = Vec::new(grounds.alloc);
    add_declared(&mut told, grounds, steps)?;
    if grounds.question.kind == Kind::Receiver {
        add_registered(&mut told, grounds, steps)?;
    }
    Ok(List::new(told))
}
