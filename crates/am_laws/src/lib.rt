//! Laws of the definitions over every history. They have no code: each function does nothing, and its
//! contract is the law.
#![tactic(auto)]

ghost use Rattle.am_laws.specs.Laws.{NumbersFollow, UidsFollow, NumbersSuffice, MomentsFit, MomentsRise, NoRequestFaults};
ghost use Rattle.am_laws.specs.Refusals.{RefusalsChangeNothing};

/// After every history, the next numbers of tasks, instances, broadcasts, tokens and registrations are at most one more
/// than the history's length, and so is the number of starts of each running service. Takes no memory.
pub fn numbers_follow()
    ensures { NumbersFollow }
{}

/// After every history, the next uid is at least the first next one, and exceeds it by at most the history's length.
/// Takes no memory.
pub fn uids_follow()
    ensures { UidsFollow }
{}

/// A history within its limit leaves numbers for a call. Takes no memory.
pub fn numbers_suffice()
    ensures { NumbersSuffice }
{}

/// After every history, the last moment is at most 2^62 milliseconds. Takes no memory.
pub fn moments_fit()
    ensures { MomentsFit }
{}

/// The last moment never goes back. Takes no memory.
pub fn moments_rise()
    ensures { MomentsRise }
{}

/// No request itself gives the answer that its row couldn't be kept: only the keeper gives it.
/// Takes no memory.
pub fn no_request_faults()
    ensures { NoRequestFaults }
{}

/// After every history, an entry that is refused leaves the state as it was at its moment, except for a one-shot
/// pending intent that it used, which is gone. Takes no memory.
pub fn refusals_change_nothing()
    ensures { RefusalsChangeNothing }
{}
