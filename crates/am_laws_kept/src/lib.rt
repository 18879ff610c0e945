//! Laws about kept rows: what was done is found again at an opening. They have no code: each function does
//! nothing, and its contract is the law.
#![tactic(auto)]

ghost use Rattle.am_laws_kept.specs.Laws.{KeptIsFound, StepIsFound, RowsStayInOrder, RowsFollow};

/// After every history of requests with formed rows, the device opens with the rows that the history has kept, and
/// finds again what is installed and given. Takes no memory.
pub fn kept_is_found()
    ensures { KeptIsFound }
{}

/// With the row that an entry has kept, the device opens as the state after that entry. Takes no memory.
pub fn step_is_found()
    ensures { StepIsFound }
{}

/// The row that an entry has kept leaves the rows in order. Takes no memory.
pub fn rows_stay_in_order()
    ensures { RowsStayInOrder }
{}

/// One more entry of a history puts the row that it has kept into those of the entries before it. Takes no
/// memory.
pub fn rows_follow()
    ensures { RowsFollow }
{}
