//! Laws about the courses of ordered broadcasts, over every history. They have no code: each function
//! does nothing, and its contract is the law.
#![tactic(auto)]

ghost use Rattle.am_laws_courses.specs.Laws.{CoursesAreKept, DeliveriesGoInTurn};

/// After every history, each ordered broadcast that runs was sent by an entry of the history. Its
/// receivers are what the entries since then made of those that were admitted, in their order: those
/// that are past, each with its answer, late or gone, and those that are left, without any that were
/// struck before their turn. Its answers are exactly the entries that finished a delivery of it, in
/// their order, each by the receiver's uid. Each result is what such a broadcast's answers, one after
/// the other, made of its first outcome. Takes no memory.
pub fn courses_are_kept()
    ensures { CoursesAreKept }
{}

/// After every history, no two ordered broadcasts share a number. Of the receivers that an ordered
/// broadcast has left, only the first can have had a delivery of it: a receiver that had one at an
/// earlier place of the history is past by now, or still has it. Takes no memory.
pub fn deliveries_go_in_turn()
    ensures { DeliveriesGoInTurn }
{}
