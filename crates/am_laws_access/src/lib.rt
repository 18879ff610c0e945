//! Laws about who is reached, over every history. They have no code: each function does nothing, and its
//! contract is the law.
#![tactic(auto)]

ghost use Rattle.am_laws_access.specs.Laws.{ReceiversAreAdmitted, InstancesAreAdmitted, IntentsAreAdmitted};
ghost use Rattle.am_laws_access.specs.Laws.{ServicesAreAdmitted, EntriesAddTheirDeeds};

/// After every history, each receiver that has or had a broadcast was sent it by an entry of the
/// history, and was admitted in the state in which the entry sent it. If the entry sent a pending
/// intent, the sender is the pending intent's creator. Takes no memory.
pub fn receivers_are_admitted()
    ensures { ReceiversAreAdmitted }
{}

/// After every history, each activity instance was made by an entry that started its component, and
/// was given its intent by such an entry, and the gate admitted both. Takes no memory.
pub fn instances_are_admitted()
    ensures { InstancesAreAdmitted }
{}

/// After every history, an entry gives an activity instance an intent, a first or a new one, only by
/// starting its component, and the gate admits that. Takes no memory.
pub fn intents_are_admitted()
    ensures { IntentsAreAdmitted }
{}

/// After every history, each running service was started by as many entries, one after the other, as
/// its count of starts says. The gate admitted each of them, and the last one gave it its intent.
/// Takes no memory.
pub fn services_are_admitted()
    ensures { ServicesAreAdmitted }
{}

/// After every history, whatever an entry adds is a deed of this entry, which was admitted in the state at its moment:
/// a delivery of a normal broadcast, whose number it gave out; an activity instance, or an intent of one; one more
/// start of a service; a registered receiver; a token, or other extras of one; or a package. If its answer says that a
/// start landed, that was the entry's own start, even if the instance already had that intent. Takes no memory.
pub fn entries_add_their_deeds()
    ensures { EntriesAddTheirDeeds }
{}
