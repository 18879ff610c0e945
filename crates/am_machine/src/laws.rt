//! What holds of a manager after its history, whatever its calls were. These functions do nothing: their contracts are
//! the laws.
ghost use Rattle.std.specs.Prelude.{◌≡◌, ℕ, ◌+◌, ◌≤◌, true, ◌++◌, ◌⊎◌, All, [], ◌∷◌, length};
ghost use Rattle.am_types.specs.Bounds.{latest_moment};
ghost use Rattle.am_types.specs.declared.history.Entry.{Entry};
ghost use Rattle.am_history.specs.Desks.{opening_of};
ghost use Rattle.am_history.specs.Numbers.{HasNumbersTo};
ghost use Rattle.am_history.specs.Steps.{after_due, is_refusal};
ghost use Rattle.am_laws.specs.Access.{AreSentByEntries, IsStartedByEntries, OfInstances};
ghost use Rattle.am_laws.specs.Laws.{answer_after, state_after};
ghost use Rattle.am_laws.specs.Refusals.{after_refused_entry};
ghost use Rattle.am_laws_access.specs.Adds.{Adds};
ghost use Rattle.am_laws_access.specs.Intents.{IsAmong, IsGivenBy};
ghost use Rattle.am_laws_access.specs.Starts.{IsStartedEachTime};
ghost use Rattle.am_laws_courses.specs.Fold.{IsInCourse, IsOutcome, OfCourses};
ghost use Rattle.am_laws_courses.specs.Turns.{IsInTurn, OfTurns};
ghost use Rattle.am_laws_state.specs.Sound.{IsSoundState};

use crate::Manager;
use am_keeper::Keeper;
use am_laws::{moments_fit, moments_rise, numbers_follow, refusals_change_nothing};
use am_laws_access::{
    entries_add_their_deeds, instances_are_admitted, intents_are_admitted, receivers_are_admitted,
    services_are_admitted,
};
use am_laws_courses::{courses_are_kept, deliveries_go_in_turn};
use am_laws_state::states_are_sound;

impl<K: Keeper> Manager<K> {
    /// What is installed is sound. The next numbers of tasks, instances, broadcasts, tokens and registrations are at most
    /// one more than the number of the history's entries. The last moment is at most 2^62 milliseconds, and no earlier
    /// after the next entry. Takes no memory.
    pub fn stays_sound(&self)
        ensures sound { IsSoundState (state_after self.now.origin self.now.history) }
        ensures numbers { HasNumbersTo (1 + length self.now.history) (state_after self.now.origin self.now.history) }
        ensures moment { (state_after self.now.origin self.now.history).moment ≤ latest_moment }
        ensures rises { (next : Entry) → (state_after self.now.origin self.now.history).moment
            ≤ (state_after self.now.origin (self.now.history ++ next ∷ [])).moment }
    {
        // Its device is sound: contracts see that when a part of it is read.
        let _live = &self.live;
        states_are_sound();
        numbers_follow();
        moments_fit();
        moments_rise();
    }

    /// Whoever has or had one of its broadcasts was sent it by an entry of its history, and was admitted then. Each of
    /// its activity instances was made and given its intent, also by the next entry, by starts that the gate admitted,
    /// and each of its running services was started as often as it says, each time by an entry that the gate admitted.
    /// When a pending intent is sent, the caller is its creator. Takes no memory.
    pub fn reaches_the_admitted(&self)
        ensures receivers { AreSentByEntries (opening_of self.now.origin) self.now.history
            (state_after self.now.origin self.now.history).broadcasts }
        ensures instances { OfInstances (IsStartedByEntries (opening_of self.now.origin) self.now.history)
            (state_after self.now.origin self.now.history).tasks.tasks }
        ensures intents { (next : Entry) → OfInstances
            (λ i. IsAmong (state_after self.now.origin self.now.history).tasks.tasks i
            ⊎ IsGivenBy (after_due (state_after self.now.origin self.now.history) next.now) next i)
            (state_after self.now.origin (self.now.history ++ next ∷ [])).tasks.tasks }
        ensures services { All (IsStartedEachTime (opening_of self.now.origin) self.now.history)
            (state_after self.now.origin self.now.history).services }
    {
        receivers_are_admitted();
        instances_are_admitted();
        intents_are_admitted();
        services_are_admitted();
    }

    /// Whatever the next entry adds is a deed of that entry itself, which was admitted in the state at its moment: a
    /// delivery of a normal broadcast, to which it gave its number; an activity instance, or a new intent of one; one
    /// more start of a service; a registered receiver; a token, or other extras of one; a package. If its answer is that
    /// a start landed, that start was its own, also if the instance had that intent already. What is due at its moment
    /// adds nothing. Takes no memory.
    pub fn adds_by_deeds(&self)
        ensures adds { (next : Entry) → Adds (state_after self.now.origin self.now.history) next
            (answer_after self.now.origin self.now.history next) }
    {
        entries_add_their_deeds();
    }

    /// If the next entry is refused, the state after it is the one at its moment, when what was due was handled, except
    /// for a one-shot pending intent that it used, which is gone. Takes no memory.
    pub fn stays_if_refused(&self)
        ensures refused { (next : Entry) → is_refusal (answer_after self.now.origin self.now.history next).0 ≡ true
            → (answer_after self.now.origin self.now.history next).1
            ≡ after_refused_entry (after_due (state_after self.now.origin self.now.history) next.now) next }
    {
        refusals_change_nothing();
    }

    /// Each of its ordered broadcasts was sent by an entry of its history, and runs on through those that were admitted
    /// then, in their order: what was answered are exactly the entries that finished a delivery of it, and of those
    /// that are left only the first has had a delivery. Each of its results is what the answers, one after the other,
    /// made of the first outcome. Takes no memory.
    pub fn keeps_courses(&self)
        ensures courses { OfCourses (IsInCourse (opening_of self.now.origin) self.now.history)
            (IsOutcome (opening_of self.now.origin) self.now.history)
            (state_after self.now.origin self.now.history).broadcasts }
        ensures turns { OfTurns (IsInTurn (opening_of self.now.origin) self.now.history)
            (state_after self.now.origin self.now.history).broadcasts }
    {
        courses_are_kept();
        deliveries_go_in_turn();
    }
}
