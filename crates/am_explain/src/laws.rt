//! Laws of the accounts. They have no code: each function does nothing, and its contract is the law.
ghost use Rattle.am_explain.specs.Laws.{ActivitiesAreStarted, ReasonsAreOfFilters, ReceiversAreSentTo, ServicesAreStarted};

/// Under the profile the activities decided on, by the gate's verdict, are those that a start of the intent reaches, and the
/// tied ones are those from which its user must choose. Takes no memory.
pub fn activities_are_started()
    ensures { ActivitiesAreStarted }
{}

/// The service decided on, by the gate's verdict, is the one that a start of the intent reaches. Takes no
/// memory.
pub fn services_are_started()
    ensures { ServicesAreStarted }
{}

/// The receivers decided on, as a broadcast of the intent decides, are those that it is offered to, and the
/// reached ones are those that are admitted; if the caller may not send the action, none is reached. Takes no
/// memory.
pub fn receivers_are_sent_to()
    ensures { ReceiversAreSentTo }
{}

/// The reasons of a component are those for which the intent doesn't find its filters, one for each;
/// the same holds for the reason of a registered receiver. Takes no memory.
pub fn reasons_are_of_filters()
    ensures { ReasonsAreOfFilters }
{}
