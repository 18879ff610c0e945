use crate::{Aim, List, Rule, Why};

/// How the start of a web intent is narrowed: to the packages that are approved for its host, to the browser that the
/// device names, or to the activities that take any host.
#[derive(Clone, Copy)]
pub enum Narrowing {
    Approved,
    Browser,
    General,
}

/// Whether a component is reached, and if not, the first reason that applies.
#[derive(Drop)]
pub enum Standing {
    /// The intent names another component.
    OtherComponent,
    /// The intent names no component, and another package.
    OtherPackage,
    /// The component isn't enabled.
    Disabled,
    /// The intent passes none of its filters: the reason for each, in their order.
    Filters(List<Why>),
    /// The narrowing of web intents leaves the activity out.
    Narrowed(Narrowing),
    /// Another activity has a greater priority, or another service of the package comes first.
    Outranked,
    /// It shares the greatest priority with other activities, so that the user would choose.
    Tied,
    /// The start or the broadcast is refused by this rule, or the receiver skipped.
    Refused(Rule),
    /// It receives the intent.
    Reached,
}

/// What an explanation says about a component or a registered receiver.
#[derive(Drop)]
pub struct Account {
    pub to: Aim,
    pub standing: Standing,
}
