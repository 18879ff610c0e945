use crate::{
    Account, Component, Entry, Item, Landed, List, Receiving, Rule, ServiceView, TaskView,
};

/// What the manager answers.
#[derive(Drop)]
pub enum Reply {
    /// In the order of priority, uid and place.
    Components(List<Component>),
    /// By uid and place, then registered receivers by number.
    Accounts(List<Account>),
    /// Several activities share the greatest priority.
    Choose(List<Component>),
    /// Where an activity start landed.
    Placed(Landed),
    /// The instance that was ended, if there was one.
    Finished(Option<u64>),
    /// From front to back.
    Tasks(List<TaskView>),
    /// In the order of their first start.
    Services(List<ServiceView>),
    /// The number of the registered receiver.
    Registered(u64),
    /// By rising number, at most 64.
    Items(List<Item>),
    /// The token, if there is one.
    Token(Option<u64>),
    /// The uid of the new package.
    Installed(u32),
    /// The request is refused under this rule. Nothing was done, except what the rule itself says.
    Refused(Rule),
    /// A service runs: how many times it was started since it began to run.
    Started {
        component: Component,
        starts: u64,
    },
    /// The broadcast's number, and who was offered it, in order.
    Sent {
        broadcast: u64,
        receivers: List<Receiving>,
    },
    /// At most 64 stored calls, from that number on.
    Entries {
        from: u64,
        entries: List<Entry>,
    },
    /// The length of the history, the last moment in milliseconds, and the number of packages.
    Status {
        history: u64,
        moment: u64,
        packages: u32,
    },
    /// The earliest deadline of a live broadcast that is left, if there is one, and the moment, in milliseconds.
    Advanced {
        due: Option<u64>,
        now: u64,
    },
    /// It was done.
    Plain,
}
