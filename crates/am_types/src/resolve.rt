use crate::{Component, Filter, List, Text, drop_parts};

/// A component that an intent finds.
#[derive(Drop)]
pub struct Hit {
    pub component: Component,
    pub uid: u32,
    /// Its position among the components of its kind in the manifest, from 0.
    pub place: u32,
    pub priority: i32,
}

/// How an intent finds a component. All but the priority is asked by a phone's rules alone, of the filter that counts.
#[derive(Clone, Copy)]
pub struct Finding {
    /// The priority with which the component counts.
    pub priority: i32,
    /// Whether the filter lists the default category.
    pub lists_default: bool,
    /// What the intent's data reach in the filter, from 1 for no data to 6 for a type.
    pub reaches: u8,
    /// Where the filter is found, from 0 to 3; what is found at 0 comes first.
    pub cut: u8,
    /// Whether the filter is a browser's.
    pub browses: bool,
}

/// A component that an intent finds, and how.
#[derive(Drop)]
pub struct Candidate {
    pub hit: Hit,
    pub finding: Finding,
}

/// Which component a start of an activity reaches.
#[derive(Drop)]
pub enum Target {
    /// None passes.
    Nothing,
    /// The one of greatest priority.
    One(Hit),
    /// Several share the greatest priority: the user must choose among these, and nothing starts.
    Choose(List<Hit>),
}

/// A receiver that an app registered while it runs.
pub struct Registration {
    pub number: u64,
    pub uid: u32,
    pub filter: Filter,
    /// What a sender must hold.
    pub permission: Option<Text>,
}

impl Drop for Registration {
    fn drop(self) {
        drop_parts!(self, Registration: number uid filter permission);
    }
}
