ghost use Rattle.std.specs.Prelude.{◌≡◌};

use crate::{List, Mime, Text, Uri, drop_parts};
use std::alloc::Global;

/// The name of an app component.
#[derive(PartialEq, Eq, Hash)]
pub struct Component {
    /// The package that declares it.
    pub package: Text,
    /// The full class, with its package.
    pub class: Text,
}

impl Drop for Component {
    fn drop(self) {
        drop_parts!(self, Component: package class);
    }
}

/// The value of an extra.
#[derive(Drop)]
pub enum Extra {
    Word(Text),
    Whole(i64),
    Truth(bool),
}

/// An extra under its key.
#[derive(Drop)]
pub struct Named {
    pub key: Text,
    pub value: Extra,
}

/// The flags of an intent.
#[derive(Clone, Copy, Default)]
pub struct Flags {
    pub new_task: bool,
    pub multiple_task: bool,
    pub clear_task: bool,
    pub clear_top: bool,
    pub single_top: bool,
    pub reorder_to_front: bool,
    pub registered_only: bool,
    pub foreground: bool,
    pub no_abort: bool,
    pub include_stopped: bool,
}

/// What an app asks for: an action, data, and who may receive it.
pub struct Intent {
    pub action: Option<Text>,
    pub uri: Option<Uri>,
    pub mime: Option<Mime>,
    pub identifier: Option<Text>,
    /// Sorted by bytes, each once.
    pub categories: List<Text>,
    /// Only this package may receive it.
    pub package: Option<Text>,
    /// Only this component may receive it, and no filter is asked.
    pub component: Option<Component>,
    pub flags: Flags,
    /// Sorted by key, each key once.
    pub extras: List<Named>,
}

impl Drop for Intent {
    fn drop(self) {
        drop_parts!(self, Intent: action uri mime identifier categories package component flags extras);
    }
}

impl Intent {
    ghost use Rattle.am_types.specs.Intents.{no_intent};

    /// The intent that says nothing. Takes no memory.
    pub fn empty(alloc: Global) -> Intent
        ensures { result ≡ no_intent }
    {
        Intent {
            action: None,
            uri: None,
            mime: None,
            identifier: None,
            categories: List::new(Vec::new(alloc)),
            package: None,
            component: None,
            flags: Flags::default(),
            extras: List::new(Vec::new(alloc)),
        }
    }

    /// Hands its extras over, and drops the rest. Takes no memory.
    pub fn into_extras(self) -> List<Named>
        ensures { result ≡ self.extras }
    {
        let Intent {
            action: _,
            uri: _,
            mime: _,
            identifier: _,
            categories: _,
            package: _,
            component: _,
            flags: _,
            extras,
        } = self;
        extras
    }
}
