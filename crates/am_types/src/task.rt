use crate::{Component, Flags, Intent, List, Mode, Text};

/// What a start did: a fresh instance, a new intent to one that was there, or a task brought to the front.
#[derive(Clone, Copy, Debug, PartialEq, Eq)]
pub enum Placed {
    Fresh,
    NewIntent,
    Fronted,
}

/// Where a start landed.
#[derive(Clone, Copy, Debug, PartialEq, Eq)]
pub struct Landed {
    pub how: Placed,
    pub task: u64,
    pub instance: u64,
}

/// An activity instance as a caller sees it.
#[derive(Drop)]
pub struct InstanceView {
    pub instance: u64,
    pub component: Component,
    pub intent: Intent,
}

/// A task as a caller sees it.
#[derive(Drop)]
pub struct TaskView {
    pub task: u64,
    /// From the root to the top.
    pub instances: List<InstanceView>,
}

/// A running service as a caller sees it.
#[derive(Drop)]
pub struct ServiceView {
    pub component: Component,
    pub intent: Intent,
    pub starts: u64,
}

/// A start of an activity that is to be placed.
#[derive(Drop)]
pub struct StartCall {
    pub target: Component,
    /// The uid of the target's package.
    pub owner: u32,
    pub caller: u32,
    pub mode: Mode,
    /// The target's affinity; empty for none.
    pub affinity: Text,
    pub flags: Flags,
    /// The activity instance that starts it.
    pub source: Option<u64>,
    pub intent: Intent,
}

/// Why a start isn't placed.
#[derive(Clone, Copy, Debug, PartialEq, Eq)]
pub enum PlaceFault {
    /// There is no such source instance.
    NoSource,
    /// The source instance is another uid's.
    NotYours,
    /// A start without a source must ask for a new task.
    NeedsNewTask,
    /// There are 64 tasks.
    TasksFull,
    /// The task has 64 instances.
    TaskFull,
    NoMemory,
}

/// Why an activity instance isn't ended.
#[derive(Clone, Copy, Debug, PartialEq, Eq)]
pub enum TaskFault {
    /// There is no such instance.
    NoSource,
    /// It is another uid's.
    NotYours,
}
