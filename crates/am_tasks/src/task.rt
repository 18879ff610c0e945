//! Activity instances and tasks as they are kept.
ghost use Rattle.std.specs.Prelude.{◌≡◌};
ghost use Rattle.am_tasks.specs.Marks.{mark_of, mark_of_bytes};

use am_types::{Component, Intent, Text};
use std::marker::Model;

/// An activity instance.
#[derive(Drop)]
pub(crate) struct Instance {
    pub(crate) number: u64,
    pub(crate) component: Component,
    /// Components with different marks differ, so a search compares few texts.
    pub(crate) mark: u64,
    /// The uid of the component's package.
    pub(crate) owner: u32,
    /// The last intent that it was given; kept separately, so that a search goes over little memory.
    pub(crate) intent: Box<Intent>,
}

impl Model for Instance {
    ghost use Rattle.std.specs.Prelude.{◌≡◌};
    ghost use Rattle.am_model.specs.Tasks.{Instance as Kept};
    ghost use Rattle.am_tasks.specs.Marks.{mark_of};

    ghost Value = { Kept };

    ghost view = { λ i. record { number = i.number; component = i.component; owner = i.owner; intent = i.intent.value } };

    ghost invariant = { λ i. i.mark ≡ mark_of i.component };
}

/// The mark of a component: a number made of the bytes of its class.
pub(crate) fn mark_of(component: &Component) -> u64
    ensures { result ≡ mark_of component.now }
{
    mark_of_bytes(component.class.as_str().as_bytes())
}

#[tactic(auto, unfolding(crate::specs::Marks::mark_of_bytes))]
fn mark_of_bytes(bytes: &[u8]) -> u64
    ensures { result ≡ mark_of_bytes bytes.now }
{
    let mut mark: u64 = 0;
    for byte in bytes {
        mark = mark.wrapping_mul(31).wrapping_add(u64::from(*byte));
    }
    mark
}

/// A task.
#[derive(Drop)]
pub(crate) struct Task {
    pub(crate) number: u64,
    /// The affinity of the component that it was made for; empty for none.
    pub(crate) affinity: Text,
    /// Whether it is for a single instance.
    pub(crate) single: bool,
    /// From the root to the top.
    pub(crate) instances: Vec<Instance>,
}

impl Model for Task {
    ghost use Rattle.am_model.specs.Tasks.{Task as Kept};

    ghost Value = { Kept };

    ghost view = { λ t. record { number = t.number; affinity = t.affinity; single = t.single; instances = t.instances.items } };
}
