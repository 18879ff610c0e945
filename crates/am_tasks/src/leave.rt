//! Instances that end.
ghost use Rattle.std.specs.Prelude.{◌≡◌, not, filter, map};
ghost use Rattle.am_model.specs.Filters.{is_empty};
ghost use Rattle.am_model.specs.Tasks.{keeping, tasks_keeping};
ghost use Rattle.am_tasks.specs.Leaving.{stays};

use crate::task::{Instance, Task};

/// Which instances end.
#[derive(Clone, Copy)]
pub(crate) enum Leaving {
    /// The one with this number.
    Numbered(u64),
    /// All of this uid.
    OwnedBy(u32),
}

/// The tasks without the instances that end; a task without instances is gone. Takes no memory.
pub(crate) fn leave(tasks: &mut Vec<Task>, leaving: Leaving)
    ensures { tasks.new.items ≡ tasks_keeping (stays leaving) tasks.old.items }
{
    leave_each(tasks, leaving);
    tasks.retain(has_instance);
}

fn leave_each(tasks: &mut Vec<Task>, leaving: Leaving)
    ensures { tasks.new.items ≡ map (keeping (stays leaving)) tasks.old.items }
{
    for task in tasks.iter_mut() {
        leave_task(task, leaving);
    }
}

fn leave_task(task: &mut Task, leaving: Leaving)
    ensures { task.new ≡ keeping (stays leaving) task.old }
{
    leave_instances(&mut task.instances, leaving);
}

fn leave_instances(instances: &mut Vec<Instance>, leaving: Leaving)
    ensures { instances.new.items ≡ filter (stays leaving) instances.old.items }
{
    instances.retain(|instance| stays(leaving, instance));
}

/// The instance stays.
fn stays(leaving: Leaving, instance: &Instance) -> bool
    ensures { result ≡ stays leaving instance.now }
{
    match leaving {
        Leaving::Numbered(number) => instance.number != number,
        Leaving::OwnedBy(uid) => instance.owner != uid,
    }
}

fn has_instance(task: &Task) -> bool
    ensures { result ≡ not (is_empty task.now.instances) }
{
    !task.instances.is_empty()
}
