//! What a uid sees of the tasks.
ghost use Rattle.std.specs.Prelude.{◌≡◌, IfOk, filter, map};
ghost use Rattle.am_model.specs.Gates.{is_privileged};
ghost use Rattle.am_model.specs.Tasks.{may_end, may_see, task_view, tasks_keeping, view_of};

use crate::task::{Instance, Task};
use am_types::{InstanceView, List, NoMemory, ROOT, SYSTEM, TaskView};
use std::alloc::{AllocError, Global};

/// The tasks with the instances that the uid sees, from front to back; a task without any is left
/// out.
pub(crate) fn task_views(
    alloc: Global,
    tasks: &[Task],
    uid: u32,
) -> Result<List<TaskView>, NoMemory>
    ensures { IfOk result (λ shown. shown ≡ map task_view (tasks_keeping (may_see uid) tasks.now)) }
{
    let mut shown = Vec::new(alloc);
    for task in tasks {
        let instances = instance_views(alloc, &task.instances, uid)?;
        if !instances.is_empty() {
            shown.push(TaskView {
                task: task.number,
                instances: List::new(instances),
            })?;
        }
    }
    Ok(List::new(shown))
}

fn instance_views(
    alloc: Global,
    instances: &[Instance],
    uid: u32,
) -> Result<Vec<InstanceView>, NoMemory>
    ensures { IfOk result (λ shown. shown.items ≡ map view_of (filter (may_see uid) instances.now)) }
{
    let mut shown = Vec::new(alloc);
    for instance in instances {
        if may_see(uid, instance) {
            shown.push(instance_view(instance)?)?;
        }
    }
    Ok(shown)
}

fn instance_view(instance: &Instance) -> Result<InstanceView, AllocError>
    ensures { IfOk result (λ view. view ≡ view_of instance.now) }
{
    Ok(InstanceView {
        instance: instance.number,
        component: instance.component.clone()?,
        intent: (*instance.intent).clone()?,
    })
}

/// The uid sees the instance: its own, or any if it is the system or the root.
fn may_see(uid: u32, instance: &Instance) -> bool
    ensures { result ≡ may_see uid instance.now }
{
    is_privileged(uid) || instance.owner == uid
}

/// The uid may end what another owns: its own, or anything if it is the system or the root.
pub(crate) fn may_end(uid: u32, owner: u32) -> bool
    ensures { result ≡ may_end uid owner }
{
    is_privileged(uid) || uid == owner
}

/// The system or the root.
fn is_privileged(uid: u32) -> bool
    ensures { result ≡ is_privileged uid }
{
    uid == ROOT || uid == SYSTEM
}
