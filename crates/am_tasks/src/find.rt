//! Finds things among the tasks, by their places.
ghost use Rattle.std.specs.Prelude.{◌≡◌, ◌<◌, length, reverse, IfSome, option_map};
ghost use Rattle.std.specs.List.{find, position};
ghost use Rattle.am_model.specs.Placement.{is_of, topmost};
ghost use Rattle.am_model.specs.Tasks.{Instance as Held, instance_in, is_number, owner_in, seen};
ghost use Rattle.am_tasks.specs.Marks.{mark_of};
ghost use Rattle.am_tasks.specs.Finds.{at, has_component, has_number, is_for, is_rooted};

use crate::task::{Instance, Task, mark_of};
use am_types::{Component, Text};

/// The activity is an instance of the component.
pub(crate) fn is_of(component: &Component, instance: &Instance) -> bool
    ensures { result ≡ is_of component.now instance.now }
{
    component.package == instance.component.package && component.class == instance.component.class
}

/// The place of the topmost instance of the component in the task.
pub(crate) fn topmost_in(task: &Task, component: &Component) -> Option<usize>
    ensures found { at task.now.instances result ≡ topmost component.now task.now }
    ensures within { IfSome result (λ place. place < length task.now.instances) }
{
    topmost(&task.instances, component)
}

fn topmost(instances: &[Instance], component: &Component) -> Option<usize>
    ensures found { at instances.now result ≡ find (is_of component.now) (reverse instances.now) }
    ensures within { IfSome result (λ place. place < length instances.now) }
{
    let mut found = None;
    for (place, instance) in instances.iter().enumerate() {
        if is_of(component, instance) {
            found = Some(place);
        }
    }
    found
}

/// The place of the task that has the instance with this number.
pub(crate) fn task_of(tasks: &[Task], number: u64) -> Option<usize>
    ensures { result ≡ position (has_number number) tasks.now }
{
    tasks.iter().position(|task| has_number(task, number))
}

/// The task has the instance with this number.
fn has_number(task: &Task, number: u64) -> bool
    ensures { result ≡ has_number number task.now }
{
    task.instances
        .iter()
        .any(|instance| is_number(instance, number))
}

/// The instance has this number.
fn is_number(instance: &Instance, number: u64) -> bool
    ensures { result ≡ is_number number instance.now }
{
    instance.number == number
}

/// The place of the frontmost task that has an instance of the component.
pub(crate) fn task_with(tasks: &[Task], component: &Component) -> Option<usize>
    ensures { result ≡ position (has_component component.now) tasks.now }
{
    task_marked(tasks, component, mark_of(component))
}

fn task_marked(tasks: &[Task], component: &Component, mark: u64) -> Option<usize>
    requires { mark ≡ mark_of component.now }
    ensures { result ≡ position (has_component component.now) tasks.now }
{
    tasks
        .iter()
        .position(|task| has_component(task, component, mark))
}

/// The task has an instance of the component, which has this mark.
fn has_component(task: &Task, component: &Component, mark: u64) -> bool
    requires { mark ≡ mark_of component.now }
    ensures { result ≡ has_component component.now task.now }
{
    task.instances
        .iter()
        .any(|instance| is_marked(component, mark, instance))
}

/// The activity is an instance of the component, which has this mark.
#[tactic(auto, using(crate::proofs::MarkLemmas::other_mark))]
fn is_marked(component: &Component, mark: u64, instance: &Instance) -> bool
    requires { mark ≡ mark_of component.now }
    ensures { result ≡ is_of component.now instance.now }
{
    instance.mark == mark && is_of(component, instance)
}

/// The place of the frontmost task whose root is an instance of the component.
pub(crate) fn task_rooted(tasks: &[Task], component: &Component) -> Option<usize>
    ensures { result ≡ position (is_rooted component.now) tasks.now }
{
    tasks.iter().position(|task| is_rooted(task, component))
}

/// The root of the task is an instance of the component.
pub(crate) fn is_rooted(task: &Task, component: &Component) -> bool
    ensures { result ≡ is_rooted component.now task.now }
{
    match task.instances.first() {
        None => false,
        Some(root) => is_of(component, root),
    }
}

/// The place of the frontmost task with this affinity that isn't for a single instance; an empty
/// affinity matches none.
pub(crate) fn task_of_affinity(tasks: &[Task], affinity: &Text) -> Option<usize>
    ensures { result ≡ position (is_for affinity.now) tasks.now }
{
    tasks.iter().position(|task| is_for(task, affinity))
}

fn is_for(task: &Task, affinity: &Text) -> bool
    ensures { result ≡ is_for affinity.now task.now }
{
    !task.single && !affinity.as_str().is_empty() && task.affinity == *affinity
}

/// The uid of the instance's package, if the task has an instance with this number.
pub(crate) fn owner_in(task: &Task, number: u64) -> Option<u32>
    ensures { result ≡ owner_in (instance_in number task.now) }
{
    let instance = task
        .instances
        .iter()
        .find(|instance| is_number(instance, number))?;
    Some(instance.owner)
}

/// The number of the instance that the user sees: the top of the front task.
#[tactic(auto, using(crate::proofs::Finding::last_at))]
pub(crate) fn seen(tasks: &[Task]) -> Option<u64>
    ensures { result ≡ option_map (λ (i : Held). i.number) (seen tasks.now) }
{
    let front = tasks.first()?;
    let top = front.instances.last()?;
    Some(top.number)
}
