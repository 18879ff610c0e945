//! What a start does, decided before anything changes.
ghost use Rattle.std.specs.Prelude.{◌≡◌, ◌<◌, if◌then◌else◌, length, slice_get, IfSome, Some, option_map};
ghost use Rattle.am_model.specs.Placement.{clearing_top, cleared_to, is_mode, is_multiple, on_top, placed_in, placed_ordinary, placed_per_task, placed_single, plan_of, reordering, task_of_affinity, topmost, wants_new_task};
ghost use Rattle.am_model.specs.Tasks.{Instance as Held, Task as Kept, top_of};
ghost use Rattle.am_tasks.specs.Finds.{at};
ghost use Rattle.am_tasks.specs.Plans.{change_in, IsIn, Plans};

use crate::find::{is_of, is_rooted, task_of_affinity, task_rooted, task_with, topmost_in};
use crate::task::Task;
use am_types::{Mode, StartCall};

/// What is kept of a task for a new intent to one of its instances.
#[derive(Clone, Copy)]
pub(crate) enum Keeping {
    /// All instances, as they are.
    All,
    /// The instance and the ones below it.
    Below,
    /// All instances, with the one moved to the top.
    Others,
}

/// What happens in an existing task. An instance is named by its place from the root.
#[derive(Clone, Copy)]
pub(crate) enum Change {
    /// All are destroyed, and a fresh root is made.
    FreshRoot,
    /// The instance and all above it are destroyed, and a fresh one is made.
    FreshAt(usize),
    /// A fresh instance is put on top.
    FreshOnTop,
    /// The instance gets the new intent.
    NewIntent(Keeping, usize),
    /// The task comes to the front, and nothing else.
    OnlyFronted,
}

/// What a start does. A task is named by its place from the front.
#[derive(Clone, Copy)]
pub(crate) enum Plan {
    /// A fresh instance in a new task, which may be one for a single instance.
    NewTask(bool),
    /// A change in a task, which comes to the front.
    InTask(usize, Change),
}

/// What the start does. `source` is the place of the source's task.
pub(crate) fn plan_of(start: &StartCall, tasks: &[Task], source: Option<usize>) -> Plan
    requires { IfSome source (λ place. place < length tasks.now) }
    ensures { Plans tasks.now result (plan_of start.now tasks.now (at tasks.now source)) }
{
    match start.mode {
        Mode::SingleInstance => placed_single(start, tasks),
        Mode::SingleInstancePerTask => placed_per_task(start, tasks),
        _ => placed_ordinary(start, tasks, source),
    }
}

/// An existing instance gets the new intent, in whichever task it is; otherwise it gets a new task of its own.
fn placed_single(start: &StartCall, tasks: &[Task]) -> Plan
    ensures { Plans tasks.now result (placed_single start.now tasks.now) }
{
    match task_with(tasks, &start.target) {
        None => Plan::NewTask(true),
        Some(place) => match topmost_in(&tasks[place], &start.target) {
            None => Plan::NewTask(true),
            Some(instance) => Plan::InTask(place, Change::NewIntent(Keeping::All, instance)),
        },
    }
}

/// A root that is an instance of the component gets the new intent, and everything above it is destroyed;
/// otherwise there is a new task.
fn placed_per_task(start: &StartCall, tasks: &[Task]) -> Plan
    ensures { Plans tasks.now result (placed_per_task start.now tasks.now) }
{
    if start.flags.multiple_task {
        return Plan::NewTask(false);
    }
    match task_rooted(tasks, &start.target) {
        None => Plan::NewTask(false),
        Some(place) => Plan::InTask(place, Change::NewIntent(Keeping::Below, 0)),
    }
}

/// In the other modes: in the task of the component's affinity if a new task is wanted, and in
/// the source's task if it isn't.
fn placed_ordinary(start: &StartCall, tasks: &[Task], source: Option<usize>) -> Plan
    requires { IfSome source (λ place. place < length tasks.now) }
    ensures { Plans tasks.now result
        (let from = at tasks.now source in
        placed_ordinary start.now tasks.now (wants_new_task start.now from) from) }
{
    let wanted = wants_new_task(start, tasks, source);
    if is_multiple(start, wanted) {
        return Plan::NewTask(false);
    }
    match task_for(start, tasks, wanted, source) {
        None => Plan::NewTask(false),
        Some(place) => Plan::InTask(place, placed_in(start, wanted, &tasks[place])),
    }
}

/// The place of the task of the component's affinity if a new task is wanted, otherwise of the
/// source's task.
#[tactic(auto, using(crate::proofs::Finding::found_at, crate::proofs::Finding::found_within))]
fn task_for(start: &StartCall, tasks: &[Task], wanted: bool, source: Option<usize>) -> Option<usize>
    requires { IfSome source (λ place. place < length tasks.now) }
    ensures found { at tasks.now result
        ≡ (if wanted then task_of_affinity start.now.affinity tasks.now else at tasks.now source) }
    ensures within { IfSome result (λ place. place < length tasks.now) }
{
    if wanted {
        task_of_affinity(tasks, &start.affinity)
    } else {
        source
    }
}

/// A new task is wanted: the start asks for one, the mode does, or the source is in a task for
/// a single instance.
fn wants_new_task(start: &StartCall, tasks: &[Task], source: Option<usize>) -> bool
    requires { IfSome source (λ place. place < length tasks.now) }
    ensures { result ≡ wants_new_task start.now (at tasks.now source) }
{
    if start.flags.new_task || is_mode(Mode::SingleTask, start.mode) {
        return true;
    }
    match source {
        None => false,
        Some(place) => {
            let task = &tasks[place];
            task.single
        }
    }
}

/// Several tasks are asked for.
fn is_multiple(start: &StartCall, wanted: bool) -> bool
    ensures { result ≡ is_multiple start.now wanted }
{
    wanted
        && start.flags.multiple_task
        && (is_mode(Mode::Standard, start.mode) || is_mode(Mode::SingleTop, start.mode))
}

/// The change in an existing task: the first case that applies.
fn placed_in(start: &StartCall, wanted: bool, task: &Task) -> Change
    ensures plan { change_in task.now result ≡ placed_in start.now wanted task.now }
    ensures within { IsIn task.now result }
{
    if wanted && start.flags.clear_task && start.flags.new_task {
        return Change::FreshRoot;
    }
    if let Some(change) = clearing_top(start, task) {
        return change;
    }
    if wanted && is_rooted(task, &start.target) {
        return Change::OnlyFronted;
    }
    if let Some(change) = reordering(start, wanted, task) {
        return change;
    }
    match on_top(start, task) {
        Some(change) => change,
        None => Change::FreshOnTop,
    }
}

/// With singleTask or CLEAR_TOP, if the task has an instance of the component: everything above it is
/// destroyed.
fn clearing_top(start: &StartCall, task: &Task) -> Option<Change>
    ensures plan { option_map (change_in task.now) result
        ≡ clearing_top start.now task.now (topmost start.now.target task.now) }
    ensures within { IfSome result (IsIn task.now) }
{
    if !(is_mode(Mode::SingleTask, start.mode) || start.flags.clear_top) {
        return None;
    }
    let place = topmost_in(task, &start.target)?;
    Some(cleared_to(start, place))
}

/// A standard activity without SINGLE_TOP is made anew; any other gets the new intent.
fn cleared_to(start: &StartCall, place: usize) -> Change
    ensures plan { (task : Kept) (instance : Held) → slice_get task.instances place ≡ Some instance →
        change_in task result ≡ cleared_to start.now task instance }
    ensures within { (task : Kept) → place < length task.instances → IsIn task result }
{
    if is_mode(Mode::Standard, start.mode) && !start.flags.single_top {
        Change::FreshAt(place)
    } else {
        Change::NewIntent(Keeping::Below, place)
    }
}

/// With REORDER_TO_FRONT and without CLEAR_TOP, in the source's task: the instance moves to the top.
fn reordering(start: &StartCall, wanted: bool, task: &Task) -> Option<Change>
    ensures plan { option_map (change_in task.now) result
        ≡ reordering start.now wanted task.now (topmost start.now.target task.now) }
    ensures within { IfSome result (IsIn task.now) }
{
    if wanted || !start.flags.reorder_to_front || start.flags.clear_top {
        return None;
    }
    let place = topmost_in(task, &start.target)?;
    Some(Change::NewIntent(Keeping::Others, place))
}

/// With singleTop or SINGLE_TOP, if the top is an instance of the component: it gets the new intent.
#[tactic(auto, using(crate::proofs::Finding::last_at))]
fn on_top(start: &StartCall, task: &Task) -> Option<Change>
    ensures plan { option_map (change_in task.now) result ≡ on_top start.now task.now (top_of task.now) }
    ensures within { IfSome result (IsIn task.now) }
{
    let top = task.instances.last()?;
    if is_of(&start.target, top)
        && (is_mode(Mode::SingleTop, start.mode) || start.flags.single_top)
    {
        Some(Change::NewIntent(Keeping::All, task.instances.len() - 1))
    } else {
        None
    }
}

/// The two modes are the same.
fn is_mode(mode: Mode, other: Mode) -> bool
    ensures { result ≡ is_mode mode other }
{
    mode == other
}
