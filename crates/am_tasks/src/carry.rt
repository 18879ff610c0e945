//! The changes that a start makes.
ghost use Rattle.std.specs.Prelude.{◌≡◌, ◌<◌, ◌≤◌, ◌++◌, ◌∷◌, ℕ, [], IfOk, OnOk, OnErr, length, remove, take, count_by, vec_len};
ghost use Rattle.std.specs.List.{HoldsAt, slice_get};
ghost use Rattle.am_model.specs.Tasks.{Instance as Held, Task as Kept, is_number, top_of};
ghost use Rattle.am_model.specs.Placement.{fresh, new_task, number_of, with_intent};
ghost use Rattle.am_tasks.specs.Plans.{kept_by, number_at};
ghost use Rattle.am_tasks.specs.Sound.{count_in};

use crate::plan::Keeping;
use crate::task::{Instance, Task, mark_of};
use am_types::{Component, Intent, Landed, NoMemory, Placed, StartCall};
use std::alloc::Global;
use std::mem;

/// A new task for the start.
pub(crate) fn new_task(
    alloc: Global,
    number: u64,
    instance: u64,
    start: StartCall,
    single: bool,
) -> Result<Task, NoMemory>
    ensures { IfOk result (λ task. task ≡ new_task number instance start single) }
{
    let mut instances = Vec::new(alloc);
    let root = made(alloc, instance, start.target, start.owner, start.intent)?;
    instances.push(root)?;
    Ok(Task {
        number,
        affinity: start.affinity,
        single,
        instances,
    })
}

/// The fresh instance of a start.
pub(crate) fn fresh(alloc: Global, number: u64, start: StartCall) -> Result<Instance, NoMemory>
    ensures { IfOk result (λ instance. instance ≡ fresh number start) }
{
    made(alloc, number, start.target, start.owner, start.intent)
}

fn made(
    alloc: Global,
    number: u64,
    component: Component,
    owner: u32,
    intent: Intent,
) -> Result<Instance, NoMemory>
    ensures { IfOk result (λ instance. instance
        ≡ record { number = number; component = component; owner = owner; intent = intent }) }
{
    let intent = Box::new(alloc, intent)?;
    let mark = mark_of(&component);
    Ok(Instance {
        number,
        component,
        mark,
        owner,
        intent,
    })
}

/// The fresh instance on top of the first `kept` of the task. After `NoMemory` the task is as before.
fn put_fresh(task: &mut Task, kept: usize, fresh: Instance) -> Result<(), NoMemory>
    requires { kept ≤ length task.old.instances }
    ensures ok { OnOk result
        (task.new ≡ record task.old { instances = take kept task.old.instances ++ fresh ∷ [] }) }
    ensures err { OnErr result (task.new ≡ task.old) }
{
    put_on(&mut task.instances, kept, fresh)
}

fn put_on(instances: &mut Vec<Instance>, kept: usize, fresh: Instance) -> Result<(), NoMemory>
    requires { kept ≤ vec_len instances.old }
    ensures ok { OnOk result (instances.new.items ≡ take kept instances.old.items ++ fresh ∷ []) }
    ensures err { OnErr result (instances.new.items ≡ instances.old.items) }
{
    // If something is destroyed, its place is already free.
    if kept < instances.len() {
        instances[kept] = fresh;
        instances.truncate(kept + 1);
    } else {
        instances.push(fresh)?;
    }
    Ok(())
}

/// Gives the instance at the place the new intent, and keeps the others as `keeping` says. Returns the
/// number of the instance. Takes no memory.
fn renew(task: &mut Task, keeping: Keeping, place: usize, intent: Intent) -> u64
    requires within { place < length task.old.instances }
    requires once { (number : ℕ) → count_in number task.old ≤ 1 }
    ensures number { result ≡ number_at task.old.instances place }
    ensures renewed { task.new ≡ record task.old
        { instances = with_intent result intent (kept_by keeping place task.old.instances) } }
{
    let top = arrange(&mut task.instances, keeping, place);
    give_at(&mut task.instances, top, intent)
}

/// Keeps what `keeping` says, and returns the place at which the instance is then.
fn arrange(instances: &mut Vec<Instance>, keeping: Keeping, place: usize) -> usize
    requires within { place < vec_len instances.old }
    requires once { (number : ℕ) → count_by (is_number number) instances.old.items ≤ 1 }
    ensures kept { instances.new.items ≡ kept_by keeping place instances.old.items }
    ensures same { slice_get instances.new.items result ≡ slice_get instances.old.items place }
    ensures within { result < vec_len instances.new }
{
    match keeping {
        Keeping::All => place,
        Keeping::Below => {
            instances.truncate(place + 1);
            place
        }
        Keeping::Others => {
            move_to_top(instances, place);
            instances.len() - 1
        }
    }
}

fn move_to_top(instances: &mut Vec<Instance>, place: usize)
    requires { place < vec_len instances.old }
    ensures { HoldsAt (λ (i : Held). instances.new.items ≡ remove instances.old.items place ++ i ∷ [])
        instances.old.items place }
{
    let instance = instances.remove(place);
    // The removal left room.
    match instances.push(instance) {
        Ok(()) => {}
        Err(_) => unreachable!(),
    }
}

/// Gives the instance at the place the intent, and returns its number.
fn give_at(instances: &mut Vec<Instance>, place: usize, intent: Intent) -> u64
    requires within { place < vec_len instances.old }
    requires once { (number : ℕ) → count_by (is_number number) instances.old.items ≤ 1 }
    ensures number { result ≡ number_at instances.old.items place }
    ensures renewed { instances.new.items ≡ with_intent result intent instances.old.items }
{
    give(&mut instances[place], intent)
}

fn give(instance: &mut Instance, intent: Intent) -> u64
    ensures number { result ≡ instance.old.number }
    ensures given { instance.new ≡ record instance.old { intent = intent } }
{
    drop(mem::replace(&mut *instance.intent, intent));
    instance.number
}

/// Brings the task at the place to the front.
pub(crate) fn to_front(tasks: &mut Vec<Task>, place: usize)
    requires { place < vec_len tasks.old }
    ensures { HoldsAt (λ (task : Kept). tasks.new.items ≡ task ∷ remove tasks.old.items place)
        tasks.old.items place }
{
    let task = tasks.remove(place);
    // The removal left room.
    match tasks.insert(0, task) {
        Ok(()) => {}
        Err(_) => unreachable!(),
    }
}

/// Puts a fresh instance on the first `kept` of the task at the place, which comes to the front. Returns
/// the task's number. After `NoMemory` the tasks are as before.
pub(crate) fn put_in(
    tasks: &mut Vec<Task>,
    place: usize,
    kept: usize,
    fresh: Instance,
) -> Result<u64, NoMemory>
    requires within { place < vec_len tasks.old }
    requires fits { HoldsAt (λ (task : Kept). kept ≤ length task.instances) tasks.old.items place }
    ensures ok { IfOk result (λ number. HoldsAt
        (λ (task : Kept). (number ≡ task.number) × (tasks.new.items
        ≡ record task { instances = take kept task.instances ++ fresh ∷ [] }
        ∷ remove tasks.old.items place))
        tasks.old.items place) }
    ensures err { OnErr result (tasks.new.items ≡ tasks.old.items) }
{
    let task = &mut tasks[place];
    put_fresh(task, kept, fresh)?;
    let number = task.number;
    to_front(tasks, place);
    Ok(number)
}

/// Gives an instance of the task at the place, which comes to the front, a new intent. Returns the
/// numbers of the task and of the instance. Takes no memory.
pub(crate) fn renew_in(
    tasks: &mut Vec<Task>,
    place: usize,
    keeping: Keeping,
    instance: usize,
    intent: Intent,
) -> (u64, u64)
    requires within { place < vec_len tasks.old }
    requires fits { HoldsAt (λ (task : Kept). instance < length task.instances) tasks.old.items place }
    requires once { HoldsAt (λ (task : Kept). (number : ℕ) → count_in number task ≤ 1)
        tasks.old.items place }
    ensures { HoldsAt
        (λ (task : Kept). (result.0 ≡ task.number)
        × (result.1 ≡ number_at task.instances instance)
        × (tasks.new.items ≡ record task {
          instances = with_intent result.1 intent (kept_by keeping instance task.instances);
        }
        ∷ remove tasks.old.items place))
        tasks.old.items place }
{
    let task = &mut tasks[place];
    let renewed = renew(task, keeping, instance, intent);
    let number = task.number;
    to_front(tasks, place);
    (number, renewed)
}

/// Where a start ends up that only brings the task to the front.
pub(crate) fn fronted(task: &Task) -> Landed
    ensures { result ≡ record {
      how = Placed.Fronted;
      task = task.now.number;
      instance = number_of (top_of task.now);
    } }
{
    Landed {
        how: Placed::Fronted,
        task: task.number,
        instance: top_number(task),
    }
}

#[tactic(auto, using(crate::proofs::Finding::last_at))]
fn top_number(task: &Task) -> u64
    ensures { result ≡ number_of (top_of task.now) }
{
    match task.instances.last() {
        None => 0,
        Some(top) => top.number,
    }
}
