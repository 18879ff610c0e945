//! The tasks of a device.
ghost use Rattle.std.specs.Prelude.{◌≡◌, ◌≢◌, ◌<◌, ◌≤◌, ◌↔◌, ◌^◌, [], length, IfErr, IfOk, IfSome, IsNone, IsOk, IsTrue, OnErr, OnOk, None, Some, take, if◌then◌else◌};
ghost use Rattle.std.specs.List.{HoldsAt};
ghost use Rattle.am_types.specs.declared.intent.Component.{Component};
ghost use Rattle.am_types.specs.declared.task.StartCall.{StartCall};
ghost use Rattle.am_model.specs.Tasks.{Task as Kept, Tasks as AllTasks, back, finish, forget_uid, instance_in, no_tasks, owner, tasks_keeping, views};
ghost use Rattle.am_model.specs.Placement as model;
ghost use Rattle.am_model.specs.Placement.{carried_out, place, place_as, source_task, too_full};
ghost use Rattle.am_tasks.specs.Finds.{at};
ghost use Rattle.am_tasks.specs.Plans.{change_in, IsIn, plan_for, Plans};
ghost use Rattle.am_tasks.specs.Roots.{IsRootStart, KeepsRoots};
ghost use Rattle.am_tasks.specs.Numbers.{HasNumbers, NumbersRise};
ghost use Rattle.am_tasks.specs.Sound.{IsFilled};
ghost use Rattle.am_tasks.specs.Leaving.{stays};

use crate::carry::{fresh, fronted, new_task, put_in, renew_in, to_front};
use crate::find::{owner_in, seen, task_of};
use crate::leave::{Leaving, leave};
use crate::plan::{Change, Keeping, Plan, plan_of};
use crate::task::Task;
use crate::views::{may_end, task_views};
use am_types::{
    Intent, Landed, List, NoMemory, PlaceFault, Placed, StartCall, TaskFault, TaskView, drop_parts,
};
use std::alloc::Global;
use std::marker::Model;

/// The most tasks, and the most instances of a task.
const MOST: usize = 64;

/// The last number that a start may find as the next one.
const LAST_NUMBER: u64 = 1_125_899_906_842_624;

/// All tasks, from front to back.
pub struct Tasks {
    alloc: Global,
    tasks: Vec<Task>,
    next_task: u64,
    next_instance: u64,
}

impl Drop for Tasks {
    fn drop(self) {
        drop_parts!(self, Tasks: alloc tasks next_task next_instance);
    }
}

impl Model for Tasks {
    ghost use Rattle.am_model.specs.Tasks.{Tasks as Kept};
    ghost use Rattle.am_tasks.specs.Sound.{IsSound};

    ghost Value = { Kept };

    ghost view = { λ t. record {
      tasks = t.tasks.items;
      next_task = t.next_task;
      next_instance = t.next_instance;
    } };

    ghost invariant = { λ t. IsSound (record {
      tasks = t.tasks.items;
      next_task = t.next_task;
      next_instance = t.next_instance;
    }) };
}

/// The task has no room for the change: only a fresh instance on top needs some.
fn is_full_for(task: &Task, change: Change) -> bool
    ensures { (all : AllTasks) → IsIn task.now change → IsFilled task.now →
        too_full all (change_in task.now change) ≡ (if result then Some PlaceFault.TaskFull else None) }
{
    match change {
        Change::FreshOnTop => task.instances.len() >= MOST,
        Change::FreshRoot => false,
        Change::FreshAt(_) => false,
        Change::NewIntent(_, _) => false,
        Change::OnlyFronted => false,
    }
}

fn intent_of(start: StartCall) -> Intent
    ensures { result ≡ start.intent }
{
    start.intent
}

impl Tasks {
    /// No tasks yet. Keeps the allocator, and takes no memory.
    pub fn new(alloc: Global) -> Tasks
        ensures { result ≡ no_tasks }
    {
        Tasks {
            alloc,
            tasks: Vec::new(alloc),
            next_task: 1,
            next_instance: 1,
        }
    }

    /// Whether there are numbers left for a start. Takes no memory.
    pub fn has_numbers(&self) -> bool
        ensures { IsTrue result ↔ HasNumbers self.now }
    {
        self.next_task <= LAST_NUMBER && self.next_instance <= LAST_NUMBER
    }

    /// Places the start of an activity. ("Tasks and the back stack", Managing tasks.) The refusals
    /// come in the order of `PlaceFault`; after each, and after `NoMemory`, the tasks are as before.
    pub fn place(&mut self, start: StartCall) -> Result<Landed, PlaceFault>
        requires numbers { HasNumbers self.old }
        ensures placed { IfOk result (λ landed. place self.old start ≡ Ok (landed, self.new)) }
        ensures refused { IfErr result
            (λ fault. fault ≢ PlaceFault.NoMemory → place self.old start ≡ Err fault) }
        ensures ran_out { result ≡ Err PlaceFault.NoMemory → IsOk (place self.old start) }
        ensures unchanged { OnErr result (self.new ≡ self.old) }

        // An activity of the mode singleInstancePerTask stays at the root of its task.
        ensures roots { (component : Component) →
            IsRootStart component start → KeepsRoots component self.old self.new }
        ensures next { NumbersRise self.old self.new }
    {
        let plan = self.decide(&start)?;
        match self.carry_out(plan, start) {
            Ok(landed) => Ok(landed),
            Err(NoMemory) => Err(PlaceFault::NoMemory),
        }
    }

    /// What the start does, or why it is refused. Takes no memory.
    fn decide(&self, start: &StartCall) -> Result<Plan, PlaceFault>
        ensures planned { IfOk result (λ plan. Plans self.now.tasks plan (plan_for self.now start.now)) }
        ensures room { OnOk result (too_full self.now (plan_for self.now start.now) ≡ None) }
        ensures placed { OnOk result (place self.now start.now
            ≡ Ok (carried_out self.now start.now (plan_for self.now start.now))) }
        ensures refused { IfErr result (λ fault. place self.now start.now ≡ Err fault) }
        ensures memory { result ≢ Err PlaceFault.NoMemory }
    {
        let source = self.source(start)?;
        let plan = plan_of(start, &self.tasks, source);
        match self.too_full(plan) {
            Some(fault) => Err(fault),
            None => Ok(plan),
        }
    }

    /// The place of the source's task, if the start has a source; or why it may not start.
    fn source(&self, start: &StartCall) -> Result<Option<usize>, PlaceFault>
        ensures found { IfOk result
            (λ source. at self.now.tasks source ≡ source_task self.now.tasks start.now.source) }
        ensures within { IfOk result
            (λ source. IfSome source (λ place. place < length self.now.tasks)) }
        ensures allowed { OnOk result (place self.now start.now
            ≡ place_as self.now start.now (plan_for self.now start.now)) }
        ensures refused { IfErr result (λ fault. place self.now start.now ≡ Err fault) }
        ensures memory { result ≢ Err PlaceFault.NoMemory }
    {
        match start.source {
            None if start.flags.new_task => Ok(None),
            None => Err(PlaceFault::NeedsNewTask),
            Some(number) => match self.owner(number) {
                None => Err(PlaceFault::NoSource),
                Some(owner) if may_end(start.caller, owner) => Ok(task_of(&self.tasks, number)),
                Some(_) => Err(PlaceFault::NotYours),
            },
        }
    }

    /// Why there is no room for the plan.
    fn too_full(&self, plan: Plan) -> Option<PlaceFault>
        ensures full { (meant : model.Plan) →
            Plans self.now.tasks plan meant → result ≡ too_full self.now meant }
        ensures memory { result ≢ Some PlaceFault.NoMemory }
    {
        match plan {
            Plan::NewTask(_) => (self.tasks.len() >= MOST).then_some(PlaceFault::TasksFull),
            Plan::InTask(place, change) => {
                if place < self.tasks.len() && is_full_for(&self.tasks[place], change) {
                    Some(PlaceFault::TaskFull)
                } else {
                    None
                }
            }
        }
    }

    fn carry_out(&mut self, plan: Plan, start: StartCall) -> Result<Landed, NoMemory>
        requires numbers { HasNumbers self.old }
        requires planned { Plans self.old.tasks plan (plan_for self.old start) }
        requires room { too_full self.old (plan_for self.old start) ≡ None }
        ensures done { IfOk result (λ landed.
            (landed, self.new) ≡ carried_out self.old start (plan_for self.old start)) }
        ensures err { OnErr result (self.new ≡ self.old) }
    {
        match plan {
            Plan::NewTask(single) => self.start_task(single, start),
            Plan::InTask(place, change) => self.change_task(place, change, start),
        }
    }

    /// Puts a fresh instance in a new task, in front of all others.
    fn start_task(&mut self, single: bool, start: StartCall) -> Result<Landed, NoMemory>
        requires numbers { HasNumbers self.old }
        requires room { length self.old.tasks < 64 }
        ensures done { IfOk result (λ landed.
            (landed, self.new) ≡ carried_out self.old start (model.NewTask single)) }
        ensures err { OnErr result (self.new ≡ self.old) }
    {
        let (task, instance) = (self.next_task, self.next_instance);
        let made = new_task(self.alloc, task, instance, start, single)?;
        self.tasks.insert(0, made)?;
        self.next_task += 1;
        self.next_instance += 1;
        Ok(Landed {
            how: Placed::Fresh,
            task,
            instance,
        })
    }

    /// Makes the change in the task at the place, which comes to the front.
    fn change_task(
        &mut self,
        place: usize,
        change: Change,
        start: StartCall,
    ) -> Result<Landed, NoMemory>
        requires numbers { HasNumbers self.old }
        requires within { place < length self.old.tasks }
        requires fits { HoldsAt (λ (task : Kept). IsIn task change) self.old.tasks place }
        requires room { HoldsAt
            (λ (task : Kept). too_full self.old (change_in task change) ≡ None) self.old.tasks place }
        ensures done { IfOk result (λ landed. HoldsAt
            (λ (task : Kept). (landed, self.new) ≡ carried_out self.old start (change_in task change))
            self.old.tasks place) }
        ensures err { OnErr result (self.new ≡ self.old) }
    {
        let task = &self.tasks[place];
        let all = task.instances.len();
        match change {
            Change::FreshRoot => self.put_fresh(place, 0, start),
            Change::FreshAt(kept) => self.put_fresh(place, kept, start),
            Change::FreshOnTop => self.put_fresh(place, all, start),
            Change::NewIntent(keeping, instance) => {
                Ok(self.renew(place, keeping, instance, intent_of(start)))
            }
            Change::OnlyFronted => {
                drop(start);
                Ok(self.bring_to_front(place))
            }
        }
    }

    /// Puts a fresh instance on the first `kept` of the task at the place.
    fn put_fresh(&mut self, place: usize, kept: usize, start: StartCall) -> Result<Landed, NoMemory>
        requires numbers { HasNumbers self.old }
        requires within { place < length self.old.tasks }
        requires fits { HoldsAt (λ (task : Kept). kept ≤ length task.instances) self.old.tasks place }
        requires room { kept < 64 }
        ensures done { IfOk result (λ landed. HoldsAt
            (λ (task : Kept). (landed, self.new)
            ≡ carried_out self.old start (model.FreshOn task (take kept task.instances)))
            self.old.tasks place) }
        ensures err { OnErr result (self.new ≡ self.old) }
    {
        let instance = self.next_instance;
        let made = fresh(self.alloc, instance, start)?;
        let task = put_in(&mut self.tasks, place, kept, made)?;
        self.next_instance += 1;
        Ok(Landed {
            how: Placed::Fresh,
            task,
            instance,
        })
    }

    /// Gives an instance of the task at the place a new intent.
    fn renew(&mut self, place: usize, keeping: Keeping, instance: usize, intent: Intent) -> Landed
        requires within { place < length self.old.tasks }
        requires fits { HoldsAt (λ (task : Kept). instance < length task.instances) self.old.tasks place }
        ensures { (start : StartCall) → start.intent ≡ intent → HoldsAt
            (λ (task : Kept). (result, self.new)
            ≡ carried_out self.old start (change_in task (Change.NewIntent keeping instance)))
            self.old.tasks place }
    {
        let (task, instance) = renew_in(&mut self.tasks, place, keeping, instance, intent);
        Landed {
            how: Placed::NewIntent,
            task,
            instance,
        }
    }

    /// Brings the task at the place to the front.
    fn bring_to_front(&mut self, place: usize) -> Landed
        requires within { place < length self.old.tasks }
        ensures { (start : StartCall) → HoldsAt
            (λ (task : Kept). (result, self.new) ≡ carried_out self.old start (model.FrontOf task))
            self.old.tasks place }
    {
        let landed = fronted(&self.tasks[place]);
        to_front(&mut self.tasks, place);
        landed
    }

    /// The uid of the instance's package, if there is such an instance. Takes no memory.
    pub fn owner(&self, instance: u64) -> Option<u32>
        ensures { result ≡ owner self.now instance }
    {
        let place = task_of(&self.tasks, instance)?;
        owner_in(&self.tasks[place], instance)
    }

    /// Ends an activity, as its own uid, the system or the root may. After a refusal the tasks are
    /// as before. Takes no memory.
    pub fn finish(&mut self, instance: u64, uid: u32) -> Result<(), TaskFault>
        ensures ended { OnOk result (finish self.old instance uid ≡ Ok self.new) }
        ensures refused { IfErr result (λ fault. finish self.old instance uid ≡ Err fault) }
        ensures unchanged { OnErr result (self.new ≡ self.old) }
        ensures roots { (component : Component) → KeepsRoots component self.old self.new }
    {
        match self.owner(instance) {
            None => Err(TaskFault::NoSource),
            Some(owner) if may_end(uid, owner) => {
                self.end(Leaving::Numbered(instance));
                Ok(())
            }
            Some(_) => Err(TaskFault::NotYours),
        }
    }

    /// Goes back: ends the top of the front task, and returns its number. ("Tasks and the back
    /// stack", Lifecycle of a task and its back stack.) There is none exactly if there is no
    /// task. Takes no memory.
    pub fn back(&mut self) -> Option<u64>
        ensures ended { (result, self.new) ≡ back self.old }
        ensures none { IsNone result ↔ (self.old.tasks ≡ []) }
        ensures roots { (component : Component) → KeepsRoots component self.old self.new }
    {
        let seen = seen(&self.tasks)?;
        self.end(Leaving::Numbered(seen));
        Some(seen)
    }

    /// The tasks as the uid sees them, from front to back: its own instances, or all if it is
    /// the system or the root. A task without any is left out.
    pub fn views(&self, uid: u32) -> Result<List<TaskView>, NoMemory>
        ensures { IfOk result (λ shown. shown ≡ views self.now uid) }
    {
        task_views(self.alloc, &self.tasks, uid)
    }

    /// Ends all instances of a uid. Takes no memory.
    pub fn forget_uid(&mut self, uid: u32)
        ensures forgotten { self.new ≡ forget_uid self.old uid }
        ensures roots { (component : Component) → KeepsRoots component self.old self.new }
    {
        self.end(Leaving::OwnedBy(uid));
    }

    fn end(&mut self, leaving: Leaving)
        ensures ended { self.new
            ≡ record self.old { tasks = tasks_keeping (stays leaving) self.old.tasks } }
        ensures roots { (component : Component) → KeepsRoots component self.old self.new }
    {
        leave(&mut self.tasks, leaving);
    }
}
