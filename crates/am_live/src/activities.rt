//! Starting and ending activities.
ghost use Rattle.std.specs.Prelude.{◌≡◌, IfOk, OnErr};
ghost use Rattle.am_history.specs.Activities.{back, finish_activity, start};
ghost use Rattle.am_history.specs.Answers.{for_admin};
ghost use Rattle.am_history.specs.Numbers.{HasNumbers};
ghost use Rattle.am_history.specs.Steps.{at_moment};

use crate::Live;
use am_live_activities::Asked;
use am_live_callers::Caller;
use am_types::{Intent, NoMemory, Reply, Steps};
use std::sync::ledger::Ledger;

impl Live {
    /// Starts an activity: the component that the intent names, or the one that it finds. If it finds
    /// several with the greatest priority, starts none of them, and the reply names them. `source` is the
    /// instance that starts it. The package of an activity that was placed is no longer stopped. The call's
    /// moment, in milliseconds, becomes the last one, and the deadlines that are due are handled. A step is
    /// a full test of a filter, or a reading of a deadline. After `NoMemory` the state is as before.
    pub fn start<L: Ledger>(
        &mut self,
        by: Caller,
        intent: &Intent,
        source: Option<u64>,
        steps: &mut Steps<L>,
    ) -> Result<Reply, NoMemory>
        requires numbers { HasNumbers self.old }
        ensures done { IfOk result (λ reply.
            start (at_moment self.old by.moment) by.uid intent.now source ≡ (reply, self.new)) }
        ensures same { OnErr result (self.new ≡ self.old) }
    {
        let asked = Asked {
            caller: by.uid,
            intent,
            source,
        };
        let reply = am_live_activities::start(
            self.alloc,
            &mut self.board,
            &mut self.tasks,
            &asked,
            steps,
        )?;
        self.settle(by.moment, steps);
        Ok(reply)
    }

    /// Ends an activity instance, which only its own uid, the system and the root may do. The call's moment,
    /// in milliseconds, becomes the last one, and the deadlines that are due are handled. A step is a
    /// reading of a deadline. Takes no memory.
    pub fn finish_activity<L: Ledger>(
        &mut self,
        by: Caller,
        instance: u64,
        steps: &mut Steps<L>,
    ) -> Reply
        ensures { finish_activity (at_moment self.old by.moment) by.uid instance ≡ (result, self.new) }
    {
        let reply = am_live_activities::finish_activity(&mut self.tasks, by.uid, instance);
        self.settle(by.moment, steps);
        reply
    }

    /// Goes back, which only the system and the root may do: ends the instance that the user sees, if there
    /// is one. The call's moment, in milliseconds, becomes the last one, and the deadlines that are due are
    /// handled. A step is a reading of a deadline. Takes no memory.
    pub fn back<L: Ledger>(&mut self, by: Caller, steps: &mut Steps<L>) -> Reply
        ensures { for_admin (at_moment self.old by.moment) by.uid (back (at_moment self.old by.moment))
            ≡ (result, self.new) }
    {
        let reply = am_live_activities::back(&mut self.tasks, by.uid);
        self.settle(by.moment, steps);
        reply
    }
}
