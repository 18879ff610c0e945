//! Starting and stopping services.
ghost use Rattle.std.specs.Prelude.{◌≡◌, IfOk, OnErr};
ghost use Rattle.am_history.specs.Numbers.{HasNumbers};
ghost use Rattle.am_history.specs.Services.{start_service, stop_service};
ghost use Rattle.am_history.specs.Steps.{at_moment};

use crate::Live;
use am_live_callers::Caller;
use am_types::{Component, Intent, NoMemory, Reply, Steps};
use std::sync::ledger::Ledger;

impl Live {
    /// Starts a service: the component that the intent names, or the first one that it finds in the package
    /// that it names. An intent that names neither is refused. The package of a started service is no
    /// longer stopped. The call's moment, in milliseconds, becomes the last one, and the deadlines that are
    /// due are handled. A step is a full test of a filter, or a reading of a deadline. After `NoMemory` the
    /// state is as before.
    pub fn start_service<L: Ledger>(
        &mut self,
        by: Caller,
        intent: &Intent,
        steps: &mut Steps<L>,
    ) -> Result<Reply, NoMemory>
        requires numbers { HasNumbers self.old }
        ensures done { IfOk result (λ reply.
            start_service (at_moment self.old by.moment) by.uid intent.now ≡ (reply, self.new)) }
        ensures same { OnErr result (self.new ≡ self.old) }
    {
        let reply = am_live_services::start_service(
            self.alloc,
            &mut self.board,
            &mut self.services,
            by.uid,
            intent,
            steps,
        )?;
        self.settle(by.moment, steps);
        Ok(reply)
    }

    /// Stops a running service. The call's moment, in milliseconds, becomes the last one, and the deadlines
    /// that are due are handled. A step is a reading of a deadline. After `NoMemory` the state is as before.
    pub fn stop_service<L: Ledger>(
        &mut self,
        by: Caller,
        component: &Component,
        steps: &mut Steps<L>,
    ) -> Result<Reply, NoMemory>
        ensures done { IfOk result (λ reply.
            stop_service (at_moment self.old by.moment) by.uid component.now ≡ (reply, self.new)) }
        ensures same { OnErr result (self.new ≡ self.old) }
    {
        let reply = am_live_services::stop_service(
            &self.board,
            &mut self.services,
            by.uid,
            component,
        )?;
        self.settle(by.moment, steps);
        Ok(reply)
    }
}
