//! What is read from the state.
ghost use Rattle.std.specs.Prelude.{◌≡◌, length, IfOk};
ghost use Rattle.am_types.specs.declared.reply.Reply.TheVariants.{Components, Services, Tasks};
ghost use Rattle.am_model.specs.Gates.{is_privileged};
ghost use Rattle.am_model.specs.Starts.{query_hits};
ghost use Rattle.am_model.specs.Tasks.{views};
ghost use Rattle.am_history.specs.Activities.{components_of};
ghost use Rattle.am_history.specs.Services.{services_of};

use crate::Live;
use am_gates::is_privileged;
use am_live_activities::components_of;
use am_types::{Intent, Kind, NoMemory, Reply, Steps};
use std::sync::ledger::Ledger;

impl Live {
    /// What a query for the kind shows of what the intent finds, in order. A step is a full test of a filter.
    pub fn query<L: Ledger>(
        &self,
        kind: Kind,
        intent: &Intent,
        default_only: bool,
        steps: &mut Steps<L>,
    ) -> Result<Reply, NoMemory>
        ensures { IfOk result
            (λ reply. reply ≡ Components (components_of (query_hits self.now.board kind intent.now default_only))) }
    {
        let found = self
            .board
            .query(self.alloc, kind, intent, default_only, steps)?;
        let names = components_of(self.alloc, found)?;
        Ok(Reply::Components(names))
    }

    /// The tasks that the caller sees, from front to back.
    pub fn tasks(&self, caller: u32) -> Result<Reply, NoMemory>
        ensures { IfOk result (λ reply. reply ≡ Tasks (views self.now.tasks caller)) }
    {
        let shown = self.tasks.views(caller)?;
        Ok(Reply::Tasks(shown))
    }

    /// The running services that the caller sees, in the order of their first start.
    pub fn services(&self, caller: u32) -> Result<Reply, NoMemory>
        ensures { IfOk result (λ reply. reply ≡ Services (services_of self.now.services caller)) }
    {
        let shown = self.services.views(caller)?;
        Ok(Reply::Services(shown))
    }

    /// How many packages are installed. Takes no memory.
    pub fn package_count(&self) -> u32
        ensures { result ≡ length self.now.board.packages }
    {
        self.board.packages().as_slice().len() as u32
    }

    /// Whether the caller is the system or the root. Takes no memory.
    pub fn is_privileged(caller: u32) -> bool
        ensures { result ≡ is_privileged caller }
    {
        is_privileged(caller)
    }
}
