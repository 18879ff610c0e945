//! Whom an intent reaches, and why not the others.
ghost use Rattle.std.specs.Prelude.{◌≡◌, option_copied, IfOk};
ghost use Rattle.am_history.specs.Explaining.{explain, told};
ghost use Rattle.am_explain.specs.Asking.{question_of};

use crate::Live;
use am_explain::{Question, accounts};
use am_gates::is_privileged;
use am_installed::{caller_named, uid_named};
use am_types::{NoMemory, Reply, Rule, Steps, Text};
use std::sync::ledger::Ledger;

impl Live {
    /// Who is reached by an intent and why the others aren't. With `name`, the question is asked as the
    /// package with the name, or as the system (`android`), which only the system and the root may do; with
    /// `shown`, only what that package has is shown. Refused by `AdminOnly`, then by `NoPackage`. A step is
    /// a full test of a filter.
    #[tactic(auto, unfolding(am_history::specs::Explaining::explain))]
    pub fn explain<L: Ledger>(
        &self,
        question: &Question,
        name: Option<&Text>,
        shown: Option<&Text>,
        steps: &mut Steps<L>,
    ) -> Result<Reply, NoMemory>
        ensures { IfOk result (λ reply. reply ≡ explain self.now.board (question_of question.now)
            (option_copied name.entry) (option_copied shown.entry)) }
    {
        let Some(name) = name else {
            return self.told(question, shown, steps);
        };
        if !is_privileged(question.caller) {
            return Ok(Reply::Refused(Rule::AdminOnly));
        }
        let Some(uid) = caller_named(self.board.packages(), name) else {
            return Ok(Reply::Refused(Rule::NoPackage));
        };
        self.told(&question.of_caller(uid), shown, steps)
    }

    /// All accounts, or only those of what the package with the name has. Refused by `NoPackage`.
    fn told<L: Ledger>(
        &self,
        question: &Question,
        shown: Option<&Text>,
        steps: &mut Steps<L>,
    ) -> Result<Reply, NoMemory>
        ensures { IfOk result
            (λ reply. reply ≡ told self.now.board (question_of question.now) (option_copied shown.entry)) }
    {
        let Some(name) = shown else {
            let told = accounts(self.alloc, &self.board, question, None, steps)?;
            return Ok(Reply::Accounts(told));
        };
        let Some(uid) = uid_named(self.board.packages(), name) else {
            return Ok(Reply::Refused(Rule::NoPackage));
        };
        let told = accounts(self.alloc, &self.board, question, Some(uid), steps)?;
        Ok(Reply::Accounts(told))
    }
}
