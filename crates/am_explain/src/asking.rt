//! What is asked about an intent.
ghost use Rattle.std.specs.Prelude.{◌≡◌, option_copied};
ghost use Rattle.am_explain.specs.Asking.{question_of};

use am_types::{Intent, Kind, Text};

/// The question: what an intent of the caller reaches.
#[derive(Clone, Copy)]
pub struct Question<'a> {
    /// The uid that starts or broadcasts.
    pub caller: u32,
    /// A start of an activity or of a service, or a normal broadcast.
    pub kind: Kind,
    pub intent: &'a Intent,
    /// What a receiver of the broadcast must hold.
    pub permission: Option<&'a Text>,
}

impl<'a> Question<'a> {
    /// The question for a caller; `permission` is what the receivers of a broadcast must hold. Takes no
    /// memory.
    pub fn new(
        caller: u32,
        kind: Kind,
        intent: &'a Intent,
        permission: Option<&'a Text>,
    ) -> Question<'a>
        ensures { question_of result
            ≡ record { caller = caller; kind = kind; intent = intent.now; required = option_copied permission.entry } }
    {
        Question {
            caller,
            kind,
            intent,
            permission,
        }
    }

    /// The same question for another caller. Takes no memory.
    pub fn of_caller(&self, caller: u32) -> Question<'a>
        ensures { question_of result ≡ record (question_of self.now) { caller = caller } }
    {
        Question::new(caller, self.kind, self.intent, self.permission)
    }
}
