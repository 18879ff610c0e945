//! The question.
ghost use Rattle.std.specs.Prelude.{◌≡◌, IfOk, IsTrue};
ghost use Rattle.am_types.specs.Reading.{Gives};
ghost use Rattle.am_visible.specs.Answers.{is_query, question_of};

use am_types::Request;
use am_wire::read_request;
use am_wire_fields::{Unread, too_long};
use am_wire_routes::Endpoint;
use std::alloc::Global;

/// The greatest length of a question, in bytes.
pub(crate) const MAX_QUESTION: usize = 65_536;

/// The query that a text asks, read as the body of a query.
#[tactic(auto, unfolding(crate::specs::Answers::question_of))]
pub(crate) fn question_of(alloc: Global, text: &[u8]) -> Result<Request, Unread>
    ensures reads { Gives result (question_of text.now) }
    ensures query { IfOk result (λ request. IsTrue (is_query request)) }
{
    if text.len() > MAX_QUESTION {
        return Err(too_long(alloc, "body"));
    }
    read_request(alloc, Endpoint::Query, text)
}
