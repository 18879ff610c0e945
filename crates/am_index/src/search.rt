//! What is looked for.
use am_types::{Intent, Kind, Rules};

/// What is looked for: components of a kind that the intent finds by the rules of a device, with filters that must list
/// the default category if that is needed.
#[derive(Clone, Copy)]
pub struct Search<'a> {
    pub rules: Rules,
    pub kind: Kind,
    pub intent: &'a Intent,
    pub need_default: bool,
}
