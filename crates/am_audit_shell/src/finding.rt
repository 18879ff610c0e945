//! What an audit finds of its files.
ghost use Rattle.std.specs.Prelude.{◌≡◌};
ghost use Rattle.am_audit_shell.specs.Lines.{limit_line};

use am_audit_frames::Verdict;
use am_types::Text;

/// A file that has limits.
#[derive(Clone, Copy, Debug, PartialEq, Eq)]
pub enum Part {
    History,
    Frames,
    Responses,
}

/// What an audit finds of its files, in the order in which it is tested.
#[derive(Drop)]
pub enum Finding {
    /// A file has too many bytes or lines.
    OverLimit(Part),
    /// A line of the history is refused, and this line has its number.
    HistoryRefused(Text),
    /// The transcript has this verdict.
    Judged(Verdict),
}

/// The line for a file over its limits, with its newline.
pub(crate) fn limit_line(part: Part) -> &'static str
    ensures { result.now ≡ limit_line part }
{
    match part {
        Part::History => "am_audit: over limit: history\n",
        Part::Frames => "am_audit: over limit: frames\n",
        Part::Responses => "am_audit: over limit: responses\n",
    }
}
