//! The pieces of a phone's pattern, and how a path is walked along them.
ghost use Rattle.std.specs.Prelude.{◌≡◌, ◌∷◌, ◌<◌, ◌&&◌, [], Bool, IfSome, List as Items, MatchOption, length, unwrap_or};
ghost use Rattle.am_model.specs.Paths.{Piece, fits, is_plain_dot, phone_passes_pattern};
ghost use Rattle.am_uri.specs.PathPieces.{IsText, marks_ahead, pieces_ahead, piece_of, unit_mark, units_of};

use crate::units::Units;

/// A backslash, which makes the next unit literal.
const BACKSLASH: u16 = 92;

/// A star, which repeats the unit before it.
const STAR: u16 = 42;

/// A dot, which stands for any unit.
const DOT: u16 = 46;

/// A unit of a pattern, and whether it is plain or follows a backslash.
#[derive(Clone, Copy)]
struct UnitMark {
    unit: u16,
    plain: bool,
}

impl UnitMark {
    /// The mark is a dot that isn't literal.
    fn is_plain_dot(self) -> bool
        ensures { result ≡ is_plain_dot (unit_mark self) }
    {
        self.plain && self.unit == DOT
    }
}

/// What a pattern asks of a path.
#[derive(Clone, Copy)]
enum PatternPiece {
    /// Everything that is left.
    Rest,
    /// Everything up to and with the first such unit.
    UpTo(u16),
    /// As many such units as there are.
    Run(u16),
    /// One unit, which a dot is whatever it is.
    One(u16),
}

/// Whether the pattern matches the path. Both are walked once, from left to right: what a piece took isn't given back.
pub(crate) fn phone_passes_pattern(pattern: &str, path: &str) -> bool
    ensures { result ≡ phone_passes_pattern pattern.now path.now }
{
    let mut pieces = Units::of(pattern);
    let mut rest = Units::of(path);
    while let Some(piece) = next_piece(&mut pieces) {
        if let Some(passes) = decided(piece, &mut rest) {
            return passes;
        }
    }
    rest.is_empty()
}

/// Takes a mark off the front of a pattern.
fn next_mark(pattern: &mut Units<'_>) -> Option<UnitMark>
    requires { IsText pattern.old }
    ensures text { IsText pattern.new }
    ensures mark { MatchOption result ((marks_ahead pattern.old ≡ []) × (marks_ahead pattern.new ≡ []))
        (λ mark. marks_ahead pattern.old ≡ unit_mark mark ∷ marks_ahead pattern.new) }
    ensures shorter { IfSome result (λ mark. length (units_of pattern.new) < length (units_of pattern.old)) }
{
    let unit = pattern.next()?;
    if unit != BACKSLASH {
        return Some(UnitMark { unit, plain: true });
    }
    match pattern.next() {
        None => Some(UnitMark {
            unit: 0,
            plain: false,
        }),
        Some(unit) => Some(UnitMark { unit, plain: false }),
    }
}

/// Takes a piece off the front of a pattern.
fn next_piece(pattern: &mut Units<'_>) -> Option<PatternPiece>
    requires { IsText pattern.old }
    ensures text { IsText pattern.new }
    ensures piece { MatchOption result (pieces_ahead pattern.old ≡ [])
        (λ piece. pieces_ahead pattern.old ≡ piece_of piece ∷ pieces_ahead pattern.new) }
    ensures shorter { IfSome result (λ piece. length (units_of pattern.new) < length (units_of pattern.old)) }
{
    let mark = next_mark(pattern)?;
    if !pattern.starts_with(STAR) {
        return Some(PatternPiece::One(mark.unit));
    }
    pattern.next();
    if !mark.is_plain_dot() {
        return Some(PatternPiece::Run(mark.unit));
    }
    match next_mark(pattern) {
        None => Some(PatternPiece::Rest),
        Some(after) => Some(PatternPiece::UpTo(after.unit)),
    }
}

/// Whether the pattern matches, if this piece decides it; otherwise the pieces behind it do, with what it leaves of the
/// path.
fn decided(piece: PatternPiece, path: &mut Units<'_>) -> Option<bool>
    requires { IsText path.old }
    ensures text { IsText path.new }
    ensures fits { (others : Items Piece) →
        fits (piece_of piece ∷ others) (units_of path.old) ≡ unwrap_or result (fits others (units_of path.new)) }
{
    match piece {
        PatternPiece::Rest => Some(true),
        PatternPiece::UpTo(unit) => failed_unless(path.skip_past(unit)),
        PatternPiece::Run(unit) => failed_unless(path.skip_run(unit)),
        PatternPiece::One(unit) => failed_unless(path.skip_one(unit)),
    }
}

/// A piece that the path doesn't have decides against it.
fn failed_unless(has: bool) -> Option<bool>
    ensures { (rest : Bool) → unwrap_or result rest ≡ (has && rest) }
{
    if has { None } else { Some(false) }
}
