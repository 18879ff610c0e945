//! Whether a path passes a rule: equality, a start, an end or a pattern.
ghost use Rattle.std.specs.Prelude.{◌≡◌, ◌≤◌, length};
ghost use Rattle.am_model.specs.Paths.{passes_path, passes_pattern, profile_passes_pattern};

use crate::bits::WIDTH;
use crate::matching::matches;
use crate::pattern::{Element, MOST, next_element, read_elements};
use crate::pieces::phone_passes_pattern;
use am_types::{PathRule, Rules, Text};

/// Whether the path passes the rule. In a pattern a backslash makes the next character literal, a
/// dot matches any one character, and a star repeats the mark before it any number of times, also
/// zero; the pattern must match the whole path. A phone walks both once and never goes back.
/// (AOSP, `PatternMatcher.matchGlobPattern`.) Takes no memory.
pub fn passes_path(rules: Rules, rule: &PathRule, path: &Text) -> bool
    ensures { result ≡ passes_path rules rule.now path.now }
{
    let path = path.as_str();
    match rule {
        PathRule::Literal(text) => path == text.as_str(),
        PathRule::Prefix(text) => path.starts_with(text.as_str()),
        PathRule::Suffix(text) => path.ends_with(text.as_str()),
        PathRule::Pattern(glob) => passes_pattern(rules, glob.text().as_str(), path),
    }
}

/// Whether the pattern matches the path.
fn passes_pattern(rules: Rules, pattern: &str, path: &str) -> bool
    requires { length pattern.now ≤ 1024 }
    ensures { result ≡ passes_pattern rules pattern.now path.now }
{
    match rules {
        Rules::Profile => profile_passes_pattern(pattern, path),
        Rules::Android12 => phone_passes_pattern(pattern, path),
    }
}

/// Whether the pattern matches the path. Up to the first repeated element there is only one way to match, so a plain
/// comparison is enough; after a last `.*` nothing is left to compare.
fn profile_passes_pattern(pattern: &str, path: &str) -> bool
    requires { length pattern.now ≤ 1024 }
    ensures { result ≡ profile_passes_pattern pattern.now path.now }
{
    let mut elements = pattern.chars();
    let mut rest = path.chars();
    loop {
        let left = elements.as_str();
        let Some(element) = next_element(&mut elements) else {
            break;
        };
        if element.repeated {
            if element.mark.is_wild() && elements.as_str().is_empty() {
                return true;
            }
            return passes_repeated(left, rest.as_str());
        }
        let Some(c) = rest.next() else {
            return false;
        };
        if !element.mark.allows(c) {
            return false;
        }
    }
    rest.next().is_none()
}

/// The same for a pattern with repeated elements. Most are short, and a small table costs less to fill.
fn passes_repeated(pattern: &str, path: &str) -> bool
    requires { length pattern.now ≤ 1024 }
    ensures { result ≡ profile_passes_pattern pattern.now path.now }
{
    if pattern.len() < WIDTH {
        passes_in::<WIDTH>(pattern, path)
    } else {
        passes_in::<MOST>(pattern, path)
    }
}

/// The same with a table that has room for this many elements.
fn passes_in<const ROOM: usize>(pattern: &str, path: &str) -> bool
    requires fits { length pattern.now ≤ ROOM }
    requires most { ROOM ≤ 1024 }
    ensures { result ≡ profile_passes_pattern pattern.now path.now }
{
    let mut elements = [Element::filler(); ROOM];
    let count = read_elements(pattern, &mut elements);
    matches(&elements[..count], path)
}
