//! The values of options.
ghost use Rattle.std.specs.Prelude.{◌≡◌, ◌≤◌, IfOk, IfSome, option_map};
ghost use Rattle.std.specs.Char.{is_ascii_digit};
ghost use Rattle.std.specs.List.{list_all};
ghost use Rattle.am_words.specs.Values.{clock_of, moment_of, number_in, number_of, optional_number_in, optional_path_of, path_of};
ghost use Rattle.am_words.specs.Answers.{ReadsCopy, ReadsInPlace};

use crate::{StepWords, WordsFault};
use am_types::Text;
use std::alloc::Global;

/// Whether the text has only digits.
fn are_digits(text: &str) -> bool
    ensures { result ≡ list_all is_ascii_digit text.now }
{
    text.as_bytes().iter().all(|byte| byte.is_ascii_digit())
}

/// The number written as a text of 1 to 20 digits.
fn number_of(text: &str) -> Option<u64>
    ensures { result ≡ number_of text.now }
{
    if text.len() < 1 || 20 < text.len() || !are_digits(text) {
        return None;
    }
    text.parse::<u64>().ok()
}

/// The number between `least` and `most` in a required value.
#[tactic(auto, unfolding(crate::specs::Values::number_in))]
pub(crate) fn number_in(least: u64, most: u64, value: Option<&str>) -> Result<u64, WordsFault>
    ensures read { ReadsInPlace result (number_in least most (option_map (λ text. text.now) value.entry)) }
    ensures least { IfOk result (λ number. least ≤ number) }
    ensures most { IfOk result (λ number. number ≤ most) }
{
    let Some(text) = value else {
        return Err(WordsFault::Usage);
    };
    let Some(number) = number_of(text) else {
        return Err(WordsFault::Usage);
    };
    if least <= number && number <= most {
        Ok(number)
    } else {
        Err(WordsFault::Usage)
    }
}

/// The number between `least` and `most` in a value, if it is given.
#[tactic(auto, unfolding(crate::specs::Values::optional_number_in))]
pub(crate) fn optional_number_in(
    least: u32,
    most: u32,
    value: Option<&str>,
) -> Result<Option<u32>, WordsFault>
    ensures read { ReadsInPlace result (optional_number_in least most (option_map (λ text. text.now) value.entry)) }
    ensures least { IfOk result (λ number. IfSome number (λ n. least ≤ n)) }
{
    if value.is_none() {
        return Ok(None);
    }
    let number = number_in(least as u64, most as u64, value)?;
    Ok(Some(number as u32))
}

/// The name of a file in a required value.
#[tactic(auto, unfolding(crate::specs::Values::path_of))]
pub(crate) fn path_of(alloc: Global, value: Option<&str>) -> Result<Text, WordsFault>
    ensures { ReadsCopy result (path_of (option_map (λ text. text.now) value.entry)) }
{
    match value {
        None => Err(WordsFault::Usage),
        Some(text) if text.is_empty() => Err(WordsFault::Usage),
        Some(text) => Ok(Text::of(alloc, text)?),
    }
}

/// The name of a file in a value, if it is given.
#[tactic(auto, unfolding(crate::specs::Values::optional_path_of, crate::specs::Values::path_of))]
pub(crate) fn optional_path_of(
    alloc: Global,
    value: Option<&str>,
) -> Result<Option<Text>, WordsFault>
    ensures { ReadsCopy result (optional_path_of (option_map (λ text. text.now) value.entry)) }
{
    if value.is_none() {
        return Ok(None);
    }
    let path = path_of(alloc, value)?;
    Ok(Some(path))
}

/// The moment at which a clock stays, if it is given.
#[tactic(auto, unfolding(crate::specs::Values::moment_of))]
pub(crate) fn moment_of(value: Option<&str>) -> Result<Option<u64>, WordsFault>
    ensures { ReadsInPlace result (moment_of (option_map (λ text. text.now) value.entry)) }
{
    let Some(text) = value else {
        return Ok(None);
    };
    let Some(moment) = number_of(text) else {
        return Err(WordsFault::Usage);
    };
    Ok(Some(moment))
}

/// The clock that begins at one value and moves on by the other, both given or neither.
#[tactic(auto, unfolding(crate::specs::Values::clock_of))]
pub(crate) fn clock_of(
    at: Option<&str>,
    step: Option<&str>,
) -> Result<Option<StepWords>, WordsFault>
    ensures { ReadsInPlace result (clock_of (option_map (λ text. text.now) at.entry)
        (option_map (λ text. text.now) step.entry)) }
{
    match (at, step) {
        (None, None) => Ok(None),
        (Some(at), Some(step)) => clock_between(at, step),
        _ => Err(WordsFault::Usage),
    }
}

/// The clock of these two numbers.
#[tactic(auto, unfolding(crate::specs::Values::clock_of))]
fn clock_between(at: &str, step: &str) -> Result<Option<StepWords>, WordsFault>
    ensures { ReadsInPlace result (clock_of (Some at.now) (Some step.now)) }
{
    let (Some(at), Some(step)) = (number_of(at), number_of(step)) else {
        return Err(WordsFault::Usage);
    };
    Ok(Some(StepWords { at, step }))
}
