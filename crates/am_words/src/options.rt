//! The options of a command, which `clap` reads.
ghost use Rattle.std.specs.Prelude.{◌≡◌, Err, IfOk, IsTrue, false, map};
ghost use Rattle.std.specs.List.{list_all};
ghost use Rattle.clap.specs.Words.{app_of, rule_of};
ghost use Rattle.am_words.specs.Options.{options_of};
ghost use Rattle.am_words.specs.Parsed.{app_named, is_fit, named_rule};
ghost use Rattle.am_words.specs.Answers.{Matches, fault_of};

use crate::WordsFault;
use am_types::Text;
use clap::error::ErrorKind;
use clap::{Arg, ArgAction, ArgMatches, Command};
use std::alloc::{AllocError, Global};

/// Whether a word is an option or may be a value.
fn is_fit(word: &str) -> bool
    ensures { result ≡ is_fit word.now }
{
    match word.as_bytes() {
        [b'-', b'-', _, ..] => true,
        [b'-', ..] => false,
        _ => true,
    }
}

/// Whether each word is an option or may be a value.
fn are_fit(words: &[&str]) -> bool
    ensures { result ≡ list_all (λ word. is_fit word.now) words.now }
{
    words.iter().all(|word| is_fit(word))
}

/// The words as borrowed texts.
pub(crate) fn borrowed<'a>(alloc: Global, words: &'a [Text]) -> Result<Vec<&'a str>, AllocError>
    ensures { IfOk result (λ texts. map (λ text. text.now) texts.items ≡ words.entry.now) }
{
    let mut texts = Vec::new(alloc);
    for word in words {
        texts.push(word.as_str())?;
    }
    Ok(texts)
}

/// An option with this name and one value.
fn option<'a>(alloc: Global, name: &'a str) -> Arg<'a>
    ensures rule { rule_of result ≡ named_rule name.entry.now }
    ensures local { result.global ≡ false }
{
    Arg::new(alloc, name).long(name).action(ArgAction::Set)
}

/// A command made of options with these names and nothing else.
fn command<'a>(alloc: Global, names: &'a [&'a str]) -> Result<Command<'a>, AllocError>
    ensures { IfOk result (λ command. app_of command ≡ app_named (map (λ name. name.now) names.entry.now)) }
{
    let mut command = Command::new(alloc, "am")
        .no_binary_name(true)
        .disable_help_flag(true);
    for name in names {
        command = command.arg(option(alloc, name))?;
    }
    Ok(command)
}

/// The fault of words for which `clap` gave an error of this kind.
fn fault_of(kind: ErrorKind) -> WordsFault
    ensures { result ≡ fault_of kind }
{
    match kind {
        ErrorKind::OutOfMemory => WordsFault::NoMemory,
        _ => WordsFault::Usage,
    }
}

/// The values that the words give to the options with these names.
pub(crate) fn read_options<'a>(
    alloc: Global,
    names: &'a [&'a str],
    words: &'a [&'a str],
) -> Result<ArgMatches<'a>, WordsFault>
    ensures read { Matches result (options_of (map (λ name. name.now) names.entry.now)
        (map (λ word. word.now) words.entry.now)) }
    ensures memory { result ≡ Err WordsFault.NoMemory → IsTrue (list_all (λ word. is_fit word.now) words.entry.now) }
{
    if !are_fit(words) {
        return Err(WordsFault::Usage);
    }
    let command = command(alloc, names)?;
    match command.try_get_matches_from(words) {
        Ok(matches) => Ok(matches),
        Err(error) => Err(fault_of(error.kind())),
    }
}
