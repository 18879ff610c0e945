//! Filters and their parts.
ghost use Rattle.std.specs.Prelude.{◌≡◌, ◌++◌, OnOk, IfOk, IsOk, IsTrue};
ghost use Rattle.am_packed.specs.Filters.{authority_form, path_form, rule_number, rule_of, rule_text, filter_form};

use crate::form::{Pack, Parts, pack_parts, parts, unpack_parts};
use am_types::{Authority, Filter, Glob, NoMemory, PathRule, Text};
use std::alloc::Global;

#[tactic(auto, unfolding(crate::specs::Filters::authority_form))]
impl Pack for Authority {
    ghost form = { authority_form };

    fn pack(&self, out: &mut Vec<u8>) -> Result<(), NoMemory> {
        pack_parts!(self, out: host port)
    }

    fn unpack(alloc: Global, bytes: &[u8]) -> Result<(Authority, &[u8]), NoMemory> {
        unpack_parts!(alloc, bytes, Authority: host port)
    }
}

#[tactic(auto, unfolding(crate::specs::Filters::path_form))]
impl Pack for PathRule {
    ghost form = { path_form };

    fn pack(&self, out: &mut Vec<u8>) -> Result<(), NoMemory> {
        let (number, words) = numbered(self);
        (&number, words).pack_parts(out)
    }

    fn unpack(alloc: Global, bytes: &[u8]) -> Result<(PathRule, &[u8]), NoMemory> {
        let ((number, words), rest) = Pack::unpack(alloc, bytes)?;
        Ok((rule_of(number, words)?, rest))
    }
}

// The number and the text of a rule on paths.
fn numbered(rule: &PathRule) -> (u64, &Text)
    ensures { (result.0 ≡ rule_number rule.now) × (result.1.now ≡ rule_text rule.now) }
{
    match rule {
        PathRule::Literal(words) => (0, words),
        PathRule::Prefix(words) => (1, words),
        PathRule::Suffix(words) => (2, words),
        PathRule::Pattern(pattern) => (3, pattern.text()),
    }
}

// The rule on paths with that number and text.
fn rule_of(number: u64, words: Text) -> Result<PathRule, NoMemory>
    ensures { IfOk result (λ rule. rule ≡ rule_of number words) }
{
    match number {
        0 => Ok(PathRule::Literal(words)),
        1 => Ok(PathRule::Prefix(words)),
        2 => Ok(PathRule::Suffix(words)),
        _ => match Glob::new(words) {
            Ok(pattern) => Ok(PathRule::Pattern(pattern)),
            Err(_) => Err(NoMemory),
        },
    }
}

#[tactic(auto, unfolding(crate::specs::Filters::filter_form))]
impl Pack for Filter {
    ghost form = { filter_form };

    fn pack(&self, out: &mut Vec<u8>) -> Result<(), NoMemory> {
        pack_parts!(self, out: actions categories schemes authorities paths types priority)
    }

    fn unpack(alloc: Global, bytes: &[u8]) -> Result<(Filter, &[u8]), NoMemory> {
        unpack_parts!(
            alloc, bytes, Filter:
            actions categories schemes authorities paths types priority
        )
    }
}
