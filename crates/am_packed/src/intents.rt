//! Intents and their parts, and the outcomes of broadcasts, which carry extras too.
ghost use Rattle.std.specs.Prelude.{◌≡◌, ◌++◌, OnOk, IfOk, IsOk, IsTrue};
ghost use Rattle.am_packed.specs.Outcomes.{outcome_form, ordered_form};
ghost use Rattle.am_packed.specs.Intents.{kind_form, component_form, uri_parts_form, uri_form, mime_form, extra_form, named_form, flags_form, intent_form, pending_flags_form};

use crate::form::{Pack, Parts, pack_parts, parts, unpack_parts};
use am_types::{
    Component, Extra, Flags, Intent, Kind, Mime, Named, NoMemory, Ordered, Outcome, PendingFlags,
    Text, Uri, UriParts,
};
use std::alloc::Global;

#[tactic(auto, unfolding(crate::specs::Intents::kind_form))]
impl Pack for Kind {
    ghost form = { kind_form };

    fn pack(&self, out: &mut Vec<u8>) -> Result<(), NoMemory> {
        out.push(match self {
            Kind::Activity => 0,
            Kind::Service => 1,
            Kind::Receiver => 2,
        })?;
        Ok(())
    }

    fn unpack(alloc: Global, bytes: &[u8]) -> Result<(Kind, &[u8]), NoMemory> {
        let _ = alloc;
        match bytes {
            [] => Ok((Kind::Activity, bytes)),
            [0, rest @ ..] => Ok((Kind::Activity, rest)),
            [1, rest @ ..] => Ok((Kind::Service, rest)),
            [_, rest @ ..] => Ok((Kind::Receiver, rest)),
        }
    }
}

#[tactic(auto, unfolding(crate::specs::Intents::component_form))]
impl Pack for Component {
    ghost form = { component_form };

    fn pack(&self, out: &mut Vec<u8>) -> Result<(), NoMemory> {
        pack_parts!(self, out: package class)
    }

    fn unpack(alloc: Global, bytes: &[u8]) -> Result<(Component, &[u8]), NoMemory> {
        unpack_parts!(alloc, bytes, Component: package class)
    }
}

#[tactic(auto, unfolding(crate::specs::Intents::uri_parts_form))]
impl Pack for UriParts {
    ghost form = { uri_parts_form };

    fn pack(&self, out: &mut Vec<u8>) -> Result<(), NoMemory> {
        pack_parts!(self, out: host port path)
    }

    fn unpack(alloc: Global, bytes: &[u8]) -> Result<(UriParts, &[u8]), NoMemory> {
        unpack_parts!(alloc, bytes, UriParts: host port path)
    }
}

#[tactic(auto, unfolding(crate::specs::Intents::uri_form))]
impl Pack for Uri {
    ghost form = { uri_form };

    fn pack(&self, out: &mut Vec<u8>) -> Result<(), NoMemory> {
        pack_parts!(self, out: text scheme profile phone)
    }

    fn unpack(alloc: Global, bytes: &[u8]) -> Result<(Uri, &[u8]), NoMemory> {
        unpack_parts!(alloc, bytes, Uri: text scheme profile phone)
    }
}

#[tactic(auto, unfolding(crate::specs::Intents::mime_form))]
impl Pack for Mime {
    ghost form = { mime_form };

    fn pack(&self, out: &mut Vec<u8>) -> Result<(), NoMemory> {
        pack_parts!(self, out: main sub)
    }

    fn unpack(alloc: Global, bytes: &[u8]) -> Result<(Mime, &[u8]), NoMemory> {
        unpack_parts!(alloc, bytes, Mime: main sub)
    }
}

#[tactic(auto, unfolding(crate::specs::Intents::extra_form))]
impl Pack for Extra {
    ghost form = { extra_form };

    fn pack(&self, out: &mut Vec<u8>) -> Result<(), NoMemory> {
        match self {
            Extra::Word(words) => {
                out.push(0)?;
                words.pack(out)
            }
            Extra::Whole(value) => {
                out.push(1)?;
                value.pack(out)
            }
            Extra::Truth(so) => {
                out.push(2)?;
                so.pack(out)
            }
        }
    }

    fn unpack(alloc: Global, bytes: &[u8]) -> Result<(Extra, &[u8]), NoMemory> {
        match bytes {
            [] => Ok((Extra::Truth(false), bytes)),
            [0, others @ ..] => {
                let (words, rest) = Text::unpack(alloc, others)?;
                Ok((Extra::Word(words), rest))
            }
            [1, others @ ..] => {
                let (value, rest) = i64::unpack(alloc, others)?;
                Ok((Extra::Whole(value), rest))
            }
            [_, others @ ..] => {
                let (so, rest) = bool::unpack(alloc, others)?;
                Ok((Extra::Truth(so), rest))
            }
        }
    }
}

#[tactic(auto, unfolding(crate::specs::Intents::named_form))]
impl Pack for Named {
    ghost form = { named_form };

    fn pack(&self, out: &mut Vec<u8>) -> Result<(), NoMemory> {
        pack_parts!(self, out: key value)
    }

    fn unpack(alloc: Global, bytes: &[u8]) -> Result<(Named, &[u8]), NoMemory> {
        unpack_parts!(alloc, bytes, Named: key value)
    }
}

#[tactic(auto, unfolding(crate::specs::Intents::flags_form))]
impl Pack for Flags {
    ghost form = { flags_form };

    fn pack(&self, out: &mut Vec<u8>) -> Result<(), NoMemory> {
        pack_parts!(
            self, out: new_task multiple_task clear_task clear_top single_top reorder_to_front
            registered_only foreground no_abort include_stopped
        )
    }

    fn unpack(alloc: Global, bytes: &[u8]) -> Result<(Flags, &[u8]), NoMemory> {
        unpack_parts!(
            alloc, bytes, Flags: new_task multiple_task clear_task clear_top single_top
            reorder_to_front registered_only foreground no_abort include_stopped
        )
    }
}

#[tactic(auto, unfolding(crate::specs::Intents::intent_form))]
impl Pack for Intent {
    ghost form = { intent_form };

    fn pack(&self, out: &mut Vec<u8>) -> Result<(), NoMemory> {
        pack_parts!(self, out: action uri mime identifier categories package component flags extras)
    }

    fn unpack(alloc: Global, bytes: &[u8]) -> Result<(Intent, &[u8]), NoMemory> {
        unpack_parts!(
            alloc, bytes, Intent: action uri mime identifier categories package component flags
            extras
        )
    }
}

#[tactic(auto, unfolding(crate::specs::Intents::pending_flags_form))]
impl Pack for PendingFlags {
    ghost form = { pending_flags_form };

    fn pack(&self, out: &mut Vec<u8>) -> Result<(), NoMemory> {
        pack_parts!(self, out: one_shot no_create cancel_current update_current immutable mutable)
    }

    fn unpack(alloc: Global, bytes: &[u8]) -> Result<(PendingFlags, &[u8]), NoMemory> {
        unpack_parts!(
            alloc, bytes, PendingFlags:
            one_shot no_create cancel_current update_current immutable mutable
        )
    }
}

#[tactic(auto, unfolding(crate::specs::Outcomes::outcome_form))]
impl Pack for Outcome {
    ghost form = { outcome_form };

    fn pack(&self, out: &mut Vec<u8>) -> Result<(), NoMemory> {
        pack_parts!(self, out: code text extras)
    }

    fn unpack(alloc: Global, bytes: &[u8]) -> Result<(Outcome, &[u8]), NoMemory> {
        unpack_parts!(alloc, bytes, Outcome: code text extras)
    }
}

#[tactic(auto, unfolding(crate::specs::Outcomes::ordered_form))]
impl Pack for Ordered {
    ghost form = { ordered_form };

    fn pack(&self, out: &mut Vec<u8>) -> Result<(), NoMemory> {
        pack_parts!(self, out: initial wanted)
    }

    fn unpack(alloc: Global, bytes: &[u8]) -> Result<(Ordered, &[u8]), NoMemory> {
        unpack_parts!(alloc, bytes, Ordered: initial wanted)
    }
}
