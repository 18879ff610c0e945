//! Reading a MIME type.
ghost use Rattle.std.specs.Prelude.{◌≡◌, IfOk, option_map, if◌then◌else◌, Some, None};
ghost use Rattle.std.specs.List.{list_any};
ghost use Rattle.am_model.specs.MimeTypes.{is_slash, is_unprintable, main_in, sub_in, mime_of};
ghost use Rattle.am_uri.specs.Answers.{IsMimeAnswer};
ghost use Rattle.am_uri.specs.Parts.{both, MimeParts};

use am_types::{Mime, MimeFault, Text};
use std::alloc::{AllocError, Global};

/// Reads a MIME type: two nonempty parts around exactly one slash, with no byte up to 0x20 and no
/// 0x7F (own: RFC 6838 allows fewer bytes, and Android's `IntentFilter.addDataType` asks only for
/// the parts and the slash). Case stays as it is written, and parameters belong to the sub part.
///
/// The first fault that applies is `NoSlash`, `BadCharacter` for such a byte or a second slash, and
/// `EmptyPart`. `NoMemory` comes only if the text is a MIME type.
pub fn parse_mime(alloc: Global, text: &Text) -> Result<Mime, MimeFault>
    ensures { IsMimeAnswer (mime_of text.now) result }
{
    let (main, sub) = parts(text.as_str())?;
    match copied(alloc, main, sub) {
        Ok(mime) => Ok(mime),
        Err(_) => Err(MimeFault::NoMemory),
    }
}

fn copied(alloc: Global, main: &str, sub: &str) -> Result<Mime, AllocError>
    ensures { IfOk result (λ mime. mime ≡ record { main = main.now; sub = sub.now }) }
{
    Ok(Mime {
        main: Text::of(alloc, main)?,
        sub: Text::of(alloc, sub)?,
    })
}

/// The text before the slash and the text after it.
#[tactic(auto, unfolding(am_model::specs::MimeTypes::mime_of))]
fn parts(text: &str) -> Result<(&str, &str), MimeFault>
    ensures { MimeParts (mime_of text.now) result }
{
    let Some((main, sub)) = split(text) else {
        return Err(MimeFault::NoSlash);
    };
    if has_unprintable(text) || has_slash(sub) {
        return Err(MimeFault::BadCharacter);
    }
    if main.is_empty() || sub.is_empty() {
        return Err(MimeFault::EmptyPart);
    }
    Ok((main, sub))
}

/// The text before the first slash and the text after it.
fn split(text: &str) -> Option<(&str, &str)>
    ensures { option_map both result
        ≡ (if list_any is_slash text.now then Some (main_in text.now, sub_in text.now) else None) }
{
    text.split_once('/')
}

fn has_slash(text: &str) -> bool
    ensures { result ≡ list_any is_slash text.now }
{
    text.as_bytes().contains(&b'/')
}

fn has_unprintable(text: &str) -> bool
    ensures { result ≡ list_any is_unprintable text.now }
{
    text.bytes().any(|b| b <= b' ' || b == 0x7f)
}
