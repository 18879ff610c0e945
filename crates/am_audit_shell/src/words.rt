//! The words.
ghost use Rattle.std.specs.Prelude.{◌≡◌, codes};
ghost use Rattle.std.specs.Option.{option_map};
ghost use Rattle.am_audit_shell.specs.Words.{is_file, is_option, named_by};
ghost use Rattle.am_audit_shell.specs.Naming.{named_at};

use am_types::Text;

/// The files that the words name.
#[derive(Clone, Copy)]
pub(crate) struct NamedFiles<'w> {
    pub(crate) device: &'w Text,
    pub(crate) history: &'w Text,
    pub(crate) frames: &'w Text,
    pub(crate) responses: &'w Text,
}

// Whether the word can be a file's name.
fn is_file(word: &Text) -> bool
    ensures { result ≡ is_file word.now }
{
    match word.as_str().as_bytes().first() {
        Some(first) => *first != b'-',
        None => false,
    }
}

// Whether the words are this option and a file.
fn is_option(word: &Text, name: &str, file: &Text) -> bool
    ensures { result ≡ is_option word.now name.now file.now }
{
    word.as_str() == name && is_file(file)
}

/// The files that the words name, if they are the four options in their order. Takes no memory.
pub(crate) fn named_by(words: &[Text]) -> Option<NamedFiles<'_>>
    ensures { option_map named_at result ≡ named_by words.entry.now }
{
    let [a, device, b, history, c, frames, d, responses] = words else {
        return None;
    };
    if is_option(a, "--device", device)
        && is_option(b, "--history", history)
        && is_option(c, "--frames", frames)
        && is_option(d, "--responses", responses)
    {
        Some(NamedFiles {
            device,
            history,
            frames,
            responses,
        })
    } else {
        None
    }
}
