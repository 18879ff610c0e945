//! The printed form of a fault.
ghost use Rattle.std.specs.Prelude.{◌≡◌, Some};
ghost use Rattle.am_wire_fields.specs.Printing.{mime_number, printed, uri_number};

use crate::WireFault;
use am_types::{MimeFault, UriFault};
use std::fmt;

/// The number of a fault of a URI.
fn uri_number(fault: UriFault) -> u8
    ensures { result ≡ uri_number fault }
{
    match fault {
        UriFault::NoScheme => 1,
        UriFault::BadPort => 2,
        UriFault::BadEscape => 3,
        UriFault::NotUtf8 => 4,
        UriFault::TooLong => 5,
        UriFault::NoMemory => 6,
    }
}

/// The number of a fault of a MIME type.
fn mime_number(fault: MimeFault) -> u8
    ensures { result ≡ mime_number fault }
{
    match fault {
        MimeFault::NoSlash => 1,
        MimeFault::EmptyPart => 2,
        MimeFault::BadCharacter => 3,
        MimeFault::NoMemory => 4,
    }
}

impl fmt::Display for WireFault {
    ghost output = { λ fault. Some (printed fault) };

    fn fmt<W: fmt::Write>(&self, f: &mut fmt::Formatter<W>) -> fmt::Result {
        match self {
            WireFault::NotJson => f.write_str("not_json"),
            WireFault::Missing(name) => write!(f, "missing {}", name.as_str()),
            WireFault::WrongKind(name) => write!(f, "wrong_kind {}", name.as_str()),
            WireFault::UnknownField(key) => write!(f, "unknown_field {}", key.as_str()),
            WireFault::BadUri(fault) => write!(f, "bad_uri {}", uri_number(*fault)),
            WireFault::BadMime(fault) => write!(f, "bad_mime {}", mime_number(*fault)),
            WireFault::TooLong(name) => write!(f, "too_long {}", name.as_str()),
        }
    }
}
