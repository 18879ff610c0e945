ghost use Rattle.std.specs.Prelude.{◌≡◌};

use crate::{Rules, Text, drop_parts};

/// What a URI's rest says by one of the device's rules: a host, a port and a path.
pub struct UriParts {
    /// The host, which may be empty. None if there is no authority.
    pub host: Option<Text>,
    /// The port: from 0 to 99,999 by the profile, to 2,147,483,647 by a phone's rules. None if there is none.
    pub port: Option<u32>,
    /// The path, percent-decoded.
    pub path: Text,
}

impl Drop for UriParts {
    fn drop(self) {
        drop_parts!(self, UriParts: host port path);
    }
}

/// A URI with its parts.
pub struct Uri {
    /// The whole text, as it was written, of at most 1,024 bytes.
    pub text: Text,
    /// The scheme, as it was written.
    pub scheme: Text,
    /// The other parts as the profile takes them.
    pub profile: UriParts,
    /// The other parts as a phone takes them.
    pub phone: UriParts,
}

impl Drop for Uri {
    fn drop(self) {
        drop_parts!(self, Uri: text scheme profile phone);
    }
}

impl Uri {
    ghost use Rattle.am_types.specs.Uris.{parts_by};

    /// Its parts by the device's rules. Takes no memory.
    pub fn parts(&self, rules: Rules) -> &UriParts
        ensures { result.now ≡ parts_by rules self.now }
    {
        match rules {
            Rules::Profile => &self.profile,
            Rules::Android12 => &self.phone,
        }
    }
}

/// A MIME type.
#[derive(Drop, PartialEq, Eq, Hash)]
pub struct Mime {
    /// The part before the slash.
    pub main: Text,
    /// The part after the slash.
    pub sub: Text,
}

/// Why a text isn't a URI: the first reason that applies, its length first, then from left to right.
#[derive(Clone, Copy, Debug, PartialEq, Eq)]
pub enum UriFault {
    /// It doesn't begin with a scheme and a colon.
    NoScheme,
    /// What follows the host isn't a port of at most five digits.
    BadPort,
    /// A percent sign in the path isn't followed by two hexadecimal digits.
    BadEscape,
    /// The decoded path isn't UTF-8.
    NotUtf8,
    /// It has more than 1,024 bytes.
    TooLong,
    NoMemory,
}

/// Why a text isn't a MIME type.
#[derive(Clone, Copy, Debug, PartialEq, Eq)]
pub enum MimeFault {
    /// It has no slash.
    NoSlash,
    /// A part is empty.
    EmptyPart,
    /// It has a space, a control character or a second slash.
    BadCharacter,
    NoMemory,
}
