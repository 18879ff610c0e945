use am_types::{MimeFault, Text, Unmade, UriFault};

/// Why a request's body isn't a request: the first fault found.
#[derive(Drop)]
pub enum WireFault {
    /// It isn't JSON text in UTF-8.
    NotJson,
    /// This field is required and is absent or null.
    Missing(Text),
    /// The value of this field is of another kind, or out of its range.
    WrongKind(Text),
    /// An object has this key, which isn't one of its fields.
    UnknownField(Text),
    /// A text that must be a URI isn't one.
    BadUri(UriFault),
    /// A text that must be a MIME type isn't one.
    BadMime(MimeFault),
    /// The value of this field has too many bytes or entries.
    TooLong(Text),
}

/// Why nothing was read.
pub type Unread = Unmade<WireFault>;
