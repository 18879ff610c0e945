//! How a connection ends.

/// Why a connection ended.
#[derive(Clone, Copy, Debug, PartialEq, Eq)]
pub enum End {
    /// The input ended between frames.
    Input,
    /// The last frame asked to close.
    Close,
    /// The next frame has a defect, and the text for it was written.
    Refused,
    /// The input ended inside a frame.
    Cut,
    /// As many frames as a connection may have were answered.
    Limit,
    /// The source said that a read would wait, and no byte of a next frame was taken from it: the
    /// connection may be served again later.
    Idle,
    /// The source failed.
    ReadFault,
    /// The sink failed, at the response to the last frame that was answered, or at the text for a
    /// defect. Nothing was read, asked or called after that.
    WriteFault,
}

/// How a connection went.
#[derive(Clone, Copy, Debug, PartialEq, Eq)]
pub struct Served {
    pub end: End,
    /// The responses to frames that were written whole.
    pub answered: u32,
}
