/// The uid of the root.
pub const ROOT: u32 = 0;

/// The uid of the system.
pub const SYSTEM: u32 = 1000;
