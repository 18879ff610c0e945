use am_types::{ManifestFault, Unmade};

/// Why a device file or a manifest was not read.
pub type ReadFault = Unmade<ManifestFault>;
