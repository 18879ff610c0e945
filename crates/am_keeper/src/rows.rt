//! The rows that are kept.
use am_types::{List, Text};

/// An installed package, or one that is gone.
#[derive(Drop)]
pub struct PackageRow {
    pub uid: u32,
    pub name: Text,
    /// The key that its calls carry. Empty if the package is gone.
    pub key: Text,
    /// The text of its manifest. Empty if the package is gone.
    pub text: Text,
    /// Whether it was uninstalled.
    pub gone: bool,
}

/// A permission that was given to a uid, or taken away.
#[derive(Drop)]
pub struct GrantRow {
    pub uid: u32,
    pub permission: Text,
    /// Whether the uid holds it.
    pub held: bool,
}

/// A host whose web links a uid is approved for, or is no longer approved for.
#[derive(Drop)]
pub struct LinkRow {
    pub uid: u32,
    pub host: Text,
    /// Whether the uid is approved for it.
    pub approved: bool,
}

/// One row of any kind.
#[derive(Drop)]
pub enum Row {
    Package(PackageRow),
    Grant(GrantRow),
    Link(LinkRow),
}

/// All rows, ordered by uid, then by the bytes of the permission or host. There is at most one
/// package row per uid, one grant row per uid and permission, and one link row per uid and host.
#[derive(Drop)]
pub struct Rows {
    pub packages: List<PackageRow>,
    pub grants: List<GrantRow>,
    pub links: List<LinkRow>,
}
