use crate::{Decl, List, Text, drop_parts};

/// An installed package.
pub struct Package {
    /// From 10,000 to 4,294,967,294.
    pub uid: u32,
    pub name: Text,
    /// The key that its calls carry, 1 to 255 visible ASCII bytes.
    pub key: Text,
    pub stopped: bool,
    pub decls: List<Decl>,
}

impl Drop for Package {
    fn drop(self) {
        drop_parts!(self, Package: uid name key stopped decls);
    }
}

/// A permission that a package holds.
#[derive(Drop)]
pub struct Grant {
    pub uid: u32,
    pub permission: Text,
}

/// A host for whose web links a package is approved.
#[derive(Drop)]
pub struct Link {
    pub uid: u32,
    /// In lower ASCII case.
    pub host: Text,
}

/// What a package has a right to.
#[derive(Clone, Copy)]
pub enum RightKind {
    /// What a permission guards.
    Permission,
    /// The web links of a host.
    Host,
}

/// By whose rules a device answers.
#[derive(Clone, Copy, Debug, PartialEq, Eq)]
pub enum Rules {
    /// Those of the written profile.
    Profile,
    /// Those of a phone with Android 12.
    Android12,
}

/// A device as its file describes it.
#[derive(Drop)]
pub struct Device {
    pub rules: Rules,
    /// The key of uid 1000.
    pub system_key: Text,
    /// The key of uid 0.
    pub root_key: Option<Text>,
    /// The package of the default browser, which needn't be installed.
    pub browser: Option<Text>,
    /// The actions that only the system and the root may broadcast.
    pub protected: List<Text>,
    /// The actions that manifest receivers get implicitly.
    pub exempt: List<Text>,
    /// In the order of their uids.
    pub packages: List<Package>,
    /// In the order of uid, then permission by bytes, each once.
    pub grants: List<Grant>,
    /// In the order of uid, then host by bytes, each once.
    pub links: List<Link>,
}
