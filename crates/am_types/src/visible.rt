use crate::{List, Mime, Text};

/// An intent by which a manifest asks to see other packages.
#[derive(Drop)]
pub struct Signature {
    pub action: Text,
    pub categories: List<Text>,
    pub scheme: Option<Text>,
    pub host: Option<Text>,
    pub mime: Option<Mime>,
}

/// Which other packages a manifest asks to see.
#[derive(Drop)]
pub struct Queries {
    pub names: List<Text>,
    pub signatures: List<Signature>,
}
