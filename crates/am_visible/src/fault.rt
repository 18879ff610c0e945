//! Why a question isn't answered.
use am_types::ManifestFault;
use am_wire_fields::WireFault;

/// Why a question isn't answered, in the order in which it is tested.
#[derive(Drop)]
pub enum VisibleFault {
    /// The device file has a fault, which may be in a table `queries`.
    Device(ManifestFault),
    /// The device has no package with the name of the one that asks.
    NoPackage,
    /// The question isn't a query.
    Query(WireFault),
    /// Memory ran out.
    NoMemory,
}
