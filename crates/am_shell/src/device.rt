//! The device file.
ghost use Rattle.std.specs.Prelude.{codes, IfOk};
ghost use Rattle.am_model.specs.Sound.{IsSound};
ghost use Rattle.am_manifest.specs.Devices.{device_of};
ghost use Rattle.am_manifest_queries.specs.Queries.{described};
ghost use Rattle.am_console.specs.Devices.{Parses};
ghost use Rattle.am_console.specs.Files.{shelf_of};
ghost use Rattle.am_shell.specs.Devices.{Opens};

use am_console::{Setback, parse_device, refusal};
use am_manifest_queries::{Described, read_described};
use am_outside::Files;
use am_types::{Device, Text, Unmade};
use std::alloc::Global;

/// Reads the device file with this name. A device that was read is sound.
pub fn read_device_file<F: Files>(
    alloc: Global,
    files: &mut F,
    name: &Text,
) -> Result<Device, Setback>
    ensures opens { Opens result device_of name.now (shelf_of F.Files files.old) (shelf_of F.Files files.new) }
    ensures sound { IfOk result (λ device. IsSound device) }
{
    let bytes = files.read_file(name)?;
    parse_device(alloc, "am", bytes.as_slice())
}

/// Reads the device file with this name, with the queries of its packages. A device that was read is sound.
pub fn read_described_file<F: Files>(
    alloc: Global,
    files: &mut F,
    name: &Text,
) -> Result<Described, Setback>
    ensures opens { Opens result described name.now (shelf_of F.Files files.old) (shelf_of F.Files files.new) }
    ensures sound { IfOk result (λ known. IsSound known.device) }
{
    let bytes = files.read_file(name)?;
    parse_described(alloc, bytes.as_slice())
}

// The device with queries that the text describes.
fn parse_described(alloc: Global, bytes: &[u8]) -> Result<Described, Setback>
    ensures parses { Parses (codes "am") result (described bytes.now) }
    ensures sound { IfOk result (λ known. IsSound known.device) }
{
    match read_described(alloc, bytes) {
        Ok(known) => Ok(known),
        Err(Unmade::NoMemory) => Err(Setback::NoMemory),
        Err(Unmade::Fault(fault)) => Err(refusal(alloc, "am", &fault)),
    }
}
