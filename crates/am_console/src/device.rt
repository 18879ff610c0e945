//! The device file.
ghost use Rattle.std.specs.Prelude.{◌≡◌, IfOk};
ghost use Rattle.am_model.specs.Sound.{IsSound};
ghost use Rattle.am_manifest.specs.Devices.{device_of};
ghost use Rattle.am_console.specs.Devices.{IsRefusal, Parses, refusal_line};

use crate::setback::Setback;
use am_manifest::{print_fault, read_device};
use am_types::{Device, ManifestFault, NoMemory, Text, Unmade};
use std::alloc::Global;

/// The device that the text describes, or a setback of the program with this name. A device that is read is sound.
pub fn parse_device(alloc: Global, program: &str, bytes: &[u8]) -> Result<Device, Setback>
    ensures parses { Parses program.now result (device_of bytes.now) }
    ensures sound { IfOk result (λ device. IsSound device) }
{
    match read_device(alloc, bytes) {
        Ok(device) => Ok(device),
        Err(Unmade::NoMemory) => Err(Setback::NoMemory),
        Err(Unmade::Fault(fault)) => Err(refusal(alloc, program, &fault)),
    }
}

/// The setback for a device file with this fault. Its line begins with the program's name.
pub fn refusal(alloc: Global, program: &str, fault: &ManifestFault) -> Setback
    ensures { IsRefusal program.now result fault.now }
{
    match refusal_line(alloc, program, fault) {
        Ok(line) => Setback::DeviceRefused(line),
        Err(NoMemory) => Setback::NoMemory,
    }
}

// The line that names the fault.
fn refusal_line(alloc: Global, program: &str, fault: &ManifestFault) -> Result<Text, NoMemory>
    ensures { IfOk result (λ line. line ≡ refusal_line program.now fault.now) }
{
    let printed = print_fault(alloc, fault)?;
    let printed = printed.as_str();
    Ok(Text::new(format!(in alloc; "{program}: device refused: {printed}\n")?))
}
