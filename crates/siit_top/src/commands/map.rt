//! The command `map`: the address of the other family that an address has at a device.
ghost use Rattle.std.specs.Prelude.{◌≡◌, ◌≢◌, ◌⊎◌, ℕ, ◌++◌, map, option_map, MatchOption, None, OnErr, OnOk, Some};
ghost use Rattle.std.specs.String.{string_bytes};
ghost use Rattle.siit_config.specs.Config.{config_of};
ghost use Rattle.siit_command.specs.Addresses.{address_read};
ghost use Rattle.siit_top.specs.Ends.{map_status};
ghost use Rattle.siit_top.specs.MapLine.{map_line};
ghost use Rattle.siit_top.specs.MapRun.{decision_by, device_at, Says};
ghost use Rattle.siit_top.specs.Promises.{Promise};
ghost use Rattle.siit_top.specs.Read.{command_read};
ghost use Rattle.siit_top.specs.Runs.{run_between};
ghost use Rattle.siit_top.specs.Words.{map_address, map_of};

use crate::commands::Command;
use crate::commands::ends::unread_status;
use crate::commands::settings::{CONFIGURATION_WORD, MOST_CONFIGURATION};
use crate::map_lines::line_of;
use crate::status::Status;
use siit_command::{Address, Unread, read_address, read_number, read_whole};
use siit_config::{ConfigFault, read_config};
use siit_map::Mapping;
use siit_roles::Settings;
use siit_word::Files;
use std::alloc::{AllocError, Global};

/// How the command ended.
#[derive(Clone, Copy)]
pub(crate) enum MapEnd {
    /// The line was printed.
    Printed,
    /// CONFIG wasn't read to its end.
    Unread(Unread),
    /// The configuration has this fault, which is never `NoMemory`.
    BadConfig(ConfigFault),
    /// The configuration has no device of this number.
    NoDevice,
    /// Memory was refused.
    NoMemory,
}

impl From<MapEnd> for Status {
    ghost use Rattle.siit_top.specs.Ends.{map_status};

    ghost from_gives = { λ end status. status ≡ map_status end };

    fn from(end: MapEnd) -> Status {
        match end {
            MapEnd::Printed => Status::Ok,
            MapEnd::Unread(unread) => unread_status(CONFIGURATION_WORD, unread),
            MapEnd::BadConfig(fault) => Status::BadConfig(fault),
            MapEnd::NoDevice => Status::NoDevice,
            MapEnd::NoMemory => Status::NoMemory,
        }
    }
}

/// The command of the words `CONFIG DEVICE ADDRESS`.
pub(crate) fn read_map(words: &[String]) -> Option<Command<'_>>
    ensures { option_map command_read result ≡ map_of (map string_bytes words.now) }
{
    let [configuration, device, address] = words else {
        return None;
    };
    let device = read_number(device.as_str())?;
    let address = read_address(address.as_str())?;
    Some(Command::Map {
        configuration,
        device,
        address,
    })
}

/// Maps an address at a device of the configuration that the file has, and appends its line to `out`.
#[tactic(auto, using(crate::proofs::MapRuns::map_answered))]
pub(crate) fn map<F: Files>(
    alloc: Global,
    files: &mut F,
    configuration: &str,
    device: u64,
    address: Address,
    out: &mut Vec<u8>,
) -> MapEnd
    ensures { (coming : ℕ → ℕ → ℕ) → Promise (map_address configuration.now device (address_read address))
        (run_between (F.meaning files.old) (F.meaning files.new) coming coming
        out.old.items out.new.items (map_status result)) }
{
    match read_whole(alloc, files, configuration, MOST_CONFIGURATION) {
        Ok(bytes) => answer(alloc, &bytes, device, address, out),
        Err(unread) => MapEnd::Unread(unread),
    }
}

// Answers by the bytes of a configuration.
fn answer(alloc: Global, bytes: &[u8], device: u64, address: Address, out: &mut Vec<u8>) -> MapEnd
    ensures says { (Says out.old.items out.new.items (map_status result)
        (decision_by (config_of bytes.now) device (address_read address))) ⊎ (map_status result ≡ Status.NoMemory) }
    ensures out { map_status result ≢ Status.Ok → out.new.items ≡ out.old.items }
{
    let chain = match read_config(alloc, bytes) {
        Ok(chain) => chain,
        Err(ConfigFault::NoMemory) => return MapEnd::NoMemory,
        Err(fault) => return MapEnd::BadConfig(fault),
    };
    let Some(settings) = device_at(chain.devices(), device) else {
        return MapEnd::NoDevice;
    };
    match append_line(alloc, &settings.mapping, address, out) {
        Ok(()) => MapEnd::Printed,
        Err(AllocError) => MapEnd::NoMemory,
    }
}

// The device at a place, the first being 1.
fn device_at(devices: &[Settings], device: u64) -> Option<&Settings>
    ensures { MatchOption result
        (device_at device devices.now ≡ None)
        (λ settings. device_at device devices.now ≡ Some settings.now) }
{
    if device == 0 {
        return None;
    }
    devices.get((device - 1) as usize)
}

// Appends the line of an address.
fn append_line(
    alloc: Global,
    mapping: &Mapping,
    address: Address,
    out: &mut Vec<u8>,
) -> Result<(), AllocError>
    ensures ok { OnOk result (out.new.items ≡ out.old.items ++ map_line mapping.now (address_read address)) }
    ensures err { OnErr result (out.new.items ≡ out.old.items) }
{
    let line = line_of(alloc, mapping, address)?;
    out.extend_from_slice(line.as_bytes())
}
