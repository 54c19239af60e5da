//! The texts of a configuration's faults.
ghost use Rattle.std.specs.Prelude.{◌≡◌, IfOk, string_bytes};
ghost use Rattle.std.specs.Fmt.{decimal};
ghost use Rattle.siit_command.specs.ConfigTexts.{config_text, named, of_device, of_entry, table_text};

use siit_config::ConfigFault;
use siit_eamt::EamFault;
use std::alloc::{AllocError, Global};

/// What is wrong with a configuration, as it is printed. `NoMemory` is no fault of one, and has no text.
pub fn config_text(alloc: Global, fault: &ConfigFault) -> Result<String, AllocError>
    ensures { IfOk result (λ text. string_bytes text ≡ config_text fault.now) }
{
    match fault {
        ConfigFault::NotToml => String::from_str(alloc, "not toml"),
        ConfigFault::Missing { device, key } => of_key(alloc, *device, "missing", key.as_str()),
        ConfigFault::WrongKind { device, key } => of_key(
            alloc,
            *device,
            "wrong kind",
            key.as_str(),
        ),
        ConfigFault::BadValue { device, key } => of_key(alloc, *device, "bad value", key.as_str()),
        ConfigFault::Unknown { device, key } => of_key(alloc, *device, "unknown", key.as_str()),
        ConfigFault::ChainLength => String::from_str(alloc, "chain length"),
        ConfigFault::MtuOrder { device } => of_device(alloc, *device, "mtu order"),
        ConfigFault::BadEam { device, entry } => {
            let text = numbered(alloc, "bad eam", *entry)?;
            of_device(alloc, *device, text.as_str())
        }
        ConfigFault::Eam { device, fault } => {
            let text = table_text(alloc, fault)?;
            of_device(alloc, *device, text.as_str())
        }
        ConfigFault::NotSymmetric { device } => of_device(alloc, *device, "not symmetric"),
        ConfigFault::NoMemory => Ok(String::new(alloc)),
    }
}

fn table_text(alloc: Global, fault: &EamFault) -> Result<String, AllocError>
    ensures { IfOk result (λ text. string_bytes text ≡ table_text fault.now) }
{
    match fault {
        EamFault::TooMany => String::from_str(alloc, "too many"),
        EamFault::HostBits(entry) => of_entry(alloc, *entry, "HostBits"),
        EamFault::SuffixTooLong(entry) => of_entry(alloc, *entry, "SuffixTooLong"),
        EamFault::Twice4(entry, other) => {
            let text = numbered(alloc, "Twice4", *other)?;
            of_entry(alloc, *entry, text.as_str())
        }
        EamFault::Twice6(entry, other) => {
            let text = numbered(alloc, "Twice6", *other)?;
            of_entry(alloc, *entry, text.as_str())
        }
        EamFault::NoMemory => Ok(String::new(alloc)),
    }
}

fn of_key(alloc: Global, device: u8, word: &str, key: &str) -> Result<String, AllocError>
    ensures { IfOk result (λ text. string_bytes text ≡ of_device device (named word.now key.now)) }
{
    let text = named(alloc, word, key)?;
    of_device(alloc, device, text.as_str())
}

fn of_device(alloc: Global, device: u8, text: &str) -> Result<String, AllocError>
    ensures { IfOk result (λ line. string_bytes line ≡ of_device device text.now) }
{
    let number = device.to_string(alloc)?;
    let mut line = String::from_str(alloc, "device ")?;
    line.push_str(number.as_str())?;
    line.push_str(": ")?;
    line.push_str(text)?;
    Ok(line)
}

fn of_entry(alloc: Global, entry: u32, text: &str) -> Result<String, AllocError>
    ensures { IfOk result (λ line. string_bytes line ≡ of_entry entry text.now) }
{
    let number = entry.to_string(alloc)?;
    let mut line = String::from_str(alloc, "eam ")?;
    line.push_str(number.as_str())?;
    line.push_str(": ")?;
    line.push_str(text)?;
    Ok(line)
}

fn numbered(alloc: Global, word: &str, number: u32) -> Result<String, AllocError>
    ensures { IfOk result (λ text. string_bytes text ≡ named word.now (decimal number)) }
{
    let number = number.to_string(alloc)?;
    named(alloc, word, number.as_str())
}

fn named(alloc: Global, word: &str, name: &str) -> Result<String, AllocError>
    ensures { IfOk result (λ text. string_bytes text ≡ named word.now name.now) }
{
    let mut text = String::from_str(alloc, word)?;
    text.push_str(" ")?;
    text.push_str(name)?;
    Ok(text)
}
