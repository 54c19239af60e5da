//! The configuration of a command that carries captures, read and judged.
ghost use Rattle.std.specs.Prelude.{◌≡◌, ◌≤◌, ◌∷◌, [], All, IfErr, IfOk, Ok, length};
ghost use Rattle.siit_config.specs.Config.{config_of};
ghost use Rattle.siit_roles.specs.Limits.{IsWithinLimits};
ghost use Rattle.siit_top.specs.CarryRun.{AreRefusedBy, HasNoSettings, HasSettings};
ghost use Rattle.siit_top.specs.Ends.{unset_status};
ghost use Rattle.siit_word.specs.Files.{Touches};

use crate::commands::ends::unread_status;
use crate::status::Status;
use siit_command::{Unread, read_whole};
use siit_config::{ConfigFault, read_config};
use siit_roles::ChainSettings;
use siit_word::Files;
use std::alloc::Global;

/// The word that names CONFIG, counted from 0.
pub(crate) const CONFIGURATION_WORD: u8 = 1;

/// The most bytes that a configuration may have.
pub(crate) const MOST_CONFIGURATION: usize = 1_048_576;

/// Why a file gave no settings.
#[derive(Clone, Copy)]
pub(crate) enum NoSettings {
    /// It wasn't read to its end.
    Unread(Unread),
    /// The configuration has this fault, which is never `NoMemory`.
    BadConfig(ConfigFault),
    /// Memory was refused.
    NoMemory,
}

/// The settings of the configuration that the file has. No other file is read, and none is written.
pub(crate) fn read_settings<F: Files>(
    alloc: Global,
    files: &mut F,
    configuration: &str,
) -> Result<ChainSettings, NoSettings>
    ensures settings { IfOk result (λ chain. HasSettings (F.meaning files.old) configuration.now chain) }
    ensures limits { IfOk result (λ chain. All IsWithinLimits chain.devices) }
    ensures few { IfOk result (λ chain. length chain.devices ≤ 8) }
    ensures none { IfErr result
        (λ none. HasNoSettings (F.meaning files.old) (F.meaning files.new) configuration.now none) }
    ensures only { Touches (F.meaning files.old) (F.meaning files.new) (configuration.now ∷ []) [] }
{
    match read_whole(alloc, files, configuration, MOST_CONFIGURATION) {
        Ok(bytes) => settings_of(alloc, &bytes),
        Err(unread) => Err(NoSettings::Unread(unread)),
    }
}

/// The settings that the bytes of a configuration give.
fn settings_of(alloc: Global, bytes: &[u8]) -> Result<ChainSettings, NoSettings>
    ensures settings { IfOk result (λ chain. config_of bytes.now ≡ Ok chain) }
    ensures limits { IfOk result (λ chain. All IsWithinLimits chain.devices) }
    ensures few { IfOk result (λ chain. length chain.devices ≤ 8) }
    ensures none { IfErr result (AreRefusedBy bytes.now) }
{
    match read_config(alloc, bytes) {
        Ok(settings) => Ok(settings),
        Err(ConfigFault::NoMemory) => Err(NoSettings::NoMemory),
        Err(fault) => Err(NoSettings::BadConfig(fault)),
    }
}

/// The status where CONFIG gave no settings.
pub(crate) fn unset_status(none: NoSettings) -> Status
    ensures { result ≡ unset_status none }
{
    match none {
        NoSettings::Unread(unread) => unread_status(CONFIGURATION_WORD, unread),
        NoSettings::BadConfig(fault) => Status::BadConfig(fault),
        NoSettings::NoMemory => Status::NoMemory,
    }
}
