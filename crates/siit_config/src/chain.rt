//! The configuration of a whole chain.
ghost use Rattle.std.specs.Prelude.{◌≡◌, ◌≤◌, All, IfErr, IfOk, MatchResult, None, Ok, Some, codes, length, map};
ghost use Rattle.toml.specs.Data.{as_integer, as_table};
ghost use Rattle.toml.specs.View.{table_view};
ghost use Rattle.siit_roles.specs.Limits.{IsWithinLimits};
ghost use Rattle.siit_config.specs.Config.{chain_settings_of, config_of, document_of};
ghost use Rattle.siit_config.specs.Faults.{Gives, IsNoTableMemory, Tells, not_toml, or_fault};
ghost use Rattle.siit_config.specs.Keys.{array_of, key};
ghost use Rattle.siit_config.specs.Texts.{family_of};

use crate::arrays;
use crate::device::devices_of;
use crate::fault::ConfigFault;
use crate::keys::Keys;
use crate::unknown::no_others;
use siit_roles::ChainSettings;
use siit_rules::Family;
use std::alloc::Global;
use toml::Table;

/// The settings that a configuration in TOML gives, or its first fault: the documentation of the configuration says
/// which keys there are, and in which order they are judged.
pub fn read_config(alloc: Global, bytes: &[u8]) -> Result<ChainSettings, ConfigFault>
    ensures settings { IfOk result (λ chain. config_of bytes.now ≡ Ok chain) }
    ensures fault { IfErr result (λ e. Tells e (config_of bytes.now)) }
    ensures memory { IfErr result IsNoTableMemory }
    ensures devices { IfOk result (λ chain. (1 ≤ length chain.devices) × (length chain.devices ≤ 8)) }
    ensures limits { IfOk result (λ chain. All IsWithinLimits chain.devices) }
{
    let table = document_of(alloc, bytes)?;
    chain_settings_of(alloc, &table)
}

/// The table that the document is.
fn document_of(alloc: Global, bytes: &[u8]) -> Result<Table, ConfigFault>
    ensures { let told = or_fault not_toml (document_of bytes.now) in
        MatchResult result (λ table. told ≡ Ok (table_view table)) (λ e. Tells e told) }
{
    match toml::table_from_slice(alloc, bytes) {
        Ok(table) => Ok(table),
        Err(error) if error.is_memory() => Err(ConfigFault::NoMemory),
        Err(_) => Err(ConfigFault::NotToml),
    }
}

fn chain_settings_of(alloc: Global, table: &Table) -> Result<ChainSettings, ConfigFault>
    ensures told { Gives (chain_settings_of (table_view table.now)) result }
    ensures devices { IfOk result (λ chain. (1 ≤ length chain.devices) × (length chain.devices ≤ 8)) }
    ensures limits { IfOk result (λ chain. All IsWithinLimits chain.devices) }
{
    let keys = Keys { device: 0, table };
    let left = left(&keys)?;
    let symmetric = keys.flag("symmetric", false)?;
    let tables = tables(alloc, &keys)?;
    if tables.is_empty() || tables.len() > 8 {
        return Err(ConfigFault::ChainLength);
    }
    no_others(&keys, None)?;
    let devices = devices_of(alloc, symmetric, &tables)?;
    Ok(ChainSettings::new(left, devices))
}

/// The family of the left link.
fn left(keys: &Keys) -> Result<Family, ConfigFault>
    ensures { Gives (key keys.now.device (table_view keys.now.table.now) as_integer family_of None (codes "left")) result }
{
    let Some(value) = keys.value("left") else {
        return Err(keys.missing("left"));
    };
    let Some(version) = value.as_integer() else {
        return Err(keys.wrong_kind("left"));
    };
    match version {
        4 => Ok(Family::Four),
        6 => Ok(Family::Six),
        _ => Err(keys.bad_value("left")),
    }
}

/// The tables of the devices.
fn tables<'a>(alloc: Global, keys: &Keys<'a>) -> Result<Vec<&'a Table>, ConfigFault>
    ensures { let told = key keys.now.device (table_view keys.now.table.now) (array_of as_table) (λ tables. Some tables) None (codes "device") in
        MatchResult result (λ tables. told ≡ Ok (map (λ t. table_view t.now) tables.items)) (λ e. Tells e told) }
{
    let Some(value) = keys.value("device") else {
        return Err(keys.missing("device"));
    };
    if let Some(items) = value.as_array() {
        if let Some(tables) = arrays::tables(alloc, items)? {
            return Ok(tables);
        }
    }
    Err(keys.wrong_kind("device"))
}
