//! The settings of a device.
ghost use Rattle.std.specs.Prelude.{◌≡◌, ◌≤◌, All, IfOk, MatchResult, Ok, length, map, vec_len};
ghost use Rattle.toml.specs.View.{table_view};
ghost use Rattle.siit_roles.specs.Limits.{IsWithinLimits};
ghost use Rattle.siit_config.specs.Config.{devices_of};
ghost use Rattle.siit_config.specs.Devices.{device_of, mapping_of};
ghost use Rattle.siit_config.specs.Faults.{Gives, Tells};

use crate::fault::ConfigFault;
use crate::keys::Keys;
use crate::unknown::no_others;
use crate::{device_keys, pool, table};
use siit_addr::Prefix4;
use siit_eamt::Eam;
use siit_map::Mapping;
use siit_rfc6052::Embed;
use siit_roles::Settings;
use std::alloc::Global;
use toml::Table;

/// The settings of the devices of these tables, of which there are at most 8.
pub(crate) fn devices_of(
    alloc: Global,
    symmetric: bool,
    tables: &[&Table],
) -> Result<Vec<Settings>, ConfigFault>
    requires { length tables.now ≤ 8 }
    ensures told { let told = devices_of symmetric 1 (map (λ t. table_view t.now) tables.now) in
        MatchResult result (λ devices. told ≡ Ok devices.items) (λ e. Tells e told) }
    ensures count { IfOk result (λ devices. vec_len devices ≡ length tables.now) }
    ensures limits { IfOk result (λ devices. All IsWithinLimits devices.items) }
{
    let mut devices = Vec::new(alloc);
    for (place, table) in tables.iter().enumerate() {
        let keys = Keys {
            device: place as u8 + 1,
            table: *table,
        };
        devices.push(device_of(alloc, &keys, symmetric)?)?;
    }
    Ok(devices)
}

fn device_of(alloc: Global, keys: &Keys, symmetric: bool) -> Result<Settings, ConfigFault>
    ensures told { Gives (device_of keys.now.device (table_view keys.now.table.now) symmetric) result }
    ensures limits { IfOk result IsWithinLimits }
{
    let role = device_keys::role(keys)?;
    let prefix = device_keys::prefix(keys)?;
    let local = device_keys::local(keys, role, &prefix)?;
    let address4 = device_keys::address4(keys)?;
    let address6 = device_keys::address6(keys)?;
    let pool4 = pool::pool4(alloc, keys, address4)?;
    let mtu4 = keys.number("mtu4", 1500, 68)?;
    let mtu6 = keys.number("mtu6", 1500, 1280)?;
    let lowest = keys.number("lowest_mtu6", 1280, 1280)?;
    let tos_zero = device_keys::choice(keys, "tos", "copy", "zero")?;
    let udp_compute = device_keys::choice(keys, "udp_zero", "drop", "compute")?;
    let hairpin = device_keys::hairpin(keys, role)?;
    let entries = device_keys::eam(alloc, keys, role)?;
    no_others(keys, Some(role))?;
    if lowest > mtu6 {
        return Err(ConfigFault::MtuOrder {
            device: keys.device,
        });
    }
    let mapping = mapping_of(alloc, symmetric, keys.device, prefix, local, &entries)?;
    Ok(Settings {
        role,
        mapping,
        address4,
        address6,
        pool4,
        mtu4,
        mtu6,
        lowest,
        tos_zero,
        udp_compute,
        hairpin,
    })
}

/// The mapping of a customer, which has local prefixes, or of another device, which has a table.
fn mapping_of(
    alloc: Global,
    symmetric: bool,
    device: u8,
    prefix: Embed,
    local: Option<(Prefix4, Embed)>,
    entries: &[Option<Eam>],
) -> Result<Mapping, ConfigFault>
    ensures { Gives (mapping_of symmetric device prefix local entries.now) result }
{
    if let Some((local4, local6)) = local {
        return Ok(Mapping::customer(local4, local6, prefix));
    }
    let entries = table::mapping_entries_of(alloc, device, entries)?;
    table::table_of(alloc, symmetric, device, prefix, &entries)
}
