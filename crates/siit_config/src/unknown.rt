//! Keys that no one knows.
ghost use Rattle.std.specs.Prelude.{◌≡◌, Ok, MatchResult, option_map};
ghost use Rattle.std.specs.List.{list_any};
ghost use Rattle.std.specs.Str.{bytes_eq};
ghost use Rattle.toml.specs.View.{table_view};
ghost use Rattle.siit_config.specs.Devices.{known_keys};
ghost use Rattle.siit_config.specs.Faults.{Tells};
ghost use Rattle.siit_config.specs.Keys.{cut_key, first_unknown, no_others};

use crate::fault::ConfigFault;
use crate::keys::{Keys, key_text};
use arrayvec::ArrayString;
use siit_roles::Role;
use toml::Table;

/// Refuses a table with a key that its level doesn't have: the top level, where there is no role, or a device with this
/// role.
pub(crate) fn no_others(keys: &Keys, role: Option<Role>) -> Result<(), ConfigFault>
    ensures { let told = no_others keys.now.device (known_keys role) (table_view keys.now.table.now) in
        MatchResult result (λ _. told ≡ Ok tt) (λ e. Tells e told) }
{
    match first_unknown(keys.table, role) {
        None => Ok(()),
        Some(name) => Err(ConfigFault::Unknown {
            device: keys.device,
            key: cut_key(name),
        }),
    }
}

fn first_unknown<'a>(table: &'a Table, role: Option<Role>) -> Option<&'a str>
    ensures { option_map (λ name. name.now) result ≡ first_unknown (known_keys role) (table_view table.now) }
{
    'members: for (name, _value) in table.iter() {
        if !is_key(role, name.as_str()) {
            return Some(name.as_str());
        }
    }
    None
}

fn is_key(role: Option<Role>, name: &str) -> bool
    ensures { result ≡ list_any (bytes_eq name.now) (known_keys role) }
{
    let Some(role) = role else {
        return matches!(name, "left" | "symmetric" | "device");
    };
    match name {
        "role"
        | "prefix"
        | "address4"
        | "address6"
        | "pool4"
        | "mtu4"
        | "mtu6"
        | "lowest_mtu6"
        | "tos"
        | "udp_zero" => true,
        "hairpin" => matches!(role, Role::Plain | Role::Border),
        "eam" => role != Role::Customer,
        "local4" | "local_prefix6" => role == Role::Customer,
        _ => false,
    }
}

/// The first 64 bytes of a key, cut at a character.
fn cut_key(name: &str) -> ArrayString<64>
    ensures { result.bytes ≡ cut_key name.now }
{
    if name.len() <= 64 {
        return key_text(name);
    }
    key_text(&name[..name.floor_char_boundary(64)])
}
