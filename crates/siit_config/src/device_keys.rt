//! The keys of a device.
ghost use Rattle.std.specs.Prelude.{◌≡◌, ◌≤◌, Ok, false, MatchResult, codes, length};
ghost use Rattle.toml.specs.View.{table_view};
ghost use Rattle.siit_config.specs.Devices.{eam_of, hairpin_of, local_of};
ghost use Rattle.siit_config.specs.Faults.{Gives, Tells};
ghost use Rattle.siit_config.specs.Keys.{text, text_or};
ghost use Rattle.siit_addr.specs.Prefixes.{addr4_of_text, addr6_of_text};
ghost use Rattle.siit_config.specs.Texts.{
  clean_prefix_of,
  either_name,
  embedding_of,
  local_embedding_of,
  role_of,
};

use crate::fault::ConfigFault;
use crate::keys::Keys;
use crate::{arrays, names};
use siit_addr::{Addr4, Addr6, Prefix4, read_addr4, read_addr6};
use siit_eamt::Eam;
use siit_rfc6052::Embed;
use siit_roles::Role;
use std::alloc::Global;

pub(crate) fn role(keys: &Keys) -> Result<Role, ConfigFault>
    ensures { Gives (text keys.now.device (table_view keys.now.table.now) role_of (codes "role")) result }
{
    let text = keys.text("role")?;
    keys.accepted("role", names::role_of(text))
}

pub(crate) fn prefix(keys: &Keys) -> Result<Embed, ConfigFault>
    ensures { Gives (text keys.now.device (table_view keys.now.table.now) embedding_of (codes "prefix")) result }
{
    let text = keys.text("prefix")?;
    keys.accepted("prefix", names::embedding_of(text))
}

/// A customer's local IPv4 prefix, and the IPv6 prefix that stands for it.
pub(crate) fn local(
    keys: &Keys,
    role: Role,
    provider: &Embed,
) -> Result<Option<(Prefix4, Embed)>, ConfigFault>
    ensures { Gives (local_of keys.now.device (table_view keys.now.table.now) role provider.now) result }
{
    if role != Role::Customer {
        return Ok(None);
    }
    let local4 = local4(keys)?;
    let local6 = local_prefix6(keys, provider)?;
    Ok(Some((local4, local6)))
}

fn local4(keys: &Keys) -> Result<Prefix4, ConfigFault>
    ensures { Gives (text keys.now.device (table_view keys.now.table.now) clean_prefix_of (codes "local4")) result }
{
    let text = keys.text("local4")?;
    keys.accepted("local4", names::clean_prefix_of(text))
}

fn local_prefix6(keys: &Keys, provider: &Embed) -> Result<Embed, ConfigFault>
    ensures { Gives (text keys.now.device (table_view keys.now.table.now)
        (local_embedding_of provider.now) (codes "local_prefix6")) result }
{
    let text = keys.text("local_prefix6")?;
    keys.accepted("local_prefix6", names::local_embedding_of(provider, text))
}

pub(crate) fn address4(keys: &Keys) -> Result<Addr4, ConfigFault>
    ensures { Gives (text keys.now.device (table_view keys.now.table.now) addr4_of_text (codes "address4")) result }
{
    let text = keys.text("address4")?;
    keys.accepted("address4", read_addr4(text))
}

pub(crate) fn address6(keys: &Keys) -> Result<Addr6, ConfigFault>
    ensures { Gives (text keys.now.device (table_view keys.now.table.now) addr6_of_text (codes "address6")) result }
{
    let text = keys.text("address6")?;
    keys.accepted("address6", read_addr6(text))
}

/// One of two names: false for the first, which is the default, and true for the second.
pub(crate) fn choice(keys: &Keys, name: &str, off: &str, on: &str) -> Result<bool, ConfigFault>
    requires { length name.now ≤ 64 }
    ensures { Gives (text_or keys.now.device (table_view keys.now.table.now) false
        (either_name off.now on.now) name.now) result }
{
    let Some(text) = keys.optional_text(name)? else {
        return Ok(false);
    };
    keys.accepted(name, names::either_name(off, on, text))
}

/// Whether packets are turned. A role without the key turns none.
pub(crate) fn hairpin(keys: &Keys, role: Role) -> Result<bool, ConfigFault>
    ensures { Gives (hairpin_of keys.now.device (table_view keys.now.table.now) role) result }
{
    match role {
        Role::Plain | Role::Border => keys.flag("hairpin", true),
        Role::Edge | Role::Customer => Ok(false),
    }
}

/// The entries of the table, each None where one of its texts is no prefix. A customer has none.
pub(crate) fn eam(alloc: Global, keys: &Keys, role: Role) -> Result<Vec<Option<Eam>>, ConfigFault>
    ensures { let told = eam_of keys.now.device (table_view keys.now.table.now) role in
        MatchResult result (λ entries. told ≡ Ok entries.items) (λ e. Tells e told) }
{
    if role == Role::Customer {
        return Ok(Vec::new(alloc));
    }
    let Some(value) = keys.value("eam") else {
        return Ok(Vec::new(alloc));
    };
    if let Some(items) = value.as_array() {
        if let Some(entries) = arrays::entries(alloc, items)? {
            return Ok(entries);
        }
    }
    Err(keys.wrong_kind("eam"))
}
