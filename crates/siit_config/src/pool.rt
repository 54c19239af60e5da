//! The pool of a device.
ghost use Rattle.std.specs.Prelude.{◌≡◌, ◌≤◌, IfOk, IfSome, MatchResult, Ok, Some, [], ◌∷◌, length, map, option_map, vec_len};
ghost use Rattle.toml.specs.Data.{as_str};
ghost use Rattle.toml.specs.View.{table_view};
ghost use Rattle.siit_config.specs.Devices.{pool4_of};
ghost use Rattle.siit_config.specs.Faults.{Gives, Tells};
ghost use Rattle.siit_config.specs.Keys.{array_of, key};
ghost use Rattle.siit_config.specs.Texts.{addresses4_of, pool_of};

use crate::arrays;
use crate::fault::ConfigFault;
use crate::keys::Keys;
use siit_addr::{Addr4, read_addr4};
use siit_roles::Pool4;
use std::alloc::{AllocError, Global};

/// The greatest number of addresses in a pool.
const MOST_ADDRESSES: usize = 256;

/// The pool of IPv4 addresses, which is `address4` alone where the key isn't there.
pub(crate) fn pool4(alloc: Global, keys: &Keys, address4: Addr4) -> Result<Pool4, ConfigFault>
    ensures told { Gives (pool4_of keys.now.device (table_view keys.now.table.now) address4) result }
    ensures some { IfOk result (λ pool. 1 ≤ length pool) }
    ensures few { IfOk result (λ pool. length pool ≤ 256) }
{
    let Some(value) = keys.value("pool4") else {
        return Ok(Pool4::new(Vec::from_slice(alloc, &[address4])?));
    };
    let Some(items) = value.as_array() else {
        return Err(keys.wrong_kind("pool4"));
    };
    let Some(texts) = arrays::texts(alloc, items)? else {
        return Err(keys.wrong_kind("pool4"));
    };
    if texts.is_empty() || texts.len() > MOST_ADDRESSES {
        return Err(keys.bad_value("pool4"));
    }
    match addresses_of(alloc, &texts)? {
        Some(addresses) => Ok(Pool4::new(addresses)),
        None => Err(keys.bad_value("pool4")),
    }
}

/// The addresses that all texts are, None where one isn't an address.
fn addresses_of(alloc: Global, texts: &[&str]) -> Result<Option<Vec<Addr4>>, AllocError>
    ensures told { IfOk result (λ found.
        option_map (λ addresses. addresses.items) found ≡ addresses4_of (map (λ t. t.now) texts.now)) }
    ensures count { IfOk result (λ found. IfSome found (λ addresses. vec_len addresses ≡ length texts.now)) }
{
    let mut addresses = Vec::new(alloc);
    for text in texts {
        let Some(address) = read_addr4(text) else {
            return Ok(None);
        };
        addresses.push(address)?;
    }
    Ok(Some(addresses))
}
