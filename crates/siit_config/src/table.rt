//! The table of a device.
ghost use Rattle.std.specs.Prelude.{◌≡◌, Ok, MatchResult};
ghost use Rattle.siit_config.specs.Devices.{mapping_entries_of, table_of};
ghost use Rattle.siit_config.specs.Faults.{Gives, Tells};

use crate::fault::ConfigFault;
use siit_eamt::{Eam, EamFault, Eamt};
use siit_map::Mapping;
use siit_rfc6052::Embed;
use std::alloc::Global;

/// The mapping of a device with these entries, which must be apart from each other and from the prefix where it is
/// symmetric.
pub(crate) fn table_of(
    alloc: Global,
    symmetric: bool,
    device: u8,
    prefix: Embed,
    entries: &[Eam],
) -> Result<Mapping, ConfigFault>
    ensures { Gives (table_of symmetric device prefix entries.now) result }
{
    let eamt = match Eamt::build(alloc, entries) {
        Ok(eamt) => eamt,
        Err(EamFault::NoMemory) => return Err(ConfigFault::NoMemory),
        Err(fault) => return Err(ConfigFault::Eam { device, fault }),
    };
    if symmetric && !eamt.is_disjoint(prefix.prefix()) {
        return Err(ConfigFault::NotSymmetric { device });
    }
    Ok(Mapping::table(eamt, prefix))
}

/// The entries, which must all be there.
pub(crate) fn mapping_entries_of(
    alloc: Global,
    device: u8,
    entries: &[Option<Eam>],
) -> Result<Vec<Eam>, ConfigFault>
    ensures { let told = mapping_entries_of device 0 entries.now in
        MatchResult result (λ good. told ≡ Ok good.items) (λ e. Tells e told) }
{
    let mut good = Vec::new(alloc);
    for (place, entry) in entries.iter().enumerate() {
        match entry {
            Some(entry) => good.push(*entry)?,
            None => {
                return Err(ConfigFault::BadEam {
                    device,
                    entry: u32::try_from(place).unwrap_or(u32::MAX),
                });
            }
        }
    }
    Ok(good)
}
