//! The devices of a configured chain, in a row.
ghost use Rattle.std.specs.Prelude.{◌≡◌, length, IfOk};
ghost use Rattle.std.specs.Prelude.{All};
ghost use Rattle.siit_engine.specs.Placed.{other_family};
ghost use Rattle.siit_network.specs.Networks.{family_behind, placed_from};
ghost use Rattle.siit_roles.specs.Limits.{IsWithinLimits};

use siit_carry::Chain;
use siit_engine::Engine;
use siit_roles::{ChainSettings, Settings};
use siit_rules::Family;
use siit_word::NoMemory;
use std::alloc::Global;

/// The chain of these settings, each device in its place. It takes two packet buffers. After `NoMemory` the settings
/// are gone.
pub fn chain_of(alloc: Global, settings: ChainSettings) -> Result<Chain<Engine>, NoMemory>
    requires limits { All IsWithinLimits settings.devices }
    ensures devices { IfOk result (λ chain. chain.devices.items ≡ placed_from settings.left settings.devices) }
    ensures left { IfOk result (λ chain. chain.left ≡ settings.left) }
    ensures right { IfOk result (λ chain. chain.right ≡ family_behind settings.left settings.devices) }
{
    let (left, devices) = settings.into_parts();
    let (engines, right) = place(alloc, left, devices)?;
    Chain::new(alloc, engines, left, right)
}

/// Devices behind a link of this family, each in its place, and the family of the link behind them.
fn place(
    alloc: Global,
    left: Family,
    devices: Vec<Settings>,
) -> Result<(Vec<Engine>, Family), NoMemory>
    requires limits { All IsWithinLimits devices.items }
    ensures engines { IfOk result (λ placed. placed.0.items ≡ placed_from left devices.items) }
    ensures behind { IfOk result (λ placed. placed.1 ≡ family_behind left devices.items) }
{
    let mut family = left;
    let mut engines = Vec::new(alloc);
    for settings in devices {
        let Ok(()) = engines.push(Engine::new(settings, family)) else {
            return Err(NoMemory);
        };
        family = other(family);
    }
    Ok((engines, family))
}

/// The other family.
fn other(family: Family) -> Family
    ensures { result ≡ other_family family }
{
    match family {
        Family::Four => Family::Six,
        Family::Six => Family::Four,
    }
}
