//! The command `wkp`: a capture, carried through a translator under the well-known prefix (RFC 6052 section 2.1).
ghost use Rattle.std.specs.Prelude.{◌≡◌, IfOk, map, option_map};
ghost use Rattle.std.specs.String.{string_bytes};
ghost use Rattle.siit_chain.specs.Outputs.{name_in};
ghost use Rattle.siit_chain.specs.declared.origin.End.{End};
ghost use Rattle.siit_chain.specs.declared.origin.Output.{Output};
ghost use Rattle.siit_running.specs.Inputs.{input_name};
ghost use Rattle.siit_top.specs.Carried.{HaveOwnFiles};
ghost use Rattle.siit_top.specs.Promises.{Promise};
ghost use Rattle.siit_top.specs.Read.{command_read};
ghost use Rattle.siit_top.specs.Runs.{run_between};
ghost use Rattle.siit_top.specs.WellKnown.{well_known_chain, well_known_device};
ghost use Rattle.siit_top.specs.WkpRun.{wkp_captures, wkp_outputs};
ghost use Rattle.siit_top.specs.Words.{wkp, wkp_of};

use crate::commands::Command;
use crate::commands::carrying::{carried_status, carry};
use crate::status::Status;
use siit_addr::{Addr4, Addr6};
use siit_chain::Outs;
use siit_command::is_output_name;
use siit_eamt::Eamt;
use siit_map::Mapping;
use siit_rfc6052::Embed;
use siit_roles::{ChainSettings, Pool4, Role, Settings};
use siit_rules::Family;
use siit_running::Inputs;
use siit_word::{Files, Idents, NoMemory};
use std::alloc::Global;

/// The word that names IN, counted from 0.
const INPUT_WORD: u8 = 1;

/// The translator's own IPv4 address, 203.0.113.1.
const OWN_ADDRESS4: Addr4 = Addr4(0xcb00_7101);

/// The translator's own IPv6 address, 2001:db8:ffff::1.
const OWN_ADDRESS6: Addr6 = Addr6(0x2001_0db8_ffff_0000_0000_0000_0000_0001);

/// The command of the words `IN OUT`. OUT isn't `-`, and isn't IN.
pub(crate) fn read_wkp(words: &[String]) -> Option<Command<'_>>
    ensures { option_map command_read result ≡ wkp_of (map string_bytes words.now) }
{
    let [input, output] = words else {
        return None;
    };
    if is_output_name(output.as_str(), &[input.as_str()]) {
        Some(Command::Wkp { input, output })
    } else {
        None
    }
}

/// The settings of one plain translator under the well-known prefix, all else by default.
fn well_known_settings(alloc: Global) -> Result<ChainSettings, NoMemory>
    ensures { IfOk result (λ settings. settings ≡ well_known_chain) }
{
    let device = well_known_device(alloc)?;
    let mut devices = Vec::new(alloc);
    let Ok(()) = devices.push(device) else {
        return Err(NoMemory);
    };
    Ok(ChainSettings::new(Family::Four, devices))
}

/// Its one device.
fn well_known_device(alloc: Global) -> Result<Settings, NoMemory>
    ensures { IfOk result (λ device. device ≡ well_known_device) }
{
    let Ok(eamt) = Eamt::build(alloc, &[]) else {
        return Err(NoMemory);
    };
    let mut pool = Vec::new(alloc);
    let Ok(()) = pool.push(OWN_ADDRESS4) else {
        return Err(NoMemory);
    };
    Ok(Settings {
        role: Role::Plain,
        mapping: Mapping::table(eamt, Embed::well_known()),
        address4: OWN_ADDRESS4,
        address6: OWN_ADDRESS6,
        pool4: Pool4::new(pool),
        mtu4: 1500,
        mtu6: 1500,
        lowest: 1280,
        tos_zero: false,
        udp_compute: false,
        hairpin: true,
    })
}

/// The capture IN, at the left.
fn inputs_of(input: &str) -> Inputs<'_>
    ensures { (end : End) → input_name result end ≡ wkp_captures input.now end }
{
    Inputs {
        left: Some(input),
        right: None,
    }
}

/// The output OUT, at the right.
fn outs_of(output: &str) -> Outs<'_>
    ensures { (place : Output) → name_in result place ≡ wkp_outputs output.now place }
{
    Outs {
        left: None,
        right: Some(output),
        report: None,
    }
}

/// Carries the capture `input` through the well-known translator to `output`, and appends the end line to `out`.
pub(crate) fn wkp<F: Files, I: Idents>(
    alloc: Global,
    input: &str,
    output: &str,
    files: &mut F,
    idents: &mut I,
    out: &mut Vec<u8>,
) -> Status
    requires { HaveOwnFiles (wkp_captures input.now) (wkp_outputs output.now) }
    ensures { Promise (wkp input.now output.now)
        (run_between (F.meaning files.old) (F.meaning files.new) (I.coming idents.old) (I.coming idents.new)
        out.old.items out.new.items result) }
{
    let Ok(settings) = well_known_settings(alloc) else {
        return Status::NoMemory;
    };
    let carried = carry(
        alloc,
        settings,
        inputs_of(input),
        outs_of(output),
        files,
        idents,
        out,
    );
    carried_status(INPUT_WORD, INPUT_WORD, carried)
}

#[cfg(test)]
mod tests {
    use super::*;
    use siit_config::read_config;
    use std::test::Fail;

    /// The configuration of `wkp`, as a text.
    const WELL_KNOWN: &[u8] = b"left = 4
    [[device]]
    role = \"plain\"
    prefix = \"64:ff9b::/96\"
    address4 = \"203.0.113.1\"
    address6 = \"2001:db8:ffff::1\"
    ";

    #[test]
    fn has_the_settings_of_that_text(rt: HostRuntime) -> Result<(), Fail> {
        let alloc = rt.alloc();
        let own = well_known_settings(alloc)?;
        let read = read_config(alloc, WELL_KNOWN).expect(&rt, "settings");
        assert!(rt; own.left() == Family::Four && read.left() == Family::Four);
        assert!(rt; own.devices().len() == 1 && read.devices().len() == 1);
        let own = own.devices().first().expect(&rt, "a device");
        let read = read.devices().first().expect(&rt, "a device");
        for device in [own, read] {
            assert!(rt; device.role == Role::Plain && device.hairpin);
            assert!(rt; device.mapping.entries().is_empty());
            assert!(rt; !device.tos_zero && !device.udp_compute);
        }
        assert!(rt; own.mapping.prefix() == read.mapping.prefix());
        assert!(rt; own.address4 == read.address4 && own.address6 == read.address6);
        assert!(rt; own.pool4.addresses() == read.pool4.addresses());
        assert!(rt; (own.mtu4, own.mtu6, own.lowest) == (read.mtu4, read.mtu6, read.lowest));
        Ok(())
    }
}
