//! A chain of devices.
ghost use Rattle.std.specs.Prelude.{◌≡◌, ◌<◌, ◌≤◌, [], length, IfOk, OnOk, OnErr, Err};
ghost use Rattle.siit_chain.specs.Carried.{captured_packet, carry_captured, chain_of, family_at, fresh, is_family, HasComing};
ghost use Rattle.siit_chain.specs.Counted.{counts_of};
ghost use Rattle.siit_chain.specs.Log.{text_of};
ghost use Rattle.siit_chain.specs.Outputs.{name_in, names_in, AreApart, GrewBy, GrewByPart, WriteFailedIn};
ghost use Rattle.siit_word.specs.Files.{Touches};
ghost use Rattle.siit_carry.specs.Captured.{bytes_or_rule, judged};

use crate::follow::follow;
use crate::place::{Place, Trip};
use crate::spares::Spares;
use crate::write::write;
use siit_chain::{Counts, Device, End, Origin, Output, Outs, report_line};
use siit_rules::{Family, Rule};
use siit_views::PacketBuf;
use siit_word::{Failed, Files, Idents, NoMemory};
use std::alloc::Global;

/// The most bytes of a captured packet that are looked at.
const MOST_BYTES: usize = 65_575;

/// Why a packet wasn't carried to its end.
#[derive(Clone, Copy, Debug, PartialEq, Eq)]
pub enum ChainFault {
    /// Writing one of the files failed.
    WriteFault,
    /// Memory was refused.
    NoMemory,
}

impl From<Failed> for ChainFault {
    ghost use Rattle.siit_carry.specs.declared.chain.ChainFault.TheVariants as faults;

    ghost from_gives = { λ _ e. e ≡ faults.WriteFault };

    fn from(_: Failed) -> Self {
        ChainFault::WriteFault
    }
}

impl From<NoMemory> for ChainFault {
    ghost use Rattle.siit_carry.specs.declared.chain.ChainFault.TheVariants as faults;

    ghost from_gives = { λ _ e. e ≡ faults.NoMemory };

    fn from(_: NoMemory) -> Self {
        ChainFault::NoMemory
    }
}

/// Devices in a row, from left to right, the families of the links at both ends, and the packet buffers that the
/// devices share.
#[derive(Drop)]
pub struct Chain<D: Drop> {
    pub devices: Vec<D>,
    pub left: Family,
    pub right: Family,
    buf: PacketBuf,
    spares: Spares,
}

impl<D: Device + Drop> Chain<D> {
    /// A chain of these devices. It takes two packet buffers. After `NoMemory` the devices are gone.
    pub fn new(
        alloc: Global,
        devices: Vec<D>,
        left: Family,
        right: Family,
    ) -> Result<Chain<D>, NoMemory>
        ensures devices { IfOk result (λ chain. chain.devices ≡ devices) }
        ensures left { IfOk result (λ chain. chain.left ≡ left) }
        ensures right { IfOk result (λ chain. chain.right ≡ right) }
    {
        let buf = PacketBuf::new(alloc)?;
        let spares = Spares::new(alloc)?;
        Ok(Chain {
            devices,
            left,
            right,
            buf,
            spares,
        })
    }

    /// Carries the packet of a record, or reports that it has none, and all that comes of it: each packet that leaves
    /// the chain is appended as a record to the file of its end, and each drop as a line to the report. After a fault
    /// the files hold a prefix of that. Of a packet at most the first 65,575 bytes are looked at.
    pub fn carry<F: Files, I: Idents>(
        &mut self,
        origin: Origin,
        packet: Option<(Family, &[u8])>,
        outs: Outs<'_>,
        files: &mut F,
        idents: &mut I,
    ) -> Result<Counts, ChainFault>
        requires apart { AreApart (name_in outs) }
        requires few { length self.old.devices.items < 256 }
        ensures ok { let chain = chain_of D.outcome D.measure self.old.devices.items self.old.left self.old.right in
            let all = carry_captured chain origin (fresh (I.coming idents.old)) (captured_packet packet.entry) in
            OnOk result (GrewBy (name_in outs.entry) (F.meaning files.old) (F.meaning files.new) (text_of all.log)) }
        ensures err { let chain = chain_of D.outcome D.measure self.old.devices.items self.old.left self.old.right in
            let all = carry_captured chain origin (fresh (I.coming idents.old)) (captured_packet packet.entry) in
            OnErr result (GrewByPart (name_in outs.entry) (F.meaning files.old) (F.meaning files.new) (text_of all.log)) }
        ensures counts { let chain = chain_of D.outcome D.measure self.old.devices.items self.old.left self.old.right in
            let all = carry_captured chain origin (fresh (I.coming idents.old)) (captured_packet packet.entry) in
            IfOk result (λ counts. counts ≡ counts_of all.log) }
        ensures numbers { let chain = chain_of D.outcome D.measure self.old.devices.items self.old.left self.old.right in
            let all = carry_captured chain origin (fresh (I.coming idents.old)) (captured_packet packet.entry) in
            OnOk result (HasComing (I.coming idents.new) all) }
        ensures cause { result ≡ Err ChainFault.WriteFault → WriteFailedIn (name_in outs.entry) (F.meaning files.old) (F.meaning files.new) }
        ensures only { Touches (F.meaning files.old) (F.meaning files.new) [] (names_in outs.entry) }
        ensures devices { self.new.devices ≡ self.old.devices }
        ensures left { self.new.left ≡ self.old.left }
        ensures right { self.new.right ≡ self.old.right }
    {
        let trip = Trip {
            devices: &self.devices,
            left: self.left,
            right: self.right,
            origin,
            outs,
        };
        let mut counts = Counts::none();
        let wanted = family_at(origin.end, self.left, self.right);
        match packet_or_rule(wanted, packet) {
            Ok(bytes) => {
                self.buf.load(bytes);
                let at = Place::entering(origin.end, trip.devices.len());
                follow(
                    &trip,
                    at,
                    &mut self.buf,
                    &mut self.spares,
                    files,
                    idents,
                    &mut counts,
                )?;
            }
            Err(rule) => {
                let line = report_line(&origin, 0, rule, false);
                write(files, &outs, Output::Report, line.as_str().as_bytes())?;
                counts.count_drop();
            }
        }
        Ok(counts)
    }
}

/// The bytes of a captured packet that are looked at, or the rule that drops it before any device.
fn packet_or_rule(wanted: Family, packet: Option<(Family, &[u8])>) -> Result<&[u8], Rule>
    ensures value { bytes_or_rule result ≡ judged wanted (captured_packet packet.entry) }
    ensures most { IfOk result (λ bytes. length bytes.now ≤ 65575) }
{
    let Some((family, bytes)) = packet else {
        return Err(Rule::NotIp);
    };
    if !is_same(family, wanted) {
        return Err(Rule::OtherFamily);
    }
    Ok(&bytes[..bytes.len().min(MOST_BYTES)])
}

fn is_same(family: Family, wanted: Family) -> bool
    ensures { result ≡ is_family family wanted }
{
    match family {
        Family::Four => matches!(wanted, Family::Four),
        Family::Six => matches!(wanted, Family::Six),
    }
}

/// The family of the link at an end.
fn family_at(end: End, left: Family, right: Family) -> Family
    ensures { result ≡ family_at end left right }
{
    match end {
        End::Left => left,
        End::Right => right,
    }
}
