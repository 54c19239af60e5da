//! A packet is carried to its end, with all that comes of it.
ghost use Rattle.std.specs.Prelude.{◌≡◌, ◌<◌, ◌≤◌, [], length, OnOk, OnErr, Err};
ghost use Rattle.siit_chain.specs.Carried.{carry, fresh};
ghost use Rattle.siit_chain.specs.Log.{text_of};
ghost use Rattle.siit_chain.specs.Outputs.{name_in, names_in, AreApart, GrewByPart, WriteFailedIn};
ghost use Rattle.siit_word.specs.Files.{Touches};
ghost use Rattle.siit_carry.specs.Happenings.{IsDone};
ghost use Rattle.siit_carry.specs.Steps.{chain_on, packet_at};

use crate::chain::ChainFault;
use crate::meet::{Next, meet};
use crate::place::{Place, Trip};
use crate::spares::Spares;
use crate::write::write_packet;
use siit_chain::{Counts, Device};
use siit_fragments::piece;
use siit_views::PacketBuf;
use siit_word::{Files, Idents};

/// Carries the packet in the buffer to its end, and each packet that comes of it, in order, each to its end before the
/// next. The call is as deep as events come one after another, which a packet's hop limit bounds.
pub(crate) fn follow<D: Device, F: Files, I: Idents>(
    trip: &Trip<'_, D>,
    at: Place,
    buf: &mut PacketBuf,
    spares: &mut Spares,
    files: &mut F,
    idents: &mut I,
    counts: &mut Counts,
) -> Result<(), ChainFault>
    requires apart { AreApart (name_in trip.now.outs) }
    requires few { length trip.now.devices.now < 256 }
    requires link { at.link ≤ length trip.now.devices.now }
    ensures done { let all = carry (chain_on D.outcome D.measure trip.now) trip.now.origin (fresh (I.coming idents.old)) (packet_at at buf.old.bytes) in
        OnOk result (IsDone (name_in trip.now.outs) (F.meaning files.old) (F.meaning files.new) (I.coming idents.new) counts.old counts.new all) }
    ensures err { let all = carry (chain_on D.outcome D.measure trip.now) trip.now.origin (fresh (I.coming idents.old)) (packet_at at buf.old.bytes) in
        OnErr result (GrewByPart (name_in trip.now.outs) (F.meaning files.old) (F.meaning files.new) (text_of all.log)) }
    ensures cause { result ≡ Err ChainFault.WriteFault → WriteFailedIn (name_in trip.now.outs) (F.meaning files.old) (F.meaning files.new) }
    ensures only { Touches (F.meaning files.old) (F.meaning files.new) [] (names_in trip.now.outs) }
{
    let Some(place) = at.met(trip.devices.len()) else {
        write_packet(trip, at.to, buf, files)?;
        counts.count_packet(at.to);
        return Ok(());
    };
    match meet(trip, at, place, buf, files, idents, counts)? {
        Next::Ended => Ok(()),
        Next::Moves(to) => follow(trip, to, buf, spares, files, idents, counts),
        Next::Cut { plan, to } => {
            let mut part = spares.take()?;
            for k in 0..plan.count {
                piece(buf, &plan, k, &mut part);
                follow(trip, to, &mut part, spares, files, idents, counts)?;
            }
            spares.keep(part);
            Ok(())
        }
    }
}
