//! One device meets one packet.
ghost use Rattle.std.specs.Prelude.{◌≡◌, ◌+◌, ◌<◌, ◌≤◌, [], length, Some, IfOk, OnErr};
ghost use Rattle.siit_chain.specs.Carried.{event, place_met, user_if};
ghost use Rattle.siit_chain.specs.Log.{text_of};
ghost use Rattle.siit_chain.specs.Outputs.{name_in, names_in, AreApart, GrewByPart, WriteFailedIn};
ghost use Rattle.siit_word.specs.Files.{Touches};
ghost use Rattle.siit_carry.specs.Happenings.{Happens};
ghost use Rattle.siit_carry.specs.Steps.{chain_on, packet_at, IsUsed};

use crate::place::{Place, Trip};
use crate::write::write;
use siit_chain::{Counts, Device, Output, Verdict, report_line};
use siit_fragments::CutPlan;
use siit_rules::Rule;
use siit_views::PacketBuf;
use siit_word::{Failed, Files, Idents};

/// The free room before a packet that a device asks for.
const ROOM: usize = 96;

/// What follows an event.
pub(crate) enum Next {
    /// Nothing of the packet is left.
    Ended,
    /// The packet in the buffer goes on from here.
    Moves(Place),
    /// The pieces of the packet in the buffer go on from here.
    Cut { plan: CutPlan, to: Place },
}

/// Makes the device at a place translate the packet in the buffer, and writes the line of a drop.
pub(crate) fn meet<D: Device, F: Files, I: Idents>(
    trip: &Trip<'_, D>,
    at: Place,
    place: usize,
    buf: &mut PacketBuf,
    files: &mut F,
    idents: &mut I,
    counts: &mut Counts,
) -> Result<Next, Failed>
    requires apart { AreApart (name_in trip.now.outs) }
    requires few { length trip.now.devices.now < 256 }
    requires link { at.link ≤ length trip.now.devices.now }
    requires meets { place_met (length trip.now.devices.now) at.link at.to ≡ Some place }
    ensures happens { let e = event (chain_on D.outcome D.measure trip.now) trip.now.origin (I.coming idents.old) (packet_at at buf.old.bytes) in
        IfOk result (λ next. Happens (name_in trip.now.outs) (F.meaning files.old) (F.meaning files.new) (I.coming idents.old) (I.coming idents.new)
        counts.old counts.new (length trip.now.devices.now) next buf.new.bytes e) }
    ensures err { let e = event (chain_on D.outcome D.measure trip.now) trip.now.origin (I.coming idents.old) (packet_at at buf.old.bytes) in
        OnErr result (GrewByPart (name_in trip.now.outs) (F.meaning files.old) (F.meaning files.new) (text_of e.log)) }
    ensures cause { OnErr result (WriteFailedIn (name_in trip.now.outs) (F.meaning files.old) (F.meaning files.new)) }
    ensures only { Touches (F.meaning files.old) (F.meaning files.new) [] (names_in trip.now.outs) }
{
    make_room(buf);
    let device = (place + 1) as u8;
    let ident = idents.peek(device);
    let translator = &trip.devices[place];
    match translator.translate(at.to.other(), buf, ident) {
        Verdict::Through { used } => {
            use_up(idents, device, used);
            Ok(Next::Moves(at.onward()))
        }
        Verdict::Turned => Ok(Next::Moves(at.back())),
        Verdict::Pieces { plan, used } => {
            use_up(idents, device, used);
            let to = at.onward();
            Ok(Next::Cut { plan, to })
        }
        Verdict::Dropped { rule, answered } => {
            let line = report_line(&trip.origin, device, rule, answered);
            write(files, &trip.outs, Output::Report, line.as_str().as_bytes())?;
            counts.count_drop();
            if answered {
                Ok(Next::Moves(at.back()))
            } else {
                Ok(Next::Ended)
            }
        }
    }
}

/// Makes room for a longer header.
fn make_room(buf: &mut PacketBuf)
    ensures bytes { buf.new.bytes ≡ buf.old.bytes }
    ensures room { 96 ≤ buf.new.front }
{
    if buf.front() < ROOM {
        buf.recentre();
    }
}

/// Takes a device's next number, where it was used.
fn use_up<I: Idents>(idents: &mut I, device: u8, used: bool)
    ensures { IsUsed (user_if used device) (I.coming idents.old) (I.coming idents.new) }
{
    if used {
        idents.take(device);
    }
}
