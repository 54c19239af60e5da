//! What is written: records of packets that leave a chain, and lines of drops.
ghost use Rattle.std.specs.Prelude.{◌≡◌, [], ◌∷◌, OnOk, OnErr};
ghost use Rattle.siit_chain.specs.Log.{leaves, text_of};
ghost use Rattle.siit_chain.specs.Outputs.{only, name_in, names_in, AreApart, GrewBy, GrewByPart, WriteFailedIn};
ghost use Rattle.siit_word.specs.Files.{Touches};

use crate::place::Trip;
use siit_capture::record_head;
use siit_chain::{End, Output, Outs};
use siit_views::{PacketBuf, replace_front};
use siit_word::{Failed, Files, append_all};

/// The most bytes that a packet may have so that a record's head fits before it in the buffer.
const MOST_BEHIND_HEAD: usize = 65_559;

/// Adds bytes to the file that takes a text, if there is one.
pub fn write<F: Files>(
    files: &mut F,
    outs: &Outs<'_>,
    output: Output,
    bytes: &[u8],
) -> Result<(), Failed>
    requires { AreApart (name_in outs.now) }
    ensures ok { OnOk result (GrewBy (name_in outs.now) (F.meaning files.old) (F.meaning files.new) (only output bytes.now)) }
    ensures err { OnErr result (GrewByPart (name_in outs.now) (F.meaning files.old) (F.meaning files.new) (only output bytes.now)) }
    ensures cause { OnErr result (WriteFailedIn (name_in outs.now) (F.meaning files.old) (F.meaning files.new)) }
    ensures only { Touches (F.meaning files.old) (F.meaning files.new) [] (names_in outs.now) }
{
    match outs.name_of(output) {
        Some(name) => append_all(files, name, bytes),
        None => Ok(()),
    }
}

/// Writes the record of the packet in the buffer, which leaves the chain. What the buffer holds then isn't told.
pub(crate) fn write_packet<D, F: Files>(
    trip: &Trip<'_, D>,
    to: End,
    buf: &mut PacketBuf,
    files: &mut F,
) -> Result<(), Failed>
    requires { AreApart (name_in trip.now.outs) }
    ensures ok { let log = leaves trip.now.origin to buf.old.bytes ∷ [] in
        OnOk result (GrewBy (name_in trip.now.outs) (F.meaning files.old) (F.meaning files.new) (text_of log)) }
    ensures err { let log = leaves trip.now.origin to buf.old.bytes ∷ [] in
        OnErr result (GrewByPart (name_in trip.now.outs) (F.meaning files.old) (F.meaning files.new) (text_of log)) }
    ensures cause { OnErr result (WriteFailedIn (name_in trip.now.outs) (F.meaning files.old) (F.meaning files.new)) }
    ensures only { Touches (F.meaning files.old) (F.meaning files.new) [] (names_in trip.now.outs) }
{
    let len = buf.bytes().len();
    let head = record_head(trip.origin.seconds, trip.origin.nanos, len as u32);
    let output = to.output();
    if buf.front() >= 16 && len <= MOST_BEHIND_HEAD {
        replace_front(buf, 0, &head);
        return write(files, &trip.outs, output, buf.bytes());
    }
    write(files, &trip.outs, output, &head)?;
    write(files, &trip.outs, output, buf.bytes())
}
