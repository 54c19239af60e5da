//! An engine as a device of a chain.
ghost use Rattle.siit_chain.specs.Verdicts.{Means};
ghost use Rattle.siit_engine.specs.Placed.{outcome_at};
ghost use Rattle.siit_model.specs.Bytes.{AreBytes};
ghost use Rattle.std.specs.Prelude.{◌≡◌, ◌<◌, ◌≤◌};

use crate::engine::Engine;
use siit_chain::{Device, End, Verdict};
use siit_eamt::Steps;
use siit_views::PacketBuf;
use std::marker::Brand;
use std::sync::ledger::{Blank, Ledger};

impl Device for Engine {
    ghost use Rattle.siit_engine.specs.Falling.{engine_falls};
    ghost use Rattle.siit_engine.specs.Placed.{life_of, outcome_at};

    ghost outcome = { outcome_at };

    ghost measure = { life_of };

    fn translate(&self, side: End, buf: &mut PacketBuf, ident: u16) -> Verdict {
        translate_by::<Brand>(self, side, buf, ident, Blank::new(1))
    }

    ghost falls = { engine_falls };
}

/// What a device makes of a packet that arrives on a side. The steps are counted by this ledger, and told to nobody.
fn translate_by<L: Ledger>(
    engine: &Engine,
    side: End,
    buf: &mut PacketBuf,
    ident: u16,
    blank: Blank,
) -> Verdict
    requires room { 96 ≤ buf.old.front }
    requires name { blank.name ≡ L.name }
    requires parts { blank.parts ≡ L.parts }
    requires some { 0 < blank.parts }
    ensures { Means result buf.new.bytes (outcome_at engine.now side buf.old.bytes ident) }
{
    are_bytes(buf.bytes());
    let mut steps = Steps::<L>::new(blank);
    engine.translate(engine.family_on(side), buf, ident, &mut steps)
}

/// What is known of a slice of bytes: each is below 256.
fn are_bytes(bytes: &[u8])
    ensures { AreBytes bytes.now }
{}
