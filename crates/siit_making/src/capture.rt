//! A generated capture that is made part by part: its head, and then record after record.
ghost use Rattle.std.specs.Prelude.{◌≡◌, ◌+◌, ◌<◌, ◌≤◌, ◌-◌, ◌⊎◌, [], Some, length, take, drop, min, nat_lt, IfOk};
ghost use Rattle.siit_capture.specs.Written.{written_record};
ghost use Rattle.siit_generator.specs.Generated.{drawn, generated_record, next_state};
ghost use Rattle.siit_making.specs.Captures.{generated_capture};
ghost use Rattle.siit_making.specs.Parts.{first_part, later, stepped};
ghost use Rattle.siit_word.specs.Files.{Copies};

use siit_capture::{capture_head, record_head};
use siit_generator::Generator;
use siit_views::{PacketBuf, replace_front};
use siit_word::NoMemory;
use std::alloc::Global;
use std::marker::Model;

/// The most packets that a capture is generated with.
pub const MOST_GENERATED: u32 = 100_000;

/// A generated capture of which one part at a time lies in memory: its head, or one of its records.
#[derive(Drop)]
pub struct GeneratedCapture {
    count: u32,
    seed: u64,
    place: u64,
    hand: PacketBuf,
    generator: Generator,
}

impl Model for GeneratedCapture {
    ghost use Rattle.siit_making.specs.Parts.{AreParts, Parts, parts_at};

    ghost Value = { Parts };

    ghost view = { λ c. parts_at c.count c.seed c.place c.hand.bytes c.generator.number c.generator.state };

    ghost invariant = { λ c. AreParts (parts_at c.count c.seed c.place c.hand.bytes c.generator.number c.generator.state) };
}

impl GeneratedCapture {
    /// The capture of so many packets, at most 100,000, by a seed. All memory that making it takes is taken here.
    pub fn new(alloc: Global, count: u32, seed: u64) -> Result<GeneratedCapture, NoMemory>
        requires { count ≤ 100000 }
        ensures { IfOk result (λ capture. capture ≡ first_part count seed) }
    {
        let mut hand = PacketBuf::new(alloc)?;
        hand.load(&capture_head());
        Ok(GeneratedCapture {
            count,
            seed,
            place: 0,
            hand,
            generator: Generator::new(seed),
        })
    }

    /// Begins again with the head.
    pub(crate) fn start_over(&mut self)
        ensures first { self.new ≡ first_part self.old.count self.old.seed }
        ensures few { self.old.count ≤ 100000 }
    {
        self.place = 0;
        self.hand.load(&capture_head());
        self.generator = Generator::new(self.seed);
    }

    /// Makes the next record, and says whether there was one.
    pub(crate) fn step(&mut self) -> bool
        ensures more { result ≡ nat_lt self.old.made self.old.count }
        ensures stepped { self.new ≡ stepped self.old }
    {
        if self.generator.number == self.count {
            return false;
        }
        self.place += self.hand.bytes().len() as u64;
        load_record(&mut self.generator, &mut self.hand);
        true
    }

    /// The part at hand.
    pub(crate) fn bytes(&self) -> &[u8]
        ensures { result.now ≡ self.now.hand }
    {
        self.hand.bytes()
    }

    /// Copies bytes of the capture, from the place `at` on, to the front of `into`, and says how many: those of one
    /// part at most, and none only behind the end. Who reads on from where the last call ended has each part made once.
    /// For a place before the part at hand the capture is made again from its start.
    pub(crate) fn read(&mut self, at: u64, into: &mut [u8]) -> usize
        ensures bound { result ≤ length into.new }
        ensures copied { Copies (Some (generated_capture self.old.count self.old.seed)) at result into.new }
        ensures few { self.new.count ≤ 100000 }
        ensures count { self.new.count ≡ self.old.count }
        ensures seed { self.new.seed ≡ self.old.seed }
    {
        self.go_to(at);
        copy_from(self.hand.bytes(), at - self.place, into)
    }

    /// Goes to the part in which a place lies, or to the last one.
    fn go_to(&mut self, at: u64)
        ensures before { self.new.place ≤ at }
        ensures inside { later self.new ≡ [] ⊎ (at < self.new.place + length self.new.hand) }
        ensures count { self.new.count ≡ self.old.count }
        ensures seed { self.new.seed ≡ self.old.seed }
    {
        if at < self.place {
            self.start_over();
        }
        while at - self.place >= self.hand.bytes().len() as u64 {
            if !self.step() {
                return;
            }
        }
    }
}

/// Makes the next record of a generator in a packet buffer.
fn load_record(generator: &mut Generator, hand: &mut PacketBuf)
    requires { generator.old.number < 100000 }
    ensures bytes { hand.new.bytes ≡ written_record (generated_record generator.old.number (drawn (next_state generator.old.state))) }
    ensures short { length hand.new.bytes ≤ 1516 }
    ensures number { generator.new.number ≡ generator.old.number + 1 }
    ensures state { generator.new.state ≡ next_state generator.old.state }
{
    let time = generator.make_packet(hand);
    let len = hand.bytes().len() as u32;
    replace_front(hand, 0, &record_head(time.seconds, time.nanos, len));
}

/// Copies what is there from a place on and fits, and says how much.
fn copy_from(bytes: &[u8], from: u64, into: &mut [u8]) -> usize
    ensures count { result ≡ min (length into.old) (length bytes.now - from) }
    ensures copied { take result into.new ≡ take result (drop from bytes.now) }
{
    if from >= bytes.len() as u64 {
        return 0;
    }
    let rest = &bytes[from as usize..];
    let count = rest.len().min(into.len());
    into[..count].copy_from_slice(&rest[..count]);
    count
}
