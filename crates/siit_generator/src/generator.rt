//! The packets of a generated capture, made one after another in a packet buffer.
ghost use Rattle.std.specs.Prelude.{◌≡◌, ◌<◌, ◌≤◌, ◌+◌, ◌*◌, ◌/◌, ◌%◌, length};
ghost use Rattle.siit_generator.specs.Generated.{data_of, datagram, datagram_checksum, datagram_header, drawn, generated_packet, next_state, udp_packet};
ghost use Rattle.siit_model.specs.Ipv4.{ipv4_bytes};

use siit_addr::Addr4;
use siit_checksum::{pseudo_sum4, sum_of};
use siit_upper::UDP;
use siit_views::{Fields4, PacketBuf, ipv4_header, replace_front};
use siit_word::put16;

/// The most bytes of data in a packet, so that it has 1,500 bytes at most.
const MOST_DATA: usize = 1472;

/// How many lengths a packet's data may have.
const LENGTHS: u64 = MOST_DATA as u64 + 1;

/// The factor of the generator of numbers.
const FACTOR: u64 = 6364136223846793005;

/// What it adds.
const STEP: u64 = 1442695040888963407;

/// The packets of a capture to come: the number of the next one, and the state behind the last one.
#[derive(Clone, Copy, Debug, PartialEq, Eq)]
pub struct Generator {
    pub number: u32,
    pub state: u64,
}

/// The time of a record.
#[derive(Clone, Copy, Debug, PartialEq, Eq)]
pub struct Time {
    pub seconds: u32,
    pub nanos: u32,
}

impl Generator {
    /// All packets that come of a seed.
    pub fn new(seed: u64) -> Generator
        ensures number { result.number ≡ 0 }
        ensures state { result.state ≡ seed }
    {
        Generator {
            number: 0,
            state: seed,
        }
    }

    /// Makes the next packet, a UDP packet of 28 to 1,500 bytes with right checksums, and tells the time of its record.
    /// It lies behind at least 228 free bytes.
    pub fn make_packet(&mut self, buf: &mut PacketBuf) -> Time
        requires few { self.old.number < 4294967295 }
        ensures packet { buf.new.bytes ≡ ipv4_bytes (generated_packet self.old.number (drawn (next_state self.old.state))) }
        ensures front { buf.new.front ≡ 228 }
        ensures most { length buf.new.bytes ≤ 1500 }
        ensures seconds { result.seconds ≡ self.old.number / 1000 }
        ensures nanos { result.nanos ≡ self.old.number % 1000 * 1000000 }
        ensures number { self.new.number ≡ self.old.number + 1 }
        ensures state { self.new.state ≡ next_state self.old.state }
    {
        let number = self.number;
        self.state = next_state(self.state);
        self.number += 1;
        load_packet(buf, number, self.state / 65536);
        Time {
            seconds: number / 1000,
            nanos: number % 1000 * 1_000_000,
        }
    }
}

/// The state of the generator of numbers behind this one.
fn next_state(state: u64) -> u64
    ensures { result ≡ next_state state }
{
    state.wrapping_mul(FACTOR).wrapping_add(STEP)
}

/// Makes the packet of this number for which this was drawn.
fn load_packet(buf: &mut PacketBuf, number: u32, draw: u64)
    requires { draw < 281474976710656 }
    ensures packet { buf.new.bytes ≡ ipv4_bytes (generated_packet number draw) }
    ensures front { buf.new.front ≡ 228 }
    ensures most { length buf.new.bytes ≤ 1500 }
{
    let len = (draw % LENGTHS) as u16;
    let pick = draw / LENGTHS;
    let hosts = pick / 2;
    let src = Addr4(0x0808_0400 + (hosts % 254 + 1) as u32);
    let dst = Addr4(0xc000_0200 + (hosts / 254 % 4 + 1) as u32);
    load_datagram(buf, number, len, src, dst);
    put_header(buf, (number % 65536) as u16, pick % 2 == 1, src, dst);
}

/// Puts the IPv4 header before a datagram.
fn put_header(buf: &mut PacketBuf, id: u16, df: bool, src: Addr4, dst: Addr4)
    requires room { 20 ≤ buf.old.front }
    requires fits { length buf.old.bytes ≤ 65515 }
    ensures packet { buf.new.bytes ≡ ipv4_bytes (udp_packet id df src.0 dst.0 buf.old.bytes) }
    ensures len { length buf.new.bytes ≡ 20 + length buf.old.bytes }
    ensures front { buf.new.front + 20 ≡ buf.old.front }
{
    let total = 20 + buf.bytes().len() as u16;
    let fields = Fields4 {
        tos: 0,
        id,
        df,
        more: false,
        offset: 0,
        ttl: 64,
        protocol: UDP,
        src,
        dst,
    };
    replace_front(buf, 0, &ipv4_header(&fields, total));
}

/// Loads the UDP datagram of the packet of this number, with so many bytes of data, between these hosts.
fn load_datagram(buf: &mut PacketBuf, number: u32, len: u16, src: Addr4, dst: Addr4)
    requires { len ≤ 1472 }
    ensures datagram { buf.new.bytes ≡ datagram number len src.0 dst.0 }
    ensures len { length buf.new.bytes ≡ 8 + len }
    ensures front { buf.new.front ≡ 248 }
{
    load_data(buf, number, len);
    let sum = checksum(buf.bytes(), number, len, src, dst);
    replace_front(buf, 0, &header(number, len, sum));
}

/// Loads the data of a packet.
fn load_data(buf: &mut PacketBuf, number: u32, len: u16)
    requires { len ≤ 1472 }
    ensures holds { buf.new.bytes ≡ data_of number len }
    ensures len { length buf.new.bytes ≡ len }
    ensures front { buf.new.front ≡ 256 }
{
    let mut room = [0u8; MOST_DATA];
    let part = &mut room[..usize::from(len)];
    fill(part, number);
    buf.load(part);
}

/// Fills a room with data.
fn fill(room: &mut [u8], number: u32)
    requires { length room.old ≤ 1472 }
    ensures { room.new ≡ data_of number (length room.old) }
{
    for place in 0..room.len() {
        room[place] = ((number % 256 + place as u32) % 256) as u8;
    }
}

/// The checksum of the datagram with this data. It isn't 0.
fn checksum(bytes: &[u8], number: u32, len: u16, src: Addr4, dst: Addr4) -> u16
    requires holds { bytes.now ≡ data_of number len }
    requires len { len ≤ 1472 }
    ensures { result ≡ datagram_checksum number len src.0 dst.0 }
{
    let pseudo = pseudo_sum4(src.0, dst.0, UDP, 8 + len);
    let blank = sum_of(&header(number, len, 0));
    let sum = u32::from(pseudo) + u32::from(blank) + u32::from(sum_of(bytes));
    (65535 - sum % 65535) as u16
}

/// The header of the datagram.
fn header(number: u32, len: u16, checksum: u16) -> [u8; 8]
    requires { len ≤ 1472 }
    ensures { result ≡ datagram_header number len checksum }
{
    let mut header = [0u8; 8];
    put16(&mut header, 0, 1024 + (number % 64000) as u16);
    put16(&mut header, 2, 53);
    put16(&mut header, 4, 8 + len);
    put16(&mut header, 6, checksum);
    header
}
