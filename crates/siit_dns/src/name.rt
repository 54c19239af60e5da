//! Names, written out without pointers (RFC 1035 sections 3.1 and 4.1.4).
ghost use Rattle.std.specs.Prelude.{◌≡◌, ◌+◌, ◌-◌, ◌^◌, ◌<◌, ◌≤◌, ◌++◌, IsNone, IfSome, is_some, if◌then◌else◌, option_map, length};
ghost use Rattle.arrayvec.specs.ArrayVec.{array_vec_len};
ghost use Rattle.siit_model.specs.Bytes.{part};
ghost use Rattle.siit_dns.specs.Names.{is_same_name, name_at, run_at};
ghost use Rattle.siit_dns.specs.Room.{LacksRoom};

use arrayvec::ArrayVec;

/// A name without pointers: its labels, each behind an octet that counts its bytes, and a last zero.
pub type Name = ArrayVec<u8, 255>;

/// Whether two names are the same but for the case of ASCII letters (RFC 1035 section 2.3.3).
pub fn same_name(a: &Name, b: &Name) -> bool
    ensures { result ≡ is_same_name a.now.items b.now.items }
{
    a.as_slice().eq_ignore_ascii_case(b.as_slice())
}

/// The name at a place, and the place behind its first run. None where there is no name.
pub(crate) fn read_name(bytes: &[u8], place: usize) -> Option<(Name, usize)>
    ensures value { option_map (λ x. (x.0.items, x.1)) result ≡ name_at bytes.now place }
    ensures within { IfSome result (λ x. x.1 ≤ length bytes.now) }
    ensures behind { IfSome result (λ x. place < x.1) }
    ensures most { IfSome result (λ x. array_vec_len x.0 ≤ 255) }
{
    let mut name = Name::new();
    let first = push_run(&mut name, bytes, place)?;
    let mut target = first.target;
    let mut limit = place;
    'runs: while let Some(next) = target {
        if next >= limit {
            return None;
        }
        let run = push_run(&mut name, bytes, next)?;
        target = run.target;
        limit = next;
    }
    name.try_push(0).ok()?;
    Some((name, first.behind()))
}

/// Where the labels of a run end, and the place that the pointer behind them names, if it isn't the zero octet.
#[derive(Clone, Copy)]
struct RunEnd {
    end: usize,
    target: Option<usize>,
}

impl RunEnd {
    /// The place behind the zero octet or the pointer.
    fn behind(&self) -> usize
        requires { self.now.end < 2 ^ 63 }
        ensures { result ≡ self.now.end + (if is_some self.now.target then 2 else 1) }
    {
        self.end + if self.target.is_some() { 2 } else { 1 }
    }
}

/// Adds the labels of the run at a place to a name, and says where they end. None where there is no run or no room
/// for it.
fn push_run(name: &mut Name, bytes: &[u8], place: usize) -> Option<RunEnd>
    ensures pushed { IfSome result (λ run. name.new.items ≡ name.old.items ++ part bytes.now place (run.end - place)) }
    ensures run { IfSome result (λ run.
        run_at bytes.now place ≡ Some (record { labels = part bytes.now place (run.end - place); target = run.target })) }
    ensures least { IfSome result (λ run. place ≤ run.end) }
    ensures within { IfSome result (λ run. run.end + (if is_some run.target then 2 else 1) ≤ length bytes.now) }
    ensures none { IsNone result → LacksRoom (array_vec_len name.old) (run_at bytes.now place) }
{
    let run = run_end(bytes, place)?;
    name.try_extend_from_slice(&bytes[place..run.end]).ok()?;
    Some(run)
}

/// The end of the run of labels at a place. None where there is no run.
fn run_end(bytes: &[u8], place: usize) -> Option<RunEnd>
    ensures run { option_map (λ run. record { labels = part bytes.now place (run.end - place); target = run.target }) result
        ≡ run_at bytes.now place }
    ensures least { IfSome result (λ run. place ≤ run.end) }
    ensures within { IfSome result (λ run. run.end + (if is_some run.target then 2 else 1) ≤ length bytes.now) }
{
    let mut rest = bytes.get(place..)?;
    while let [len @ 1..=63, tail @ ..] = rest {
        rest = tail.get(usize::from(*len)..)?;
    }
    let end = bytes.len() - rest.len();
    match rest {
        [0, ..] => Some(RunEnd { end, target: None }),
        [octet @ 192..=255, low, ..] => {
            let target = usize::from(*octet) % 64 * 256 + usize::from(*low);
            Some(RunEnd {
                end,
                target: Some(target),
            })
        }
        _ => None,
    }
}
