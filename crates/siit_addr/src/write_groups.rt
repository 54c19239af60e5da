//! Groups of IPv6 addresses, written.
ghost use Rattle.std.specs.Prelude.{◌≡◌, ◌+◌, ◌*◌, ◌/◌, ◌%◌, ◌^◌, ◌<◌, ◌≤◌, ◌++◌, length};
ghost use Rattle.arrayvec.specs.ArrayString.{array_string_len};
ghost use Rattle.siit_addr.specs.Canonical.{groups_of_number, joined, longest_run, first_run};

use crate::addr::Addr6;
use crate::write_digits::push_group;
use arrayvec::ArrayString;

/// The eight groups of an address.
pub(crate) fn groups_of(a: Addr6) -> [u16; 8]
    ensures { result ≡ groups_of_number a.0 }
{
    [
        group_at(a.0, 112),
        group_at(a.0, 96),
        group_at(a.0, 80),
        group_at(a.0, 64),
        group_at(a.0, 48),
        group_at(a.0, 32),
        group_at(a.0, 16),
        (a.0 % 65536) as u16,
    ]
}

fn group_at(address: u128, shift: u32) -> u16
    requires { shift < 128 }
    ensures { result ≡ address / 2 ^ shift % 65536 }
{
    ((address >> shift) % 65536) as u16
}

/// The place and the length of the longest run of zero groups, the first of those of equal length (RFC 5952 section
/// 4.2.3).
pub(crate) fn longest_zero_run(groups: &[u16]) -> (usize, usize)
    ensures len { result.1 ≡ longest_run groups.now }
    ensures place { result.0 ≡ first_run result.1 groups.now }
    ensures within { result.0 + result.1 ≤ length groups.now }
{
    let mut at = groups.len();
    let mut zeros = 0;
    let mut place = at;
    let mut longest = 0;
    while at > 0 {
        at -= 1;
        zeros = if groups[at] == 0 { zeros + 1 } else { 0 };
        if zeros >= longest {
            place = at;
            longest = zeros;
        }
    }
    (place, longest)
}

/// Writes groups with a colon between them.
pub(crate) fn push_groups<const CAP: usize>(text: &mut ArrayString<CAP>, groups: &[u16])
    requires { array_string_len text.old + 5 * length groups.now ≤ CAP + 1 }
    ensures bytes { text.new.bytes ≡ text.old.bytes ++ joined groups.now }
    ensures len { array_string_len text.new ≤ array_string_len text.old + 5 * length groups.now }
{
    let [first, rest @ ..] = groups else {
        return;
    };
    push_group(text, *first);
    for group in rest {
        text.push(':');
        push_group(text, *group);
    }
}
