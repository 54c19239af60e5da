//! Source routes among the options of an IPv4 header (RFC 791 section 3.1).
ghost use Rattle.siit_device.specs.Options as model;
ghost use Rattle.siit_model.specs.Bytes.{field8};
ghost use Rattle.std.specs.Prelude.{◌≡◌, ◌≤◌, ◌==◌, length, drop, true, false};

/// No operation: an option of one byte.
const NO_OPERATION: u8 = 1;

/// Whether a source route that hasn't expired stands among the options: its pointer isn't behind its last byte. A route
/// too short to have a pointer ends the list.
#[tactic(auto, using(crate::proofs::Routes::byte_turn, crate::proofs::Routes::short_route, crate::proofs::Routes::live_route))]
pub(crate) fn has_route(options: &[u8]) -> bool
    ensures { result ≡ model.has_route options.now }
{
    if is_no_operation(options) {
        return has_route(&options[1..]);
    }
    if ends(options) {
        return false;
    }
    let rest = behind_option(options);
    if !is_route(options[0]) {
        return has_route(rest);
    }
    if options[1] < 3 {
        return false;
    }
    options[2] <= options[1] || has_route(rest)
}

/// Whether an option of one byte stands here.
fn is_no_operation(options: &[u8]) -> bool
    ensures is { result ≡ (field8 options.now 0 == 1) }
    ensures there { result ≡ true → 1 ≤ length options.now }
{
    !options.is_empty() && options[0] == NO_OPERATION
}

/// Whether no option stands here: the end of the list, or a length that is missing, below 2 or past the header.
fn ends(options: &[u8]) -> bool
    ensures ends { result ≡ model.ends_options options.now }
    ensures two { result ≡ false → 2 ≤ field8 options.now 1 }
    ensures inside { result ≡ false → field8 options.now 1 ≤ length options.now }
{
    options.is_empty()
        || options[0] == 0
        || options.len() < 2
        || options[1] < 2
        || options.len() < usize::from(options[1])
}

/// The options behind the first, whose length is within them.
fn behind_option(options: &[u8]) -> &[u8]
    requires there { 2 ≤ length options.now }
    requires inside { field8 options.now 1 ≤ length options.now }
    ensures { result.now ≡ drop (field8 options.now 1) options.now }
{
    &options[usize::from(options[1])..]
}

/// Loose and Strict Source and Record Route.
fn is_route(kind: u8) -> bool
    ensures { result ≡ model.is_route kind }
{
    matches!(kind, 131 | 137)
}
