//! The lines that `discover` prints: a prefix each, or that there is none.
ghost use Rattle.std.specs.Prelude.{◌≡◌, ◌++◌, IfOk, OnOk, map};
ghost use Rattle.std.specs.String.{string_bytes};
ghost use Rattle.siit_discovery.specs.Seen.{prefix_seen};
ghost use Rattle.siit_top.specs.DiscoverRun.{prefix_line, prefix_lines};

use siit_addr::{Prefix6, write_prefix6};
use std::alloc::{AllocError, Global};

/// The lines of these prefixes.
pub(crate) fn lines_of(alloc: Global, prefixes: &[Prefix6]) -> Result<String, AllocError>
    ensures { IfOk result (λ lines. string_bytes lines ≡ prefix_lines (map prefix_seen prefixes.now)) }
{
    if prefixes.is_empty() {
        return String::from_str(alloc, "none\n");
    }
    let mut lines = String::new(alloc);
    for prefix in prefixes {
        push_line(&mut lines, *prefix)?;
    }
    Ok(lines)
}

// Appends the line of a prefix.
#[tactic(auto, using(std::proofs::Common::append_assoc))]
fn push_line(lines: &mut String, prefix: Prefix6) -> Result<(), AllocError>
    ensures { OnOk result (string_bytes lines.new ≡ string_bytes lines.old ++ prefix_line (prefix_seen prefix)) }
{
    lines.push_str(write_prefix6(prefix).as_str())?;
    lines.push('\n')?;
    Ok(())
}
