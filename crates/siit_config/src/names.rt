//! The texts of a configuration.
ghost use Rattle.std.specs.Prelude.{◌≡◌};
ghost use Rattle.siit_config.specs.Texts.{
  clean_prefix_of,
  either_name,
  embedding_of,
  is_local_to,
  local_embedding_of,
  mapping_entry_of,
  role_of,
};

use siit_addr::{Prefix4, read_prefix4, read_prefix6};
use siit_eamt::Eam;
use siit_rfc6052::Embed;
use siit_roles::Role;

pub(crate) fn role_of(text: &str) -> Option<Role>
    ensures { result ≡ role_of text.now }
{
    match text {
        "plain" => Some(Role::Plain),
        "border" => Some(Role::Border),
        "edge" => Some(Role::Edge),
        "customer" => Some(Role::Customer),
        _ => None,
    }
}

/// False for the first name, true for the second.
pub(crate) fn either_name(off: &str, on: &str, text: &str) -> Option<bool>
    ensures { result ≡ either_name off.now on.now text.now }
{
    if text == off {
        Some(false)
    } else if text == on {
        Some(true)
    } else {
        None
    }
}

pub(crate) fn clean_prefix_of(text: &str) -> Option<Prefix4>
    ensures { result ≡ clean_prefix_of text.now }
{
    let prefix = read_prefix4(text)?;
    if prefix.is_clean() {
        Some(prefix)
    } else {
        None
    }
}

/// The prefix that a text writes, where IPv4 addresses are embedded under such a prefix (RFC 6052 section 2.2).
pub fn embedding_of(text: &str) -> Option<Embed>
    ensures { result ≡ embedding_of text.now }
{
    Embed::new(read_prefix6(text)?).ok()
}

/// A prefix that may stand for local addresses beside the provider's prefix.
pub(crate) fn local_embedding_of(provider: &Embed, text: &str) -> Option<Embed>
    ensures { result ≡ local_embedding_of provider.now text.now }
{
    let embed = embedding_of(text)?;
    if is_local_to(provider, &embed) {
        Some(embed)
    } else {
        None
    }
}

fn is_local_to(provider: &Embed, embed: &Embed) -> bool
    ensures { result ≡ is_local_to provider.now embed.now }
{
    !embed.is_well_known() && !embed.prefix().overlaps(&provider.prefix())
}

pub(crate) fn mapping_entry_of(first: &str, second: &str) -> Option<Eam>
    ensures { result ≡ mapping_entry_of (first.now, second.now) }
{
    Some(Eam {
        p4: read_prefix4(first)?,
        p6: read_prefix6(second)?,
    })
}
