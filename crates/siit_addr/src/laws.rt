//! Laws of texts, each the contract of a function with no body.
ghost use Rattle.std.specs.Prelude.{ℕ, ◌≡◌, ◌<◌, ◌^◌, Some};
ghost use Rattle.siit_addr.specs.Prefixes.{prefix6_of_text};
ghost use Rattle.siit_addr.specs.Texts.{ipv4_of_text, ipv6_of_text};
ghost use Rattle.siit_addr.specs.declared.addr.Prefix6.{Prefix6};
ghost use Rattle.siit_addr.specs.Canonical.{ipv4_text, ipv6_text, prefix6_text};

/// What `write_addr4` writes of an address, `read_addr4` reads as that address. There is nothing to run.
pub fn ipv4_texts_are_read_again()
    ensures { (a : ℕ) → a < 2 ^ 32 → ipv4_of_text (ipv4_text a) ≡ Some a }
{}

/// What `write_addr6` writes of an address, `read_addr6` reads as that address. There is nothing to run.
pub fn ipv6_texts_are_read_again()
    ensures { (a : ℕ) → a < 2 ^ 128 → ipv6_of_text (ipv6_text a) ≡ Some a }
{}

/// What `write_prefix6` writes of a prefix, `read_prefix6` reads as that prefix. There is nothing to run.
pub fn prefix6_texts_are_read_again()
    ensures { (p : Prefix6) → p.addr.0 < 2 ^ 128 → prefix6_of_text (prefix6_text p.addr.0 p.len) ≡ Some p }
{}
