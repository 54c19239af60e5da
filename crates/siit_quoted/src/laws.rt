//! Laws of quotes and of the bodies that hold them, each the contract of a function with no body.
ghost use Rattle.siit_quoted.specs.Laws.{Body6HasRoom, ExtensionComesBack, FragmentQuoteComesBack, UpperComesBack, WholeQuoteComesBack};
ghost use Rattle.siit_quoted.specs.Returns.{BodiesComeBack, ExtensionsComeBack};

/// An extension that was carried is found again behind the padded quote (RFC 4884).
pub fn extension_comes_back()
    ensures { ExtensionComesBack }
{}

/// The upper part of a quote comes back from IPv6, its checksum with the same residue.
pub fn upper_comes_back()
    ensures { UpperComesBack }
{}

/// A whole quote that is accepted comes back from IPv6.
pub fn whole_quote_comes_back()
    ensures { WholeQuoteComesBack }
{}

/// A quoted fragment that is accepted on both ways comes back from IPv6.
pub fn fragment_quote_comes_back()
    ensures { FragmentQuoteComesBack }
{}

/// An extension that goes to IPv6 comes back to IPv4 (RFC 4884).
pub fn extensions_come_back()
    ensures { ExtensionsComeBack }
{}

/// The body of an error whose quote is accepted on both ways comes back from IPv6.
pub fn bodies_come_back()
    ensures { BodiesComeBack }
{}

/// An ICMPv6 error with its new body has at most 1280 bytes (RFC 4443 section 2.4).
pub fn body6_has_room()
    ensures { Body6HasRoom }
{}
