//! Packets translated as worked by hand, each table the contract of a function with no body.
ghost use Rattle.siit_v6to4.specs.Examples.{EchoExamples, FragmentExamples, HeaderExamples, OnesExamples, TcpExamples};

/// One TCP packet, with a right and with a wrong checksum.
pub fn tcp_examples()
    ensures { TcpExamples }
{}

/// Checksums of all ones and of zero, between addresses of equal sums (RFC 768, RFC 1624).
pub fn ones_examples()
    ensures { OnesExamples }
{}

/// ICMP echo request and reply, and a part of one.
pub fn echo_examples()
    ensures { EchoExamples }
{}

/// Extension headers that are passed over, and the flag Don't Fragment (RFC 7915 section 5.1).
pub fn header_examples()
    ensures { HeaderExamples }
{}

/// Two fragments of one TCP segment, and a quoted packet of which the end is missing.
pub fn fragment_examples()
    ensures { FragmentExamples }
{}
