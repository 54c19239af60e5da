//! Packets translated as worked by hand, each table the contract of a function with no body.
ghost use Rattle.siit_v4to6.specs.Examples.{EchoExamples, FragmentExamples, OnesExamples, TcpExamples, UdpSumExamples};

/// One TCP packet, with a right and with a wrong checksum.
pub fn tcp_examples()
    ensures { TcpExamples }
{}

/// Checksums of all ones and of zero, between addresses of equal sums (RFC 768, RFC 1624).
pub fn ones_examples()
    ensures { OnesExamples }
{}

/// ICMP echo request and reply, and a part of one.
pub fn echo_examples()
    ensures { EchoExamples }
{}

/// UDP checksums over IPv6 that are computed from nothing (RFC 8200 section 8.1).
pub fn udp_sum_examples()
    ensures { UdpSumExamples }
{}

/// Two fragments of one TCP segment, and a quoted packet of which the end is missing.
pub fn fragment_examples()
    ensures { FragmentExamples }
{}
