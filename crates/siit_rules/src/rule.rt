//! The rules, with number, name and answer.
ghost use Rattle.std.specs.Prelude.{◌≡◌};
ghost use Rattle.siit_rules.specs.Rows.{row_of};

/// The version of an IP packet or of a link.
#[derive(Clone, Copy, Debug, PartialEq, Eq)]
pub enum Family {
    /// IPv4.
    Four,
    /// IPv6.
    Six,
}

/// What a device sends back for a packet that it drops.
#[derive(Clone, Copy, Debug, PartialEq, Eq)]
pub enum Answer {
    /// Nothing.
    Silent,
    /// An ICMPv4 error of this type and code.
    Icmp4 { kind: u8, code: u8 },
    /// An ICMPv6 error of this type and code.
    Icmp6 { kind: u8, code: u8 },
}

/// Why a packet is dropped. The variants stand in the order of the rules; those on IPv4 arrival end in 4, those on IPv6
/// arrival in 6.
#[derive(Clone, Copy, Debug, PartialEq, Eq)]
pub enum Rule {
    /// The record holds no IP packet.
    NotIp,
    /// The packet's family isn't that of the link that it enters.
    OtherFamily,
    /// Fewer bytes than an IPv4 header, or than its lengths say.
    Short4,
    /// The version, a length or the header checksum is wrong.
    BadHeader4,
    /// The source is 0.0.0.0, 255.255.255.255, loopback or multicast.
    BadSource4,
    /// The destination is one of these.
    BadDestination4,
    /// A fragment without payload, with More and a length that is no multiple of 8, or that ends past 65,535 bytes.
    FragmentShape4,
    /// The TTL is 0 or 1.
    Expired4,
    /// A source route that has not expired is among the options.
    SourceRoute4,
    /// The protocol is IGMP.
    Igmp4,
    /// The protocol's number means something else in IPv6.
    ProtocolClash4,
    /// Fewer bytes than a TCP, UDP or ICMP header.
    UpperShort4,
    /// A fragment of ICMP.
    IcmpFragment4,
    /// The first fragment of a UDP datagram without checksum.
    UdpZeroFragment4,
    /// A UDP datagram without checksum, where the device is set to drop it.
    UdpZero4,
    /// A UDP datagram without checksum whose length isn't the payload's.
    UdpLength4,
    /// An ICMP type that isn't translated.
    IcmpType4,
    /// An ICMP code that isn't translated.
    IcmpCode4,
    /// A pointer that isn't translated.
    IcmpPointer4,
    /// The role doesn't take this source.
    RoleSource4,
    /// The role doesn't take this destination.
    RoleDestination4,
    /// The source has no IPv6 address.
    SourceMap4,
    /// The destination has no IPv6 address.
    DestinationMap4,
    /// The quoted packet has fewer bytes than its header.
    QuoteShort4,
    /// The quoted packet's version or a length is wrong.
    QuoteBad4,
    /// The quoted packet is an ICMP error itself.
    NestedTwice4,
    /// The quoted packet isn't translated.
    QuoteType4,
    /// An address of the quoted packet has no IPv6 address.
    QuoteAddress4,
    /// The packet may not be cut and is too long for the IPv6 side.
    TooBig4,
    /// Fewer bytes than an IPv6 header, or than its length says.
    Short6,
    /// The version is wrong.
    BadHeader6,
    /// The source is ::, ::1, multicast or link-local.
    BadSource6,
    /// The destination is one of these.
    BadDestination6,
    /// An extension header runs past the end.
    ShortExt6,
    /// Hop-by-Hop Options behind another header.
    ExtOrder6,
    /// An extension header behind a Fragment header.
    ExtAfterFragment6,
    /// A fragment without payload, with More and a length that is no multiple of 8, or that ends past 65,535 bytes.
    FragmentShape6,
    /// The hop limit is 0 or 1.
    Expired6,
    /// A Routing header whose Segments Left isn't 0.
    SegmentsLeft6,
    /// The upper protocol's number means something else in IPv4.
    ProtocolClash6,
    /// Fewer bytes than a TCP, UDP or ICMPv6 header.
    UpperShort6,
    /// A fragment of ICMPv6.
    IcmpFragment6,
    /// An ICMPv6 type that isn't translated.
    IcmpType6,
    /// An ICMPv6 code that isn't translated.
    IcmpCode6,
    /// A pointer that isn't translated.
    IcmpPointer6,
    /// The role doesn't take this source.
    RoleSource6,
    /// The role doesn't take this destination.
    RoleDestination6,
    /// The source has no IPv4 address.
    SourceMap6,
    /// The destination has no IPv4 address.
    DestinationMap6,
    /// The source of a packet that is turned has no address under the prefix.
    HairpinSource6,
    /// The quoted packet has fewer bytes than its headers.
    QuoteShort6,
    /// The quoted packet's version, headers or length can't be translated.
    QuoteBad6,
    /// The quoted packet is an ICMPv6 error itself.
    NestedTwice6,
    /// The quoted packet isn't translated.
    QuoteType6,
    /// An address of the quoted packet has no IPv4 address.
    QuoteAddress6,
    /// The packet is longer than 1,280 bytes, and its IPv4 form is too long for the IPv4 side.
    TooBig6,
}

/// One column of the rows, as a `match` on the rule.
macro_rules! match_rows {
    ($rule:expr, $column:ident: $($number:literal $variant:ident $answer:ident $($kind:literal/$code:literal)?;)*) => {
        match $rule {
            $(Rule::$variant => column!($column: $number $variant $answer $($kind/$code)?),)*
        }
    };
}

/// What a row has in a column.
macro_rules! column {
    (number: $number:literal $variant:ident $answer:ident $($kind:literal/$code:literal)?) => {
        $number
    };
    (name: $number:literal $variant:ident $answer:ident $($kind:literal/$code:literal)?) => {
        stringify!($variant)
    };
    (answer: $number:literal $variant:ident Silent) => {
        Answer::Silent
    };
    (answer: $number:literal $variant:ident $answer:ident $kind:literal/$code:literal) => {
        Answer::$answer {
            kind: $kind,
            code: $code,
        }
    };
}

/// The rows of the rules: number, name, and the type and code of the ICMP error that answers.
macro_rules! rows {
    ($rule:expr, $column:ident) => {
        match_rows! { $rule, $column:
            1 NotIp Silent;
            2 OtherFamily Silent;
            10 Short4 Silent;
            11 BadHeader4 Silent;
            12 BadSource4 Silent;
            13 BadDestination4 Silent;
            14 FragmentShape4 Silent;
            15 Expired4 Icmp4 11/0;
            16 SourceRoute4 Icmp4 3/5;
            17 Igmp4 Silent;
            18 ProtocolClash4 Icmp4 3/13;
            19 UpperShort4 Silent;
            20 IcmpFragment4 Silent;
            21 UdpZeroFragment4 Silent;
            22 UdpZero4 Silent;
            23 UdpLength4 Silent;
            24 IcmpType4 Silent;
            25 IcmpCode4 Silent;
            26 IcmpPointer4 Silent;
            27 RoleSource4 Icmp4 3/13;
            28 RoleDestination4 Icmp4 3/13;
            29 SourceMap4 Icmp4 3/13;
            30 DestinationMap4 Icmp4 3/13;
            31 QuoteShort4 Silent;
            32 QuoteBad4 Silent;
            33 NestedTwice4 Silent;
            34 QuoteType4 Silent;
            35 QuoteAddress4 Silent;
            36 TooBig4 Icmp4 3/4;
            50 Short6 Silent;
            51 BadHeader6 Silent;
            52 BadSource6 Silent;
            53 BadDestination6 Silent;
            54 ShortExt6 Silent;
            55 ExtOrder6 Silent;
            56 ExtAfterFragment6 Silent;
            57 FragmentShape6 Silent;
            58 Expired6 Icmp6 3/0;
            59 SegmentsLeft6 Icmp6 4/0;
            60 ProtocolClash6 Icmp6 1/1;
            61 UpperShort6 Silent;
            62 IcmpFragment6 Silent;
            63 IcmpType6 Silent;
            64 IcmpCode6 Silent;
            65 IcmpPointer6 Silent;
            66 RoleSource6 Icmp6 1/5;
            67 RoleDestination6 Icmp6 1/1;
            68 SourceMap6 Icmp6 1/5;
            69 DestinationMap6 Icmp6 1/1;
            70 HairpinSource6 Icmp6 1/1;
            71 QuoteShort6 Silent;
            72 QuoteBad6 Silent;
            73 NestedTwice6 Silent;
            74 QuoteType6 Silent;
            75 QuoteAddress6 Silent;
            76 TooBig6 Icmp6 2/0;
        }
    };
}

impl Rule {
    /// The number of the rule, as a report has it: 1 and 2 for records, 10 to 36 on IPv4 arrival, 50 to 76 on IPv6
    /// arrival.
    pub fn number(&self) -> u8
        ensures { result ≡ (row_of self.now).number }
    {
        rows!(self, number)
    }

    /// The name of the rule, which is its variant's.
    pub fn name(&self) -> &'static str
        ensures { result.now ≡ (row_of self.now).name }
    {
        rows!(self, name)
    }

    /// What is sent back for a packet that the rule drops (RFC 7915 sections 4 and 5).
    pub fn answer(&self) -> Answer
        ensures { result ≡ (row_of self.now).answer }
    {
        rows!(self, answer)
    }
}
