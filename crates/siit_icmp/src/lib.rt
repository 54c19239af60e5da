//! The ICMP tables of the translation: types and codes, pointers, and MTUs (RFC 7915 sections 4.2, 4.3, 5.2 and 5.3).
#![tactic(auto)]

ghost use Rattle.siit_icmp.specs.Examples.{IcmpExamples};

mod errors;
mod kinds;
mod mtu;
mod pointers;

pub use errors::{is_error_kind4, is_error_kind6};
pub use kinds::{NewKind, Rest, echo46, echo64, type46, type64};
pub use mtu::{mtu46, mtu64};
pub use pointers::{pointer46, pointer64};

/// Messages, pointers and MTUs that are translated.
pub fn icmp_examples()
    ensures { IcmpExamples }
{}

#[cfg(test)]
mod tests {
    use super::*;
    use siit_rules::Rule;

    #[test]
    fn messages_are_translated(rt: HostRuntime) {
        let too_big = NewKind {
            kind: 2,
            code: 0,
            rest: Rest::Mtu,
        };
        assert_eq!(rt; type46(3, 4), Ok(too_big));
        assert_eq!(rt; type46(3, 14), Err(Rule::IcmpCode4));
        assert_eq!(rt; type46(5, 0), Err(Rule::IcmpType4));
        let port = NewKind {
            kind: 3,
            code: 3,
            rest: Rest::Length,
        };
        assert_eq!(rt; type64(1, 4), Ok(port));
        assert_eq!(rt; type64(1, 5), Err(Rule::IcmpCode6));
        assert_eq!(rt; type64(135, 0), Err(Rule::IcmpType6));
        assert_eq!(rt; pointer46(19), Some(24));
        assert_eq!(rt; pointer46(4), None);
        assert_eq!(rt; pointer64(23), Some(12));
        assert_eq!(rt; pointer64(65536), None);
    }

    #[test]
    fn mtus_are_translated(rt: HostRuntime) {
        for (m, quoted_total, mtu) in [
            (0, 1500, 1500),
            (0, 1492, 1280),
            (1400, 1500, 1420),
            (576, 1500, 1280),
        ] {
            assert_eq!(rt; mtu46(m, quoted_total, 1500, 1500), mtu);
        }
        for (m, mtu) in [(1500, 1480), (1280, 1260), (10, 68)] {
            assert_eq!(rt; mtu64(m, 1500, 1500), mtu);
        }
    }
}
