//! The rules by which packets are dropped, and tables of cases.
#![tactic(auto)]

mod case_table;
mod rule;

pub use case_table::CaseTable;
pub use rule::{Answer, Family, Rule};

#[cfg(test)]
mod tests {
    use super::*;

    #[test]
    fn rows_are_read(rt: HostRuntime) {
        let rule = Rule::TooBig4;
        assert_eq!(rt; rule.number(), 36);
        assert_eq!(rt; rule.name(), "TooBig4");
        assert_eq!(rt; rule.answer(), Answer::Icmp4 { kind: 3, code: 4 });
        assert_eq!(rt; Rule::Short6.answer(), Answer::Silent);
    }

    #[test]
    fn cases_are_found(rt: HostRuntime) {
        let table = cases! { 2 => 20; 5 => 0; 9 => 90; };
        for (key, value) in [
            (1, None),
            (2, Some(20)),
            (5, Some(0)),
            (7, None),
            (9, Some(90)),
            (10, None),
        ] {
            assert_eq!(rt; table.find(key), value);
        }
        assert_eq!(rt; CaseTable::new([]).find(0), None);
    }
}
