//! What a device is for, and what its role refuses.
ghost use Rattle.std.specs.Prelude.{◌≡◌};
ghost use Rattle.siit_roles.specs.Roles.{role_refusal4, role_refusal6};

use siit_map::Means;
use siit_rules::Rule;

/// What a device is for.
#[derive(Clone, Copy, Debug, PartialEq, Eq)]
pub enum Role {
    /// A translator with a prefix and a table (RFC 7915, RFC 7757).
    Plain,
    /// The border relay of SIIT-DC (RFC 7755).
    Border,
    /// The edge relay of SIIT-DC (RFC 7756).
    Edge,
    /// The customer side of 464XLAT (RFC 6877).
    Customer,
}

/// The rule by which the role drops a packet that arrives on the IPv4 side, from how its source and its destination are
/// mapped; `None` stands for an address whose mapping is refused. An edge drops by `RoleSource4` what has no entry for
/// its source. A customer drops by `RoleSource4` what has no local source, and else by `RoleDestination4` what has a
/// local destination. The other roles drop nothing. The rules are this project's own.
pub fn role_refuses4(role: Role, src: Option<Means>, dst: Option<Means>) -> Option<Rule>
    ensures { result ≡ role_refusal4 role src dst }
{
    match role {
        Role::Edge if !has_entry(src) => Some(Rule::RoleSource4),
        Role::Customer if !is_local(src) => Some(Rule::RoleSource4),
        Role::Customer if is_local(dst) => Some(Rule::RoleDestination4),
        _ => None,
    }
}

/// The rule by which the role drops a packet that arrives on the IPv6 side, from how its source and its destination are
/// mapped; `None` stands for an address whose mapping is refused. An edge drops by `RoleDestination6` what has no entry
/// for its destination. A customer drops by `RoleSource6` what has a local source, and else by `RoleDestination6` what
/// has no local destination. The other roles drop nothing. The rules are this project's own.
pub fn role_refuses6(role: Role, src: Option<Means>, dst: Option<Means>) -> Option<Rule>
    ensures { result ≡ role_refusal6 role src dst }
{
    match role {
        Role::Edge if !has_entry(dst) => Some(Rule::RoleDestination6),
        Role::Customer if is_local(src) => Some(Rule::RoleSource6),
        Role::Customer if !is_local(dst) => Some(Rule::RoleDestination6),
        _ => None,
    }
}

ghost use Rattle.siit_roles.specs.Roles.{has_entry, is_local};

fn has_entry(means: Option<Means>) -> bool
    ensures { result ≡ has_entry means }
{
    matches!(means, Some(Means::Eam(_)))
}

fn is_local(means: Option<Means>) -> bool
    ensures { result ≡ is_local means }
{
    matches!(means, Some(Means::Local))
}

#[cfg(test)]
mod tests {
    use super::*;

    #[test]
    fn roles_refuse(rt: HostRuntime) {
        let entry = Some(Means::Eam(0));
        let local = Some(Means::Local);
        let prefix = Some(Means::Prefix);
        let rows4 = [
            (Role::Plain, None, None, None),
            (Role::Border, prefix, local, None),
            (Role::Edge, entry, None, None),
            (Role::Edge, prefix, entry, Some(Rule::RoleSource4)),
            (Role::Edge, None, entry, Some(Rule::RoleSource4)),
            (Role::Customer, local, prefix, None),
            (Role::Customer, prefix, local, Some(Rule::RoleSource4)),
            (Role::Customer, local, local, Some(Rule::RoleDestination4)),
        ];
        for (role, src, dst, rule) in rows4 {
            assert_eq!(rt; role_refuses4(role, src, dst), rule);
        }
        let rows6 = [
            (Role::Plain, local, None, None),
            (Role::Edge, None, entry, None),
            (Role::Edge, entry, prefix, Some(Rule::RoleDestination6)),
            (Role::Customer, prefix, local, None),
            (Role::Customer, local, prefix, Some(Rule::RoleSource6)),
            (Role::Customer, None, None, Some(Rule::RoleDestination6)),
        ];
        for (role, src, dst, rule) in rows6 {
            assert_eq!(rt; role_refuses6(role, src, dst), rule);
        }
    }
}
