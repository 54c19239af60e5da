//! The pool of IPv4 addresses for ICMPv6 errors without a mapping (RFC 6791).
ghost use Rattle.std.specs.Prelude.{◌≡◌, ◌≤◌, Some, length};
ghost use Rattle.siit_roles.specs.Pool.{pool_source};

use siit_addr::Addr4;
use std::marker::Model;

/// The IPv4 addresses that stand for IPv6 senders without a mapping (RFC 6791 section 3.2), seen as their list.
#[derive(Drop)]
pub struct Pool4 {
    list: Vec<Addr4>,
}

impl Model for Pool4 {
    ghost use Rattle.std.specs.Prelude.{List};
    ghost use Rattle.siit_addr.specs.declared.addr.Addr4.{Addr4};

    ghost Value = { List Addr4 };

    ghost view = { λ pool. pool.list.items };
}

impl Pool4 {
    /// The pool of these addresses, of which there may be any number. It takes no memory.
    pub fn new(list: Vec<Addr4>) -> Pool4
        ensures { result ≡ list.items }
    {
        Pool4 { list }
    }

    /// The addresses, in the order in which they were given.
    pub fn addresses(&self) -> &[Addr4]
        ensures { result.now ≡ self.now }
    {
        &self.list
    }

    /// The source of an ICMPv6 error without a mapping that becomes an IPv4 packet of this identification (RFC 6791
    /// section 3.2).
    pub fn source(&self, identification: u16) -> Addr4
        requires { 1 ≤ length self.now }
        ensures { pool_source self.now identification ≡ Some result }
    {
        self.list[identification as usize % self.list.len()]
    }
}
