//! The mapping of a device.
ghost use Rattle.std.specs.Prelude.{◌≡◌, ◌+◌, ◌≤◌, Err, IfErr, IfOk, IsTrue, None, Ok, option_map};
ghost use Rattle.siit_eamt.specs.Entries.{entry_to_6};
ghost use Rattle.siit_eamt.specs.Faults.{table_fault};
ghost use Rattle.siit_rfc6052.specs.Embedding.{is_embedding_prefix};
ghost use Rattle.siit_map.specs.Mapping.{customer, entries_of, ipv4_for, ipv6_for, prefix_in, table};
ghost use Rattle.siit_map.specs.Prefixed.{customer_back, extracted_under, is_multicast, prefix_form, prefix_refusal, under_prefix};

use siit_addr::{Addr4, Addr6, Prefix4, Prefix6, is_non_global};
use siit_eamt::{Eam, Eamt, Hit6, Steps};
use siit_rfc6052::Embed;
use std::marker::Model;
use std::sync::ledger::Ledger;

/// How an address got its address of the other family.
#[derive(Clone, Copy, Debug, PartialEq, Eq)]
pub enum Means {
    /// By the table's entry at this place, from 0.
    Eam(u32),
    /// Under the translation prefix.
    Prefix,
    /// Under a customer's local prefix.
    Local,
}

/// Why an address has no address of the other family.
#[derive(Clone, Copy, Debug, PartialEq, Eq)]
pub enum MapRefusal {
    /// Neither an entry nor a prefix holds it, or only the translation prefix is left and the IPv4 address is multicast
    /// (224.0.0.0/4, RFC 5771).
    NoMapping,
    /// Only the translation prefix is left, it is the well-known one, and the IPv4 address isn't global (RFC 6052
    /// section 3.1; which ones aren't: [`is_non_global`]).
    WkpNonGlobal,
    /// An IPv6 address under a customer's local prefix with an IPv4 address that isn't local, or under the provider's
    /// prefix with one that is.
    LocalMismatch,
}

/// The addresses of a device: a table of entries with a prefix, or a customer's network.
#[derive(Drop)]
pub struct Mapping {
    kind: Kind,
}

#[derive(Drop)]
enum Kind {
    Table {
        eamt: Eamt,
        prefix: Embed,
    },
    Customer {
        local4: Prefix4,
        local6: Embed,
        provider: Embed,
    },
}

impl Model for Mapping {
    ghost use Rattle.siit_map.specs.Mapping.{Mapping as Mapped};
    ghost use Rattle.siit_map.specs.View.{mapping_view};

    ghost Value = { Mapped };

    ghost view = { λ m. mapping_view m.kind };
}

impl Mapping {
    /// The mapping of a table (RFC 7757), and of a translation prefix where the table has no entry (RFC 6052).
    pub fn table(eamt: Eamt, prefix: Embed) -> Mapping
        ensures { result ≡ table eamt prefix }
    {
        Mapping {
            kind: Kind::Table { eamt, prefix },
        }
    }

    /// The mapping of a customer's network (RFC 6877): its own addresses stand under a prefix of their own, all others
    /// under the provider's.
    pub fn customer(local4: Prefix4, local6: Embed, provider: Embed) -> Mapping
        ensures { result ≡ customer local4 local6 provider }
    {
        Mapping {
            kind: Kind::Customer {
                local4,
                local6,
                provider,
            },
        }
    }

    /// The IPv6 address of an IPv4 address, or why it has none (RFC 7757 section 3.3.1, RFC 6052 section 2.2). Each
    /// step is a node or an entry of the table that is read.
    pub fn to6<L: Ledger>(
        &self,
        a: Addr4,
        steps: &mut Steps<L>,
    ) -> Result<(Addr6, Means), MapRefusal>
        ensures mapped { IfOk result (λ mapped. ipv6_for self.now a.0 ≡ Ok (mapped.0.0, mapped.1)) }
        ensures refused { IfErr result (λ refusal. ipv6_for self.now a.0 ≡ Err refusal) }
        ensures cost { steps.new ≤ steps.old + 34 }
        ensures counted { steps.old ≤ steps.new }
    {
        match &self.kind {
            Kind::Table { eamt, prefix } => match eamt.find4(a, steps) {
                Some(hit) => Ok((hit.address, Means::Eam(hit.entry))),
                None => embed_under(prefix, a),
            },
            Kind::Customer {
                local4,
                local6,
                provider,
            } => {
                if local4.holds(a) {
                    return Ok((local6.embed(a), Means::Local));
                }
                embed_under(provider, a)
            }
        }
    }

    /// The IPv4 address of an IPv6 address, or why it has none (RFC 7757 section 3.3.2, RFC 6052 section 2.2). Each
    /// step is a node or an entry of the table that is read.
    pub fn to4<L: Ledger>(
        &self,
        x: Addr6,
        steps: &mut Steps<L>,
    ) -> Result<(Addr4, Means), MapRefusal>
        ensures mapped { IfOk result (λ mapped. ipv4_for self.now x.0 ≡ Ok (mapped.0.0, mapped.1)) }
        ensures refused { IfErr result (λ refusal. ipv4_for self.now x.0 ≡ Err refusal) }
        ensures cost { steps.new ≤ steps.old + 130 }
        ensures counted { steps.old ≤ steps.new }
    {
        match &self.kind {
            Kind::Table { eamt, prefix } => match eamt.find6(x, steps) {
                Some(hit) => Ok((hit.address, Means::Eam(hit.entry))),
                None => extract_under(prefix, x),
            },
            Kind::Customer {
                local4,
                local6,
                provider,
            } => customer_to4(local4, local6, provider, x),
        }
    }

    /// The entry of an IPv4 address, and the address that it gives, or `None` where no entry holds it. A customer has
    /// no entries. Each step is a node or an entry of the table that is read.
    pub fn eam_of<L: Ledger>(&self, a: Addr4, steps: &mut Steps<L>) -> Option<Hit6>
        ensures found { option_map (λ hit. (hit.entry, hit.address.0)) result ≡ entry_to_6 (entries_of self.now) a.0 }
        ensures cost { steps.new ≤ steps.old + 34 }
        ensures counted { steps.old ≤ steps.new }
    {
        match &self.kind {
            Kind::Table { eamt, .. } => eamt.find4(a, steps),
            Kind::Customer { .. } => None,
        }
    }

    /// The form of an IPv4 address under the translation prefix, the entries not being asked. `None` where the address
    /// is multicast, or isn't global and the prefix is the well-known one.
    pub fn prefix_of(&self, a: Addr4) -> Option<Addr6>
        ensures { option_map (λ x. x.0) result ≡ prefix_form (prefix_in self.now) a.0 }
    {
        let prefix = self.translation_prefix();
        match refusal_under(prefix, a) {
            Some(_) => None,
            None => Some(prefix.embed(a)),
        }
    }

    /// The translation prefix, for a customer the provider's.
    pub fn prefix(&self) -> Prefix6
        ensures value { result ≡ prefix_in self.now }
        ensures accepted { IsTrue (is_embedding_prefix result.len result.addr.0) }
    {
        self.translation_prefix().prefix()
    }

    /// The entries of the table; a customer has none.
    pub fn entries(&self) -> &[Eam]
        ensures value { result.now ≡ entries_of self.now }
        ensures accepted { table_fault result.now ≡ None }
    {
        match &self.kind {
            Kind::Table { eamt, .. } => eamt.entries(),
            Kind::Customer { .. } => &[],
        }
    }

    fn translation_prefix(&self) -> &Embed
        ensures { result.now ≡ prefix_in self.now }
    {
        match &self.kind {
            Kind::Table { prefix, .. } => prefix,
            Kind::Customer { provider, .. } => provider,
        }
    }
}

/// Whether the address is in 224.0.0.0/4 (RFC 5771).
fn is_in_multicast(a: Addr4) -> bool
    ensures { result ≡ is_multicast a.0 }
{
    a.0 >> 28 == 0xe
}

/// Why an IPv4 address doesn't stand under a prefix.
fn refusal_under(prefix: &Embed, a: Addr4) -> Option<MapRefusal>
    ensures { result ≡ prefix_refusal prefix.now a.0 }
{
    if is_in_multicast(a) {
        return Some(MapRefusal::NoMapping);
    }
    if prefix.is_well_known() && is_non_global(a) {
        return Some(MapRefusal::WkpNonGlobal);
    }
    None
}

/// The form of an IPv4 address under a prefix.
fn embed_under(prefix: &Embed, a: Addr4) -> Result<(Addr6, Means), MapRefusal>
    ensures mapped { IfOk result (λ mapped. under_prefix prefix.now a.0 ≡ Ok (mapped.0.0, mapped.1)) }
    ensures refused { IfErr result (λ refusal. under_prefix prefix.now a.0 ≡ Err refusal) }
{
    match refusal_under(prefix, a) {
        Some(refusal) => Err(refusal),
        None => Ok((prefix.embed(a), Means::Prefix)),
    }
}

/// The IPv4 address inside an IPv6 address under a prefix.
fn extract_under(prefix: &Embed, x: Addr6) -> Result<(Addr4, Means), MapRefusal>
    ensures mapped { IfOk result (λ mapped. extracted_under prefix.now x.0 ≡ Ok (mapped.0.0, mapped.1)) }
    ensures refused { IfErr result (λ refusal. extracted_under prefix.now x.0 ≡ Err refusal) }
{
    let Some(a) = prefix.extract(x) else {
        return Err(MapRefusal::NoMapping);
    };
    match refusal_under(prefix, a) {
        Some(refusal) => Err(refusal),
        None => Ok((a, Means::Prefix)),
    }
}

/// The IPv4 address of an IPv6 address at a customer's device.
fn customer_to4(
    local4: &Prefix4,
    local6: &Embed,
    provider: &Embed,
    x: Addr6,
) -> Result<(Addr4, Means), MapRefusal>
    ensures mapped { IfOk result (λ mapped. customer_back local4.now local6.now provider.now x.0 ≡ Ok (mapped.0.0, mapped.1)) }
    ensures refused { IfErr result (λ refusal. customer_back local4.now local6.now provider.now x.0 ≡ Err refusal) }
{
    if let Some(a) = local6.extract(x) {
        return if local4.holds(a) {
            Ok((a, Means::Local))
        } else {
            Err(MapRefusal::LocalMismatch)
        };
    }
    match provider.extract(x) {
        Some(a) if local4.holds(a) => Err(MapRefusal::LocalMismatch),
        _ => extract_under(provider, x),
    }
}
