//! The law, from those of configurations, of crossing and of the pair.
ghost use Rattle.siit_delivery.specs.Laws.{PairsDeliver};

use siit_config::accepted_chains_are_good;
use siit_crossing::{none_turns_in_pairs, records_cross_both};
use siit_pair::{fragments_come_across, packets_behind_are_read};

/// Through a border and an edge with one table (RFC 7755, RFC 7756), each datagram whose addresses come back, and which
/// no drop in the report names, leaves at the far end as itself, changed in nothing but what is listed; and nothing of
/// it comes back. There is nothing to run.
pub fn pairs_deliver()
    ensures { PairsDeliver }
{
    accepted_chains_are_good();
    records_cross_both();
    none_turns_in_pairs();
    fragments_come_across();
    packets_behind_are_read();
}
