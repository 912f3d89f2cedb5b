// Backwarding entries without the interface's key links. An interface has key links for d only if its head would send straight back over
// it, so there is at most one such interface for each node and destination; all other entries stay as they are without their own link.
ghost use Rattle.std.specs.Prelude.{◌*◌, length};
ghost use Rattle.net.specs.Lent.{rows_lent};
ghost use Rattle.net.specs.Rows.{network_of};
ghost use Rattle.tables.specs.Entry.{Filled, BackwardingByte};
ghost use Rattle.tables.specs.inner.Backward.{FilledFor};
ghost use Rattle.tables.specs.inner.Given.{KeysKnown, LeavingOut, LeavingOutAll};

use crate::entry::entry_byte;
use crate::kept::Kept;
use net::{CheckedRows, Interface, LinkSet, Node, limit, link_of, reverse_of};
use paths::inner::{Cost, column_without};

// The entry of interface h for d: the column without its link and all its key links. The nearest of them alone would not do, as a path
// from the tail may run along the first part of the old one and so over another.
fn backward_byte(
    all: [Cost; limit::NODES],
    network: &CheckedRows<'_>,
    keys: LinkSet,
    h: Interface,
    destination: Node,
) -> u8
    requires { KeysKnown (rows_lent network.now.rows) h.0 destination.0 all keys }
    ensures { BackwardingByte (network_of (rows_lent network.now.rows)) h.0 destination.0 result }
{
    let j = network.rows.tail_of(h);
    let out = keys.with_link(link_of(h));
    let without = column_without(all, network, out);
    entry_byte(j, destination, without[j.0])
}

// The entries for one destination.
#[tactic(auto, using(paths::proofs::Counts::few_nodes))]
fn leave_out(
    table: &mut [u8],
    network: &CheckedRows<'_>,
    all: [Cost; limit::NODES],
    kept: [Kept; limit::NODES],
    destination: Node,
)
    requires { LeavingOut (rows_lent network.now.rows) destination.0 table.old all kept }
    ensures { FilledFor network.now.rows.nodes (2 * length network.now.rows.low.now) destination.0
        (λ h. BackwardingByte (network_of (rows_lent network.now.rows)) h destination.0)
        table.old table.new }
{
    for i in 0..network.rows.nodes {
        let keys = kept[i].keys;
        if !keys.is_empty() {
            let h = reverse_of(Interface(all[i].first as usize));
            let byte = backward_byte(all, network, keys, h, destination);
            table[h.0 * network.rows.nodes + destination.0] = byte;
        }
    }
}

// The entries of a table that was filled as if no interface had key links.
#[tactic(auto, using(paths::proofs::Counts::few_nodes))]
pub fn leave_out_keys(
    table: &mut [u8],
    network: &CheckedRows<'_>,
    all: [[Cost; limit::NODES]; limit::NODES],
    kept: [[Kept; limit::NODES]; limit::NODES],
)
    requires { LeavingOutAll (rows_lent network.now.rows) table.old all kept }
    ensures { Filled network.now.rows.nodes (2 * length network.now.rows.low.now)
        (BackwardingByte (network_of (rows_lent network.now.rows)))
        table.old table.new }
{
    for d in 0..network.rows.nodes {
        leave_out(table, network, all[d], kept[d], Node(d));
    }
}
