// The builder of the three tables: one square over all links and one without each link. The square without a link gives the backwarding
// rows of its two interfaces, as if they had no key links, and shows for which interfaces it is key. With all links tried, the backwarding
// entries of the interfaces that have key links are worked out anew, and the forwarding rows follow from what was kept.
ghost use Rattle.std.specs.Prelude.{◌≡◌, IfOk, ℕ, ◌*◌, ◌≤◌, ◌<◌, length};
ghost use Rattle.net.specs.Lent.{rows_lent};
ghost use Rattle.net.specs.Limits.{most_nodes};
ghost use Rattle.net.specs.Rows.{network_of};
ghost use Rattle.net.specs.Told.{told};
ghost use Rattle.paths.specs.inner.Column.{entry_at};
ghost use Rattle.tables.specs.Entry.{Filled, RoutingByte, ForwardingByte};
ghost use Rattle.tables.specs.Build.{build_verdict, BuildAnswer};
ghost use Rattle.tables.specs.Lent.{tables_lent};
ghost use Rattle.tables.specs.inner.Backward.{OwnByte};
ghost use Rattle.tables.specs.inner.Detours.{forward_cost, kept_at, SquareKept};
ghost use Rattle.tables.specs.inner.Given.{Filling, FillingByKept};

use crate::backward::leave_out_keys;
use crate::entry::fill_row;
use crate::kept::{Kept, keys_for, none_kept, note_link};
use crate::lent::{Tables, tables_short};
use net::{
    CheckedRows, Interface, LentRows, Link, LinkSet, Node, PlacedRefusal, Refusal, end_at, limit,
};
use paths::inner::{Cost, costs_of, square_of, square_without, turned};

#[tactic(auto, using(paths::proofs::Counts::few_nodes))]
fn fill_routing(
    table: &mut [u8],
    network: &CheckedRows<'_>,
    all: [[Cost; limit::NODES]; limit::NODES],
)
    requires { Filling (rows_lent network.now.rows) network.now.rows.nodes table.old all }
    ensures { Filled network.now.rows.nodes network.now.rows.nodes
        (RoutingByte (network_of (rows_lent network.now.rows)))
        table.old table.new }
{
    let n = network.rows.nodes;
    let rows = turned(all, n);
    for i in 0..n {
        let from = i * n;
        let to = from + n;
        fill_row(&mut table[from..to], Node(i), rows[i]);
    }
}

// The backwarding rows of both interfaces of each link, without that link alone, and what is kept of the links tried on the way.
#[tactic(auto, using(paths::proofs::Counts::link_nodes))]
fn fill_without_own(
    table: &mut [u8],
    network: &CheckedRows<'_>,
    all: [[Cost; limit::NODES]; limit::NODES],
) -> [[Kept; limit::NODES]; limit::NODES]
    requires { Filling (rows_lent network.now.rows) (2 * length network.now.rows.low.now) table.old all }
    ensures filled { Filled network.now.rows.nodes (2 * length network.now.rows.low.now)
        (OwnByte (network_of (rows_lent network.now.rows)))
        table.old table.new }
    ensures square_kept { SquareKept (network_of (rows_lent network.now.rows)) (length network.now.rows.low.now) all result }
{
    let n = network.rows.nodes;
    let mut kept = none_kept();
    for k in 0..network.rows.low.len() {
        let x = end_at(network.rows.low, k);
        let y = end_at(network.rows.high, k);
        let only = LinkSet::empty().with_link(Link(k));
        let without = square_without(all, network, only);
        let first = 2 * k * n;
        let second = first + n;
        let third = second + n;
        fill_row(&mut table[first..second], Node(x), costs_of(without, n, x));
        fill_row(&mut table[second..third], Node(y), costs_of(without, n, y));
        // An array that a call returns goes into a new variable: laid straight into `kept`, it would leave the loop without proof.
        let next = note_link(kept, all, without, network, Link(k));
        kept = next;
    }
    kept
}

// The cost by which the head of interface h forwards, by its own best cost and what is kept for it.
#[tactic(auto, unfolding(crate::specs::inner::Detours::forward_cost))]
fn forward_cost(h: Interface, whole: Cost, kept: Kept) -> Cost
    ensures { result ≡ forward_cost h.0 whole kept }
{
    if keys_for(h, whole, kept).is_empty() {
        return whole;
    }
    kept.detour
}

// The costs by which the head of interface h forwards to each destination.
fn forward_costs(
    h: Interface,
    n: usize,
    all: [Cost; limit::NODES],
    kept: [Kept; limit::NODES],
) -> [Cost; limit::NODES]
    requires { n ≤ most_nodes }
    ensures { (d : ℕ) → d < n → entry_at result d ≡ forward_cost h.0 (entry_at all d) (kept_at kept d) }
{
    let mut costs = all;
    for d in 0..n {
        costs[d] = forward_cost(h, all[d], kept[d]);
    }
    costs
}

// As `fill_routing` goes row by row, of other rows: one function for both would take the node and the costs of a row as closures, and no
// line less.
#[tactic(auto, using(paths::proofs::Counts::few_nodes))]
fn fill_forwarding(
    table: &mut [u8],
    network: &CheckedRows<'_>,
    all: [[Cost; limit::NODES]; limit::NODES],
    kept: [[Kept; limit::NODES]; limit::NODES],
)
    requires { FillingByKept (rows_lent network.now.rows) table.old all kept }
    ensures { Filled network.now.rows.nodes (2 * length network.now.rows.low.now)
        (ForwardingByte (network_of (rows_lent network.now.rows)))
        table.old table.new }
{
    let n = network.rows.nodes;
    let rows = turned(all, n);
    let found = turned(kept, n);
    for h in 0..2 * network.rows.low.len() {
        let i = network.rows.head_of(Interface(h));
        let from = h * n;
        let to = from + n;
        let costs = forward_costs(Interface(h), n, rows[i.0], found[i.0]);
        fill_row(&mut table[from..to], i, costs);
    }
}

#[tactic(auto, using(crate::proofs::BuildVerdicts::build_verdicts))]
fn check_build<'a>(
    network: &LentRows<'a>,
    tables: &Tables<'_>,
) -> Result<CheckedRows<'a>, PlacedRefusal>
    ensures refusal { told result ≡ build_verdict (rows_lent network.now) (tables_lent tables.now) }
    ensures same_rows { IfOk result (λ checked. checked.rows ≡ network.now) }
{
    let checked = network.checked()?;
    if tables_short(network.nodes, network.low.len(), tables) {
        return Err(Refusal::TableLength.at(0));
    }
    Ok(checked)
}

// The tables are lent one by one, since this function alone takes all three to be written.
pub fn build_tables(
    network: &LentRows<'_>,
    routing: &mut [u8],
    forwarding: &mut [u8],
    backwarding: &mut [u8],
) -> Result<(), PlacedRefusal>
    ensures { BuildAnswer (rows_lent network.now)
        (record { routing = routing.old; forwarding = forwarding.old; backwarding = backwarding.old })
        (told result)
        (record { routing = routing.new; forwarding = forwarding.new; backwarding = backwarding.new }) }
{
    let network = check_build(
        network,
        &Tables {
            routing,
            forwarding,
            backwarding,
        },
    )?;
    let all = square_of(&network);
    fill_routing(routing, &network, all);
    let kept = fill_without_own(backwarding, &network, all);
    leave_out_keys(backwarding, &network, all, kept);
    fill_forwarding(forwarding, &network, all, kept);
    Ok(())
}
