// The square of costs: an array of arrays, a column for each destination, passed and returned by value.
ghost use Rattle.std.specs.Prelude.{◌≡◌, ℕ, ◌≤◌, ◌<◌};
ghost use Rattle.graph.specs.Path.{All};
ghost use Rattle.net.specs.Limits.{most_nodes};
ghost use Rattle.net.specs.Lent.{rows_lent};
ghost use Rattle.net.specs.Rows.{network_of};
ghost use Rattle.net.specs.inner.LinkSet.{Without};
ghost use Rattle.paths.specs.inner.Column.{entry_at};
ghost use Rattle.paths.specs.inner.Square.{cell, BestSquare, OneNode, IsTurned};

use crate::column::{column_of, column_without};
use crate::cost::Cost;
use net::{CheckedRows, LinkSet, Node, limit};

// The best paths between all pairs.
#[tactic(auto, using(crate::proofs::Counts::some_node, crate::proofs::Counts::few_nodes))]
pub fn square_of(network: &CheckedRows<'_>) -> [[Cost; limit::NODES]; limit::NODES]
    ensures { BestSquare (network_of (rows_lent network.now.rows)) All result }
{
    let first = column_of(network, Node(0));
    let mut square = [first; limit::NODES];
    for d in 1..network.rows.nodes {
        square[d] = column_of(network, Node(d));
    }
    square
}

// The best paths between all pairs without the links of the set, from those over all links. `note_link` of `tables` goes over columns too, of
// another type and by another function: a line of each loop is the same.
#[tactic(auto, using(crate::proofs::Counts::few_nodes))]
pub fn square_without(
    square: [[Cost; limit::NODES]; limit::NODES],
    network: &CheckedRows<'_>,
    out: LinkSet,
) -> [[Cost; limit::NODES]; limit::NODES]
    ensures { let N = network_of (rows_lent network.now.rows) in BestSquare N All square → BestSquare N (Without out) result }
{
    let mut next = square;
    for column in &mut next[..network.rows.nodes] {
        *column = column_without(*column, network, out);
    }
    next
}

// The costs of one node for each of n destinations.
pub fn costs_of(
    square: [[Cost; limit::NODES]; limit::NODES],
    n: usize,
    i: usize,
) -> [Cost; limit::NODES]
    requires { OneNode n i }
    ensures { (d : ℕ) → d < n → entry_at result d ≡ cell square i d }
{
    let unknown = Cost::none();
    let mut costs = [unknown; limit::NODES];
    for d in 0..n {
        costs[d] = square[d][i];
    }
    costs
}

// A square turned: row i has at place d what row d has at place i, each below n. So the row of node i has what a square by destination
// has for it and each of n destinations. Who needs the costs of many nodes turns the square once, as each call of `costs_of` copies it
// whole.
pub fn turned<T: Copy>(
    square: [[T; limit::NODES]; limit::NODES],
    n: usize,
) -> [[T; limit::NODES]; limit::NODES]
    requires { n ≤ most_nodes }
    ensures { IsTurned square n result }
{
    let mut turned = square;
    for i in 0..n {
        for d in 0..n {
            turned[i][d] = square[d][i];
        }
    }
    turned
}
