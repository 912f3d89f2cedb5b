// The column of costs: those of all nodes for one destination, over the links left in. Rounds over the links fill it, until one changes
// nothing. To take links out, the rounds begin with the column as it was, less the costs that use one of them.
ghost use Rattle.std.specs.Prelude.{◌≡◌, ◌≤◌, ◌<◌};
ghost use Rattle.graph.specs.Path.{All};
ghost use Rattle.net.specs.Limits.{most_nodes};
ghost use Rattle.net.specs.Lent.{rows_lent};
ghost use Rattle.net.specs.Rows.{network_of};
ghost use Rattle.paths.specs.inner.Column.{BestColumn, Restarted};
ghost use Rattle.paths.specs.inner.Rounds.{start_column, makes_offers, offering_links};
ghost use Rattle.paths.specs.inner.Rounds.{turn_of, round_of, settled, blanked, revised_told};

use crate::cost::Cost;
use net::{CheckedRows, Link, LinkSet, Node, limit};

// At the start only the destination's own cost is known.
fn start(destination: Node) -> [Cost; limit::NODES]
    requires { destination.0 < most_nodes }
    ensures { result ≡ start_column destination.0 }
{
    let unknown = Cost::none();
    let mut column = [unknown; limit::NODES];
    column[destination.0] = Cost::here();
    column
}

// Whether a link makes offers: it is left in, and not both of its ends were known when the rounds began. What was known then is final.
#[tactic(auto, unfolding(crate::specs::inner::Rounds::makes_offers))]
fn makes_offers(out: LinkSet, link: Link, one: Cost, other: Cost) -> bool
    ensures { result ≡ makes_offers out link.0 one other }
{
    if out.has_link(link) {
        return false;
    }
    !(one.known() && other.known())
}

// The links that make offers in rounds that begin with the column `given`.
#[tactic(auto, using(crate::proofs::Counts::link_places))]
fn offering_links(given: [Cost; limit::NODES], network: &CheckedRows<'_>, out: LinkSet) -> LinkSet
    ensures { let R = rows_lent network.now.rows in result ≡ offering_links R.low R.high out given }
{
    let mut offering = LinkSet::empty();
    for k in 0..network.rows.low.len() {
        let x = network.rows.low[k] as usize;
        let y = network.rows.high[k] as usize;
        if makes_offers(out, Link(k), given[x], given[y]) {
            offering = offering.with_link(Link(k));
        }
    }
    offering
}

// The link whose turn comes after j others; `upward` is a bool, as what alternates is negated. Rounds go up the links and down again, in turn: along a row of nodes in the order of their
// numbers a round carries a cost to the end in one of the two directions, and one node further in the other.
#[tactic(auto, unfolding(crate::specs::inner::Rounds::turn_of))]
fn turn_of(links: usize, upward: bool, j: usize) -> usize
    requires { j < links }
    ensures { result ≡ turn_of links upward j }
{
    if upward { j } else { links - 1 - j }
}

// One round: each link of the set offers its two ends their ways over it. No answer where none of them stores one. The two offers are written
// out, as the edits `far_end_kept` and `up_for_down` each change one and leave the other.
#[tactic(auto, using(crate::proofs::Columns::turn_below, crate::proofs::Counts::link_places))]
fn round(
    column: [Cost; limit::NODES],
    network: &CheckedRows<'_>,
    offering: LinkSet,
    upward: bool,
) -> Option<[Cost; limit::NODES]>
    ensures { let R = rows_lent network.now.rows in
        revised_told column result ≡ round_of R.low R.high R.weight offering upward column }
{
    let mut next = column;
    let mut changed = false;
    let links = network.rows.low.len();
    for j in 0..links {
        let k = turn_of(links, upward, j);
        if offering.has_link(Link(k)) {
            let x = network.rows.low[k] as usize;
            let y = network.rows.high[k] as usize;
            let w = network.rows.weight[k];
            let to_low = next[y].extend(w, Link(k), (2 * k) as u8);
            if to_low.comes_before(next[x]) {
                next[x] = to_low;
                changed = true;
            }
            let to_high = next[x].extend(w, Link(k), (2 * k + 1) as u8);
            if to_high.comes_before(next[y]) {
                next[y] = to_high;
                changed = true;
            }
        }
    }
    if !changed {
        return None;
    }
    Some(next)
}

// Rounds until one changes nothing; of n nodes, n - 1 are enough.
fn settle(
    given: [Cost; limit::NODES],
    network: &CheckedRows<'_>,
    out: LinkSet,
) -> [Cost; limit::NODES]
    ensures { result ≡ settled (rows_lent network.now.rows) out given }
{
    let offering = offering_links(given, network, out);
    let mut column = given;
    let mut upward = true;
    for _ in 1..network.rows.nodes {
        let Some(next) = round(column, network, offering, upward) else {
            return column;
        };
        column = next;
        upward = !upward;
    }
    column
}

// The column without the costs of n nodes that use a link of the set. No answer where none of them does.
fn blank(column: [Cost; limit::NODES], n: usize, out: LinkSet) -> Option<[Cost; limit::NODES]>
    requires { n ≤ most_nodes }
    ensures { revised_told column result ≡ blanked n out column }
{
    let mut next = column;
    let mut changed = false;
    for cost in &mut next[..n] {
        if cost.links.meets(out) {
            *cost = Cost::none();
            changed = true;
        }
    }
    if !changed {
        return None;
    }
    Some(next)
}

// The best paths to one destination over all links.
#[tactic(auto, using(crate::proofs::Counts::few_nodes))]
pub fn column_of(network: &CheckedRows<'_>, destination: Node) -> [Cost; limit::NODES]
    requires { destination.0 < network.now.rows.nodes }
    ensures { BestColumn (network_of (rows_lent network.now.rows)) All destination.0 result }
{
    settle(start(destination), network, LinkSet::empty())
}

// The best paths without the links of the set, from those without fewer links or none. A column that none of them touches is final as
// it is.
#[tactic(auto, using(crate::proofs::Counts::few_nodes))]
pub fn column_without(
    column: [Cost; limit::NODES],
    network: &CheckedRows<'_>,
    out: LinkSet,
) -> [Cost; limit::NODES]
    ensures { Restarted (network_of (rows_lent network.now.rows)) out column result }
{
    match blank(column, network.rows.nodes, out) {
        Some(given) => settle(given, network, out),
        None => column,
    }
}
