// What is kept of the links that were tried, for each node and destination. The square without a link shows for which interfaces it is
// key; of the detours that avoid one key link each, the dearest avoids all of them. A square of what is kept has a column for each
// destination, as the square of costs has.
ghost use Rattle.std.specs.Prelude.{◌≡◌, ℕ, suc, ◌≤◌, ◌<◌};
ghost use Rattle.net.specs.Limits.{most_nodes, most_links};
ghost use Rattle.net.specs.Lent.{rows_lent};
ghost use Rattle.net.specs.Rows.{network_of};
ghost use Rattle.tables.specs.inner.Detours.{dearer_of, noted, keys_for, none_kept, kept_for, kept_at, AllKept, SquareKept};
ghost use Rattle.tables.specs.inner.Given.{Trying, TryingAll};

use crate::key::{Trial, crosses_link};
use net::{CheckedRows, Interface, Link, LinkSet, Node, end_at, limit, reverse_of};
use paths::inner::Cost;

// The key links found so far of the interface by which the node after this one would send the packet back, and the dearest of the best
// paths that avoid one of them each. Where none was found the detour says nothing; an Option of it would cost a tag in each place of a
// square, which is copied (`UNKNOWN` in `paths/src/cost.rt` has the sizes).
#[derive(Clone, Copy)]
pub struct Kept {
    pub keys: LinkSet,
    pub detour: Cost,
}

#[tactic(auto, unfolding(crate::specs::inner::Detours::dearer_of))]
fn dearer(a: Cost, b: Cost) -> Cost
    ensures { result ≡ dearer_of a b }
{
    if a.comes_before(b) {
        return b;
    }
    a
}

// What is kept for a node after a link was tried.
#[tactic(auto, unfolding(crate::specs::inner::Detours::noted))]
fn noted(kept: Kept, link: Link, trial: &Trial) -> Kept
    requires { link.0 < most_links }
    ensures { result ≡ noted kept link.0 trial.now.whole trial.now.after trial.now.ahead trial.now.one trial.now.other }
{
    let back = reverse_of(Interface(trial.whole.first as usize));
    if trial.is_key(back) {
        return Kept {
            keys: kept.keys.with_link(link),
            detour: dearer(kept.detour, trial.after),
        };
    }
    kept
}

// Tries a link for one destination, with the column without it, for every node. A key link lies on the node's own best path, so that a
// link which that path does not cross needs no trying.
#[tactic(auto, using(paths::proofs::Counts::link_nodes))]
fn note_column(
    kept: [Kept; limit::NODES],
    all: [Cost; limit::NODES],
    without: [Cost; limit::NODES],
    network: &CheckedRows<'_>,
    destination: Node,
    link: Link,
) -> [Kept; limit::NODES]
    requires { Trying (rows_lent network.now.rows) destination.0 link.0 all without kept }
    ensures { AllKept (network_of (rows_lent network.now.rows)) destination.0 (suc link.0) all result }
{
    let one = without[end_at(network.rows.low, link.0)];
    let other = without[end_at(network.rows.high, link.0)];
    let mut next = kept;
    for i in 0..network.rows.nodes {
        let whole = all[i];
        if crosses_link(whole, link) {
            let j = network.rows.head_of(Interface(whole.first as usize));
            let trial = Trial {
                whole,
                after: without[i],
                ahead: without[j.0],
                one,
                other,
            };
            next[i] = noted(next[i], link, &trial);
        }
    }
    next
}

// Tries a link, with the square without it, for every destination.
#[tactic(auto, using(paths::proofs::Counts::few_nodes))]
pub fn note_link(
    kept: [[Kept; limit::NODES]; limit::NODES],
    all: [[Cost; limit::NODES]; limit::NODES],
    without: [[Cost; limit::NODES]; limit::NODES],
    network: &CheckedRows<'_>,
    link: Link,
) -> [[Kept; limit::NODES]; limit::NODES]
    requires { TryingAll (rows_lent network.now.rows) link.0 all without kept }
    ensures { SquareKept (network_of (rows_lent network.now.rows)) (suc link.0) all result }
{
    let mut next = kept;
    for d in 0..network.rows.nodes {
        next[d] = note_column(next[d], all[d], without[d], network, Node(d), link);
    }
    next
}

// Nothing tried yet.
#[tactic(auto, unfolding(crate::specs::inner::Detours::none_kept, crate::specs::inner::Detours::nothing_kept))]
pub fn none_kept() -> [[Kept; limit::NODES]; limit::NODES]
    ensures { result ≡ none_kept }
{
    let nothing = Kept {
        keys: LinkSet::empty(),
        detour: Cost::here(),
    };
    [[nothing; limit::NODES]; limit::NODES]
}

// The key links of interface h, by its head's cost over all links and what is kept for its head.
#[tactic(auto, using(std::proofs::lemmas::Bool::Decides::nat_tests), unfolding(crate::specs::inner::Detours::keys_for))]
pub fn keys_for(h: Interface, whole: Cost, kept: Kept) -> LinkSet
    ensures { result ≡ keys_for h.0 whole kept }
{
    if !whole.known() {
        return LinkSet::empty();
    }
    if Interface(whole.first as usize) != reverse_of(h) {
        return LinkSet::empty();
    }
    kept.keys
}
