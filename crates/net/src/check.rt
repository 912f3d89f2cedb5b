// The check of a network in memory: 9, 3, 4, then link by link 5, 7, 6, 7.
ghost use Rattle.std.specs.Prelude.{◌≡◌, get_or};
ghost use Rattle.net.specs.Check.{bad_ends, descends, bad_weight, lighter_twin, bad_node_count, link_fault, check_network};
ghost use Rattle.net.specs.Lent.{rows_lent};
ghost use Rattle.net.specs.Told.{number_told, told};

use crate::lent_rows::LentRows;
use crate::limit;
use crate::refusal::{PlacedRefusal, Refusal};

// What a link joins and weighs. As the link before, it is what the next one is compared with.
#[derive(Clone, Copy)]
pub struct Span {
    pub low: usize,
    pub high: usize,
    pub weight: u32,
}

// Before the first link stands one that nothing comes before.
pub const ORIGIN: Span = Span {
    low: 0,
    high: 0,
    weight: 0,
};

// Whether a link's ends come before those of the link before it, low end first and then high end.
#[tactic(auto, using(crate::proofs::Pairs::pair_before), unfolding(crate::specs::Check::descends))]
pub fn descends(before: Span, low: usize, high: usize) -> bool
    ensures { result ≡ descends before low high }
{
    (low, high) < (before.low, before.high)
}

// Whether a link joins the same pair as the link before it and weighs less.
#[tactic(auto, using(std::proofs::lemmas::Bool::Decides::nat_tests), unfolding(crate::specs::Check::lighter_twin))]
pub fn lighter_twin(before: Span, low: usize, high: usize, weight: u32) -> bool
    ensures { result ≡ lighter_twin before low high weight }
{
    (low, high) == (before.low, before.high) && weight < before.weight
}

// What a row of ends says of link k; 0 past its end.
pub fn end_at(row: &[u8], k: usize) -> usize
    ensures { result ≡ get_or row.now k 0 }
{
    match row.get(k) {
        Some(&end) => end as usize,
        None => 0,
    }
}

#[tactic(auto, using(std::proofs::lemmas::Bool::Decides::nat_tests), unfolding(crate::specs::Check::bad_ends))]
fn bad_ends(n: usize, low: usize, high: usize) -> bool
    ensures { result ≡ bad_ends n low high }
{
    n <= low || high <= low || n <= high
}

// Of the node count; `bad_weight` is the like of a weight, each under its own sentence of document 01.
#[tactic(auto, using(std::proofs::lemmas::Bool::Decides::nat_tests), unfolding(crate::specs::Check::bad_node_count))]
pub fn bad_node_count(n: usize) -> bool
    ensures { result ≡ bad_node_count n }
{
    n == 0 || limit::NODES < n
}

#[tactic(auto, using(std::proofs::lemmas::Bool::Decides::nat_tests), unfolding(crate::specs::Check::bad_weight))]
pub fn bad_weight(weight: u32) -> bool
    ensures { result ≡ bad_weight weight }
{
    weight == 0 || limit::WEIGHT < weight
}

// The first fault of a link after the one before it.
#[tactic(auto, unfolding(crate::specs::Check::link_fault))]
fn check_link(n: usize, before: Span, link: Span) -> Result<(), Refusal>
    ensures { number_told result ≡ link_fault n before link.low link.high link.weight }
{
    if bad_ends(n, link.low, link.high) {
        return Err(Refusal::LinkEnds);
    }
    if descends(before, link.low, link.high) {
        return Err(Refusal::LinkOrder);
    }
    if bad_weight(link.weight) {
        return Err(Refusal::LinkWeight);
    }
    if lighter_twin(before, link.low, link.high, link.weight) {
        Err(Refusal::LinkOrder)
    } else {
        Ok(())
    }
}

#[tactic(auto, using(crate::proofs::Faults::many_links))]
pub fn check_network(network: &LentRows<'_>) -> Result<(), PlacedRefusal>
    ensures { told result ≡ check_network (rows_lent network.now) }
{
    let links = network.low.len();
    if network.high.len() != links {
        return Err(Refusal::RowLengths.at(0));
    }
    if network.weight.len() != links {
        return Err(Refusal::RowLengths.at(0));
    }
    if bad_node_count(network.nodes) {
        return Err(Refusal::NodeCount.at(0));
    }
    if limit::LINKS < links {
        return Err(Refusal::LinkCount.at(0));
    }
    let mut before = ORIGIN;
    for k in 0..links {
        let link = Span {
            low: end_at(network.low, k),
            high: end_at(network.high, k),
            weight: network.weight[k],
        };
        if let Err(refusal) = check_link(network.nodes, before, link) {
            return Err(refusal.at(k));
        }
        before = link;
    }
    Ok(())
}
