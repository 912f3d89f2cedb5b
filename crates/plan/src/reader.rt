// The reader: one number after another from the lent bytes, each checked as soon as it has been read. In a link: low end, difference,
// order against the link before, weight, and that a link between the same two nodes as the one before does not weigh less. The first fault
// ends the reading, in whichever link and number it stands.
ghost use Rattle.std.specs.Prelude.{◌≡◌, ◌≤◌};
ghost use Rattle.net.specs.Limits.{most_nodes};
ghost use Rattle.net.specs.Check.{origin};
ghost use Rattle.plan.specs.Reader.{link_at, no_links, links_read, read_plan};
ghost use Rattle.plan.specs.Told.{link_at_told, reading_told};
ghost use Rattle.plan.specs.inner.Counted.{Counted};

use crate::cursor::number_at;
use crate::number::Number;
use net::{
    Network, ORIGIN, PlacedRefusal, Refusal, Span, bad_node_count, bad_weight, descends,
    lighter_twin, limit,
};

// One link that was read, its ends as the rows keep them, with the place after it.
#[derive(Clone, Copy)]
pub struct LinkRead {
    pub low: u8,
    pub high: u8,
    pub weight: u32,
    pub next: usize,
}

// One link: low end, difference, order, weight, order of parallel links.
#[tactic(auto, unfolding(crate::specs::Reader::link_at, crate::specs::Reader::take_low, crate::specs::Reader::difference_at, crate::specs::Reader::take_difference, crate::specs::Reader::weight_at, crate::specs::Reader::take_weight))]
fn read_link(s: &[u8], n: usize, first: usize, before: Span) -> Result<LinkRead, PlacedRefusal>
    requires { n ≤ most_nodes }
    ensures { link_at_told result ≡ link_at s.now n first before }
{
    let Number {
        value: low,
        next: second,
    } = number_at(s, first)?;
    let low = low as usize;
    if n <= low {
        return Err(Refusal::LinkEnds.at(first));
    }
    let Number {
        value: difference,
        next: third,
    } = number_at(s, second)?;
    let high = low + difference as usize;
    if difference == 0 || n <= high {
        return Err(Refusal::LinkEnds.at(second));
    }
    if descends(before, low, high) {
        return Err(Refusal::LinkOrder.at(first));
    }
    let Number {
        value: weight,
        next,
    } = number_at(s, third)?;
    if bad_weight(weight) {
        return Err(Refusal::LinkWeight.at(third));
    }
    if lighter_twin(before, low, high, weight) {
        Err(Refusal::LinkOrder.at(first))
    } else {
        Ok(LinkRead {
            low: low as u8,
            high: high as u8,
            weight,
            next,
        })
    }
}

// All links, then the end of the bytes.
#[tactic(auto, using(crate::proofs::Readings::has_bytes_left, crate::proofs::Readings::all_read, crate::proofs::Readings::link_refused))]
fn read_links(s: &[u8], n: usize, m: usize, first: usize) -> Result<Network, PlacedRefusal>
    requires { Counted n m }
    ensures { reading_told result ≡ links_read m s.now m first origin 0 (no_links n) }
{
    let mut network = Network {
        nodes: n,
        links: m,
        low: [0; limit::LINKS],
        high: [0; limit::LINKS],
        weight: [0; limit::LINKS],
    };
    let mut before = ORIGIN;
    let mut at = first;
    let mut k: usize = 0;
    // No `for`, which could not be left with an answer from inside: "The first fault ends the reading".
    'links: loop {
        if k == m {
            if at < s.len() {
                break 'links Err(Refusal::BytesLeft.at(at));
            }
            break 'links Ok(network);
        }
        match read_link(s, n, at, before) {
            Err(refused) => break 'links Err(refused),
            Ok(link) => {
                network.low[k] = link.low;
                network.high[k] = link.high;
                network.weight[k] = link.weight;
                before = Span {
                    low: link.low as usize,
                    high: link.high as usize,
                    weight: link.weight,
                };
                at = link.next;
                k += 1;
            }
        }
    }
}

#[tactic(auto, using(net::proofs::Tests::count_tells), unfolding(crate::specs::Reader::read_plan, crate::specs::Reader::take_node_count, crate::specs::Reader::link_count_at, crate::specs::Reader::take_link_count))]
pub fn read_plan(s: &[u8]) -> Result<Network, PlacedRefusal>
    ensures { reading_told result ≡ read_plan s.now }
{
    let Number {
        value: nodes,
        next: second,
    } = number_at(s, 0)?;
    let n = nodes as usize;
    if bad_node_count(n) {
        return Err(Refusal::NodeCount.at(0));
    }
    let Number {
        value: links,
        next: at,
    } = number_at(s, second)?;
    let m = links as usize;
    if limit::LINKS < m {
        return Err(Refusal::LinkCount.at(second));
    }
    read_links(s, n, m, at)
}
