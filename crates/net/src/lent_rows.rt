// A network in memory, as a caller lends it: its node count and three rows.
ghost use Rattle.std.specs.Prelude.{◌≡◌, take};
ghost use Rattle.net.specs.Lent.{rows_lent, rows_held};
ghost use Rattle.net.specs.Rows.{tail_of, head_of, turned};

use crate::check::end_at;
use crate::interface::{Interface, Node, link_of};
use crate::limit;

// "In memory a network is its node count and three rows: low ends, high ends, weights." Nothing is promised of the rows: `check_network`
// tells whether they are a network.
#[derive(Clone, Copy)]
pub struct LentRows<'a> {
    pub nodes: usize,
    pub low: &'a [u8],
    pub high: &'a [u8],
    pub weight: &'a [u32],
}

impl<'a> LentRows<'a> {
    // The node that an interface leaves.
    #[tactic(auto, using(crate::proofs::Rows::even_row, crate::proofs::Rows::odd_row))]
    pub fn tail_of(&self, i: Interface) -> Node
        ensures { result.0 ≡ tail_of (rows_lent self.now).low (rows_lent self.now).high i.0 }
    {
        if i.0 % 2 == 0 {
            return Node(end_at(self.low, link_of(i).0));
        }
        Node(end_at(self.high, link_of(i).0))
    }

    // The node that it enters: the one that it leaves where every link is turned.
    pub fn head_of(&self, i: Interface) -> Node
        ensures { result.0 ≡ head_of (rows_lent self.now).low (rows_lent self.now).high i.0 }
    {
        self.turned().tail_of(i)
    }

    // The same links, each from its other end.
    pub fn turned(&self) -> LentRows<'a>
        ensures { rows_lent result ≡ turned (rows_lent self.now) }
    {
        LentRows {
            nodes: self.nodes,
            low: self.high,
            high: self.low,
            weight: self.weight,
        }
    }
}

// The network that a reader's answer holds, in memory of its own: the rows' places past the last link are 0. Fixed memory, so a count
// stands beside the rows.
#[derive(Clone, Copy)]
pub struct Network {
    pub nodes: usize,
    pub links: usize,
    pub low: [u8; limit::LINKS],
    pub high: [u8; limit::LINKS],
    pub weight: [u32; limit::LINKS],
}

impl Network {
    // The network as rows that are lent on.
    pub fn lent(&self) -> LentRows<'_>
        ensures { rows_lent result ≡ rows_held self.now }
    {
        let links = self.links.min(limit::LINKS);
        LentRows {
            nodes: self.nodes,
            low: &self.low[..links],
            high: &self.high[..links],
            weight: &self.weight[..links],
        }
    }
}
