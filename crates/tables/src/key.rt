// Key links, by the column over all links and the columns without one link: the best path from u to d crosses from j to i exactly if
// the link lies in the set of u's cost and the cost falls from j to i, so that no path has to be followed.
ghost use Rattle.std.specs.Prelude.{◌≡◌, IfOk, length};
ghost use Rattle.graph.specs.Set.{SetOf};
ghost use Rattle.graph.specs.Entries.{KeyLink};
ghost use Rattle.net.specs.Lent.{rows_lent};
ghost use Rattle.net.specs.Rows.{network_of};
ghost use Rattle.net.specs.Told.{told};
ghost use Rattle.net.specs.inner.LinkSet.{value};
ghost use Rattle.tables.specs.Key.{key_links_verdict, key_links_told, KeyLinksAnswer};
ghost use Rattle.tables.specs.inner.KeyTest.{crosses_link, key_test};
ghost use Rattle.tables.specs.inner.Given.{Asked};

use net::{
    CheckedRows, Interface, LentRows, Link, LinkSet, Node, PlacedRefusal, Refusal, end_at, link_of,
    reverse_of,
};
use paths::inner::{Cost, column_of, column_without};

// Whether the path of a cost crosses the link.
#[tactic(auto, unfolding(crate::specs::inner::KeyTest::crosses_link))]
pub fn crosses_link(c: Cost, link: Link) -> bool
    ensures { result ≡ crosses_link c link.0 }
{
    if c.known() {
        return c.links.has_link(link);
    }
    false
}

// The costs for one destination by which a link is tried for an interface that enters node i from node j: `whole` of i over all links;
// without the link in question `after` of i, `ahead` of j, `one` and `other` of its two ends.
#[derive(Clone, Copy)]
pub struct Trial {
    pub whole: Cost,
    pub after: Cost,
    pub ahead: Cost,
    pub one: Cost,
    pub other: Cost,
}

impl Trial {
    // Whether the link is key for interface h, and a destination other than the node that h enters.
    #[tactic(auto, using(std::proofs::lemmas::Bool::Decides::nat_tests), unfolding(crate::specs::inner::KeyTest::key_test))]
    pub fn is_key(&self, h: Interface) -> bool
        ensures { result ≡ key_test h.0 self.now.whole self.now.after self.now.ahead self.now.one self.now.other }
    {
        if !self.whole.known() {
            return false;
        }
        if Interface(self.whole.first as usize) != reverse_of(h) {
            return false;
        }
        if !self.after.comes_before(self.ahead) {
            return false;
        }
        if crosses_link(self.one, link_of(h)) {
            return true;
        }
        crosses_link(self.other, link_of(h))
    }
}

// The key links of interface h for d, each link tried by the column without it.
#[tactic(auto, using(paths::proofs::Counts::link_nodes))]
fn keys_of(network: &CheckedRows<'_>, h: Interface, destination: Node) -> LinkSet
    requires { Asked (rows_lent network.now.rows) h.0 destination.0 }
    ensures { SetOf (length network.now.rows.low.now)
        (KeyLink (network_of (rows_lent network.now.rows)) destination.0 h.0) (value result) }
{
    let i = network.rows.head_of(h);
    let j = network.rows.tail_of(h);
    if i == destination {
        return LinkSet::empty();
    }
    let all = column_of(network, destination);
    let mut keys = LinkSet::empty();
    for k in 0..network.rows.low.len() {
        let only = LinkSet::empty().with_link(Link(k));
        let without = column_without(all, network, only);
        let trial = Trial {
            whole: all[i.0],
            after: without[i.0],
            ahead: without[j.0],
            one: without[end_at(network.rows.low, k)],
            other: without[end_at(network.rows.high, k)],
        };
        if trial.is_key(h) {
            keys = keys.with_link(Link(k));
        }
    }
    keys
}

#[tactic(auto, using(crate::proofs::KeyVerdicts::key_verdicts))]
fn check_key_links<'a>(
    network: &LentRows<'a>,
    interface: Interface,
    destination: Node,
) -> Result<CheckedRows<'a>, PlacedRefusal>
    ensures refusal { told result ≡ key_links_verdict (rows_lent network.now) interface.0 destination.0 }
    ensures same_rows { IfOk result (λ checked. checked.rows ≡ network.now) }
{
    let checked = network.checked()?;
    if network.low.len() <= link_of(interface).0 {
        return Err(Refusal::InterfaceNumber.at(0));
    }
    if network.nodes <= destination.0 {
        return Err(Refusal::NodeNumber.at(0));
    }
    Ok(checked)
}

// The set of key links by link number, bit k for link k; a refusal tells its place and the empty set.
#[tactic(auto, using(crate::proofs::KeyVerdicts::accepted_asked))]
pub fn key_links(
    network: &LentRows<'_>,
    interface: Interface,
    destination: Node,
) -> Result<u64, PlacedRefusal>
    ensures { KeyLinksAnswer (rows_lent network.now) interface.0 destination.0 (key_links_told result) }
{
    let network = check_key_links(network, interface, destination)?;
    let keys = keys_of(&network, interface, destination);
    Ok(keys.number())
}
