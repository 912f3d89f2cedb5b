// Nodes, links and interfaces are three kinds of number: a tuple struct each, so that an interface number never indexes link rows.
ghost use Rattle.std.specs.Prelude.{◌≡◌};
ghost use Rattle.graph.specs.Network.{link, reverse};

#[derive(Clone, Copy, PartialEq, Eq)]
pub struct Node(pub usize);

#[derive(Clone, Copy, PartialEq, Eq)]
pub struct Link(pub usize);

#[derive(Clone, Copy, PartialEq, Eq)]
pub struct Interface(pub usize);

// "Interface 2k is link k entered from the low end towards the high end; interface 2k + 1 is the other direction."
#[tactic(auto, unfolding(graph::specs::Network::link))]
pub fn link_of(i: Interface) -> Link
    ensures { result.0 ≡ link i.0 }
{
    Link(i.0 / 2)
}

// The other interface of the same link.
#[tactic(auto, unfolding(graph::specs::Network::reverse))]
pub fn reverse_of(i: Interface) -> Interface
    ensures { result.0 ≡ reverse i.0 }
{
    Interface(2 * (i.0 / 2) + (1 - i.0 % 2))
}
