// The byte of an entry: a link by its number, or one of two bytes that are no links, here and nowhere else in code. Tables are lent as
// bytes ("An entry is one byte"), so these stay numbers: an enum would only be turned into them at each place that fills or checks a table.
ghost use Rattle.std.specs.Prelude.{◌≡◌};
ghost use Rattle.graph.specs.Network.{link};

use crate::interface::{Interface, link_of};

// The destination is the deciding node itself.
pub const HERE: u8 = 254;

// No path exists.
pub const NOWHERE: u8 = 255;

// An entry that leads onward by interface `first` names its link.
#[tactic(auto, unfolding(graph::specs::Network::link))]
pub fn onward(first: u8) -> u8
    ensures { result ≡ link first }
{
    link_of(Interface(first as usize)).0 as u8
}
