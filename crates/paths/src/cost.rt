// A path's cost: its weight sum, then its set of links, which decides between equal sums. The first interface makes the next step free
// to read.
ghost use Rattle.std.specs.Prelude.{◌≡◌, ◌<◌};
ghost use Rattle.net.specs.Limits.{most_links};
ghost use Rattle.paths.specs.inner.Cost.{no_cost, here_cost, is_known, before, extended};

use net::{Link, LinkSet};

#[derive(Clone, Copy)]
pub struct Cost {
    pub links: LinkSet,
    pub sum: u32,
    pub first: u8,
}

// No path has this weight sum: it says that none is known. As an `Option<Cost>` it would be no plainer: one comparison tells here that a path is
// known, and in `extend` that its sum stays below the bound, where an Option takes a match and a test; and a cost would have 24 bytes in place
// of 16, and squares of costs are copied (docs/DECISIONS.md, "Speed").
pub const UNKNOWN: u32 = 4294967295;

impl Cost {
    // No path is known. This cost and the next are two values of the type, each with a definition of its own.
    #[tactic(auto, unfolding(crate::specs::inner::Cost::no_cost))]
    pub fn none() -> Cost
        ensures { result ≡ no_cost }
    {
        Cost {
            sum: UNKNOWN,
            links: LinkSet::empty(),
            first: 0,
        }
    }

    // The cost of the destination itself.
    #[tactic(auto, unfolding(crate::specs::inner::Cost::here_cost))]
    pub fn here() -> Cost
        ensures { result ≡ here_cost }
    {
        Cost {
            sum: 0,
            links: LinkSet::empty(),
            first: 0,
        }
    }

    #[tactic(auto, unfolding(crate::specs::inner::Cost::is_known))]
    pub fn known(self) -> bool
        ensures { result ≡ is_known self }
    {
        self.sum < UNKNOWN
    }

    // Weight sum first, then the set of links.
    #[tactic(auto, unfolding(crate::specs::inner::Cost::before))]
    pub fn comes_before(self, other: Cost) -> bool
        ensures { result ≡ before self other }
    {
        if self.sum == other.sum {
            return self.links.comes_before(other.links);
        }
        self.sum < other.sum
    }

    // The cost of a path with one link more in front, of that weight and entered by interface `first`.
    #[tactic(auto, unfolding(crate::specs::inner::Cost::extended))]
    pub fn extend(self, weight: u32, link: Link, first: u8) -> Cost
        requires { link.0 < most_links }
        ensures { result ≡ extended self weight link.0 first }
    {
        if self.sum < UNKNOWN - weight {
            return Cost {
                sum: self.sum + weight,
                links: self.links.with_link(link),
                first,
            };
        }
        Cost::none()
    }
}
