// A set of links, by number. All other code knows it by these operations, and all contracts by its number, `value`: what is above this
// crate does not see how many words a set has. For costs a set is compared as that number; `meets` asks for a link in both sets.
ghost use Rattle.std.specs.Prelude.{◌≡◌, ◌<◌};
ghost use Rattle.net.specs.Limits.{most_links};
ghost use Rattle.net.specs.inner.LinkSet.{value, no_links, with_link, has_link, is_empty, comes_before, meeting};

use crate::interface::Link;
use crate::limit;

// Bit k of the word is 1 exactly if link k is in the set.
#[derive(Clone, Copy, PartialEq, Eq)]
pub struct LinkSet {
    pub word: u64,
}

impl LinkSet {
    #[tactic(auto, unfolding(crate::specs::inner::LinkSet::no_links))]
    pub fn empty() -> LinkSet
        ensures { result ≡ no_links }
    {
        LinkSet { word: 0 }
    }

    pub fn with_link(self, link: Link) -> LinkSet
        requires { link.0 < most_links }
        ensures { result ≡ with_link self link.0 }
    {
        LinkSet {
            word: self.word | (1 << link.0),
        }
    }

    #[tactic(auto, unfolding(crate::specs::inner::LinkSet::has_link, crate::specs::inner::LinkSet::value))]
    pub fn has_link(self, link: Link) -> bool
        ensures { result ≡ has_link self link.0 }
    {
        if limit::LINKS <= link.0 {
            return false;
        }
        (self.word >> link.0) % 2 == 1
    }

    #[tactic(auto, unfolding(crate::specs::inner::LinkSet::is_empty, crate::specs::inner::LinkSet::value))]
    pub fn is_empty(self) -> bool
        ensures { result ≡ is_empty self }
    {
        self.word == 0
    }

    // Whether this one lacks the highest link that is in only one of the two.
    #[tactic(auto, unfolding(crate::specs::inner::LinkSet::comes_before, crate::specs::inner::LinkSet::value))]
    pub fn comes_before(self, other: LinkSet) -> bool
        ensures { result ≡ comes_before self other }
    {
        self.word < other.word
    }

    // Whether the two have a link in common.
    #[tactic(auto, unfolding(crate::specs::inner::LinkSet::meeting, crate::specs::inner::LinkSet::value))]
    pub fn meets(self, other: LinkSet) -> bool
        ensures { result ≡ meeting self other }
    {
        self.word & other.word != 0
    }

    // The set as the number that public answers carry.
    #[tactic(auto, unfolding(crate::specs::inner::LinkSet::value))]
    pub fn number(self) -> u64
        ensures { result ≡ value self }
    {
        self.word
    }
}
