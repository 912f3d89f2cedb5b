// The failure: which links it makes fail, and its refusal.
ghost use Rattle.std.specs.Prelude.{◌≡◌};
ghost use Rattle.graph.specs.Network.{link};
ghost use Rattle.net.specs.Failure.{fails as fails_by, failure_number};
ghost use Rattle.net.specs.Told.{number_told};

use crate::interface::{Interface, Link, link_of};
use crate::refusal::Refusal;

// "A failure is either none or one link by number": an enum and no Option, as document 01 names the form (docs/FORMS.md).
#[derive(Clone, Copy)]
pub enum Failure {
    Nothing,
    One(Link),
}

// Whether the failure has the link.
#[tactic(auto, unfolding(crate::specs::Failure::fails))]
pub fn fails(failure: Failure, link: Link) -> bool
    ensures { result ≡ fails_by failure link.0 }
{
    match failure {
        Failure::Nothing => false,
        Failure::One(l) => link == l,
    }
}

// Whether the link of an interface has failed: a failed link is out in both of its directions.
pub fn blocked(failure: Failure, f: Interface) -> bool
    ensures { result ≡ fails_by failure (link f.0) }
{
    fails(failure, link_of(f))
}

// 12, of a network with so many links, where the failure names none of them.
#[tactic(auto, using(std::proofs::lemmas::Bool::Decides::nat_tests), unfolding(crate::specs::Failure::failure_number))]
pub fn check_failure(links: usize, failure: Failure) -> Result<(), Refusal>
    ensures { number_told result ≡ failure_number links failure }
{
    match failure {
        Failure::Nothing => Ok(()),
        Failure::One(l) => {
            if links <= l.0 {
                return Err(Refusal::FailedLink);
            }
            Ok(())
        }
    }
}
