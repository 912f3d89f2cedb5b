// How a walk ended, and how many links it crossed.
ghost use Rattle.std.specs.Prelude.{◌≡◌};
ghost use Rattle.walk.specs.Walk.{ending_number, ending_named};

// The endings of document 01 by their numbers, without 4 (document 02, L7).
#[derive(Clone, Copy, PartialEq, Eq)]
pub enum Ending {
    Delivered = 0,
    Unrouted = 1,
    Dropped = 2,
    Exhausted = 3,
}

impl Ending {
    #[tactic(auto, unfolding(crate::specs::Walk::ending_number))]
    pub fn number(self) -> u8
        ensures { result ≡ ending_number (ending_named self) }
    {
        self as u8
    }
}

#[derive(Clone, Copy)]
pub struct Walked {
    pub ending: Ending,
    pub hops: usize,
}
