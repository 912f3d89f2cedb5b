// One stored number: "groups of seven bits, lowest group first, the byte's top bit set while more follow. At most three groups; a
// number of several groups doesn't end in a zero group."
ghost use Rattle.std.specs.Prelude.{◌≡◌, ◌<◌, length};
ghost use Rattle.plan.specs.Number.{number_at, stored, most_stored};
ghost use Rattle.plan.specs.Told.{number_at_told};
ghost use Rattle.plan.specs.inner.Put.{NumberFits, Put};

use net::{PlacedRefusal, Refusal};

// How many values a group has, and how many groups a number. specs/Number.antt says the same to the contracts.
const BASE: usize = 128;

pub const GROUPS: usize = 3;

// A number that takes two groups is below this.
const TWO_GROUPS: usize = BASE * BASE;

// A number that was read, with the place after it.
#[derive(Clone, Copy)]
pub struct Number {
    pub value: u32,
    pub next: usize,
}

pub fn read_number(s: &[u8], first: usize) -> Result<Number, PlacedRefusal>
    ensures { number_at_told result ≡ number_at s.now first }
{
    let mut at = first;
    let mut value: usize = 0;
    let mut scale: usize = 1;
    let mut left = GROUPS;
    // No `for`, which could not be left with an answer from inside: "The first fault ends the reading".
    'groups: loop {
        if left == 0 {
            break 'groups Err(Refusal::NumberForm.at(first));
        }
        if s.len() <= at {
            break 'groups Err(Refusal::BytesEnd.at(s.len()));
        }
        let group = s[at] as usize;
        if group < BASE {
            if group == 0 && first < at {
                break 'groups Err(Refusal::NumberForm.at(first));
            }
            break 'groups Ok(Number {
                value: (value + group * scale) as u32,
                next: at + 1,
            });
        }
        value += (group - BASE) * scale;
        scale *= BASE;
        at += 1;
        left -= 1;
    }
}

// How many bytes a number takes.
#[tactic(auto, using(crate::proofs::Lengths::one_group, crate::proofs::Lengths::two_groups, crate::proofs::Lengths::three_groups))]
pub fn stored_length(value: usize) -> usize
    requires { value < most_stored }
    ensures { result ≡ length (stored value) }
{
    if value < BASE {
        return 1;
    }
    if value < TWO_GROUPS {
        return 2;
    }
    3
}

// Puts a number into the room at a place and answers with the place after it.
pub fn put_number(room: &mut [u8], first: usize, value: usize) -> usize
    requires { NumberFits value first room.old }
    ensures { Put (stored value) first room.old room.new result }
{
    let mut at = first;
    let mut rest = value;
    // Groups go on while the value does: the place is counted along, and there is nothing to go over.
    while BASE <= rest {
        room[at] = (rest % BASE + BASE) as u8;
        rest = rest / BASE;
        at += 1;
    }
    room[at] = rest as u8;
    at + 1
}
