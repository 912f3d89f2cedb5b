// The refusals of document 01 by name and number, here and nowhere else in code. specs/Refusals.antt says the same numbers to the
// contracts, and specs/Told.antt which of them each refusal has.
ghost use Rattle.std.specs.Prelude.{◌≡◌};
ghost use Rattle.net.specs.Check.{verdict};
ghost use Rattle.net.specs.Told.{number_of, unplaced, verdict_said};

#[derive(Clone, Copy, PartialEq, Eq)]
pub enum Refusal {
    BytesEnd = 1,
    NumberForm = 2,
    NodeCount = 3,
    LinkCount = 4,
    LinkEnds = 5,
    LinkWeight = 6,
    LinkOrder = 7,
    BytesLeft = 8,
    RowLengths = 9,
    Room = 10,
    NodeNumber = 11,
    FailedLink = 12,
    InterfaceNumber = 13,
    TableLength = 14,
    TraceLength = 15,
    TableEntry = 16,
}

impl Refusal {
    pub fn number(self) -> u8
        ensures { result ≡ number_of self }
    {
        self as u8
    }

    // With a place.
    pub fn at(self, place: usize) -> PlacedRefusal
        ensures { result ≡ record { refusal = self; place = place } }
    {
        PlacedRefusal {
            refusal: self,
            place,
        }
    }
}

// A refusal with its place.
#[derive(Clone, Copy, PartialEq, Eq)]
pub struct PlacedRefusal {
    pub refusal: Refusal,
    pub place: usize,
}

// A refusal that names no place has place 0.
impl From<Refusal> for PlacedRefusal {
    ghost from_gives = { λ refusal refused. refused ≡ unplaced refusal };

    fn from(refusal: Refusal) -> PlacedRefusal {
        refusal.at(0)
    }
}

// A number with its place, as answers are told: of a refusal, or 0 and 0 where nothing is refused; and of any other byte too, which no
// `Refusal` holds.
#[derive(Clone, Copy, PartialEq, Eq)]
pub struct Verdict {
    pub number: u8,
    pub place: usize,
}

// The verdict of a number that names no place.
pub fn unplaced(number: u8) -> Verdict
    ensures { verdict_said result ≡ verdict number }
{
    Verdict { number, place: 0 }
}
