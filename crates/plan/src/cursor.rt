// The bytes of a plan with the place up to which they were read: "A plan is read one number after another from the lent bytes." The
// calls over the struct are thin; the work is `read_number`'s.
ghost use Rattle.std.specs.Prelude.{◌≡◌};
ghost use Rattle.plan.specs.Number.{number_at};
ghost use Rattle.plan.specs.Told.{number_at_told};

use crate::number::{Number, read_number};
use net::PlacedRefusal;

#[derive(Clone, Copy)]
pub struct Reader<'a> {
    pub bytes: &'a [u8],
    pub at: usize,
}

impl<'a> Reader<'a> {
    // A reader that has come to a place.
    pub fn reader_at(bytes: &'a [u8], at: usize) -> Reader<'a>
        ensures { (result.bytes ≡ bytes.entry) × (result.at ≡ at) }
    {
        Reader { bytes, at }
    }

    // The number at the reader's place.
    pub fn next_number(self) -> Result<Number, PlacedRefusal>
        ensures { number_at_told result ≡ number_at self.entry.bytes.now self.entry.at }
    {
        read_number(self.bytes, self.at)
    }
}

// The same for callers that hold the bytes and the place themselves.
pub fn number_at(bytes: &[u8], at: usize) -> Result<Number, PlacedRefusal>
    ensures { number_at_told result ≡ number_at bytes.now at }
{
    Reader::reader_at(bytes, at).next_number()
}
