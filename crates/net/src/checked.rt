// A network that the check has taken: who holds one need not ask again, and who takes one asks its caller for nothing.
ghost use Rattle.std.specs.Prelude.{◌≡◌, IfOk};
ghost use Rattle.net.specs.Check.{check_network};
ghost use Rattle.net.specs.Lent.{rows_lent};
ghost use Rattle.net.specs.Refusals.{accepted};
ghost use Rattle.net.specs.Told.{told};

use crate::check::check_network;
use crate::lent_rows::LentRows;
use crate::refusal::PlacedRefusal;

// What the check takes is a network of the documents (`check_accepts` in proofs/Accepted.antt).
#[derive(Clone, Copy)]
pub struct CheckedRows<'a> {
    pub rows: LentRows<'a>,
    pub ghost passed: { (check_network (rows_lent rows)).number ≡ accepted },
}

impl<'a> LentRows<'a> {
    // The same rows as a checked network, or the refusal of the check.
    pub fn checked(&self) -> Result<CheckedRows<'a>, PlacedRefusal>
        ensures refusal { told result ≡ check_network (rows_lent self.now) }
        ensures same_rows { IfOk result (λ network. network.rows ≡ self.now) }
    {
        check_network(self)?;
        Ok(CheckedRows { rows: *self })
    }
}
