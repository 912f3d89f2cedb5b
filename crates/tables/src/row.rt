// The row of an interface in a forwarding or backwarding table, handed back as the part of the lent table that holds it.
ghost use Rattle.std.specs.Prelude.{◌≡◌};
ghost use Rattle.net.specs.Told.{number_told};
ghost use Rattle.tables.specs.Row.{row_check, row_of};

use net::{Interface, Refusal, bad_node_count};

// The refusal of the look-up.
#[tactic(auto, using(crate::proofs::RowLookup::row_tests))]
pub fn check_row(table: &[u8], n: usize, interface: Interface) -> Result<(), Refusal>
    ensures { number_told result ≡ row_check table.now n interface.0 }
{
    if bad_node_count(n) {
        return Err(Refusal::NodeCount);
    }
    if table.len() / n <= interface.0 {
        return Err(Refusal::InterfaceNumber);
    }
    Ok(())
}

// The row, empty where it is refused: the clause says so, and the edit `refused_row_not_empty`, so this is no Result.
#[tactic(auto, using(crate::proofs::RowLookup::row_parts))]
pub fn row_of(table: &[u8], n: usize, interface: Interface) -> &[u8]
    ensures { result.now ≡ row_of table.now n interface.0 }
{
    if let Err(_) = check_row(table, n, interface) {
        return &table[0..0];
    }
    let from = interface.0 * n;
    let to = from + n;
    &table[from..to]
}
