// Three tables that the checks have taken, with the network beside which they were checked: who holds them need not ask again.
ghost use Rattle.std.specs.Prelude.{◌≡◌, false, length, IfOk};
ghost use Rattle.net.specs.Lent.{rows_lent};
ghost use Rattle.net.specs.Told.{number_told, told};
ghost use Rattle.tables.specs.Lent.{tables_lent, tables_short};
ghost use Rattle.walk.specs.Lent.{lent_verdict};

use crate::lent::check_lent;
use net::{CheckedRows, LentRows, PlacedRefusal, Refusal};
use tables::Tables;

// The facts are what a step or a walk asks (`checked_ready` in proofs/Verdicts.antt), and no more: that the tables hold their rows, beside a
// network that the check has taken. `of` makes a value only where each entry passes too.
#[derive(Clone, Copy)]
pub struct CheckedTables<'a> {
    pub network: CheckedRows<'a>,
    pub tables: Tables<'a>,
    pub ghost long: { tables_short network.rows.nodes (length network.rows.low.now) (tables_lent tables) ≡ false },
}

impl<'a> CheckedTables<'a> {
    // What is lent as checked tables, or the refusal of every entry that reads tables.
    pub fn of(
        network: &LentRows<'a>,
        asked: Result<(), Refusal>,
        tables: &Tables<'a>,
    ) -> Result<CheckedTables<'a>, PlacedRefusal>
        ensures refusal { told result ≡ lent_verdict (rows_lent network.now) (tables_lent tables.now) (number_told asked) }
        ensures same_network { IfOk result (λ checked. checked.network.rows ≡ network.now) }
        ensures same_tables { IfOk result (λ checked. checked.tables ≡ tables.now) }
    {
        check_lent(network, asked, tables)?;
        Ok(CheckedTables {
            network: CheckedRows { rows: *network },
            tables: *tables,
        })
    }
}
