// One entry as a byte: a link; 254 where the destination is the deciding node itself (checked first); 255 where no path exists.
// A row is filled as that part of the lent table.
ghost use Rattle.std.specs.Prelude.{◌≡◌, ◌≤◌, length};
ghost use Rattle.net.specs.Limits.{most_nodes};
ghost use Rattle.tables.specs.inner.EntryRow.{entry_byte, entry_row};

use net::{Node, entry, limit};
use paths::inner::Cost;

// The entry of node i for d that a cost gives.
#[tactic(auto, unfolding(crate::specs::inner::EntryRow::entry_byte))]
pub fn entry_byte(i: Node, d: Node, c: Cost) -> u8
    ensures { result ≡ entry_byte i.0 d.0 c }
{
    if i == d {
        return entry::HERE;
    }
    if c.known() {
        return entry::onward(c.first);
    }
    entry::NOWHERE
}

// Fills one row: the entries of node i for the destinations from 0 on.
pub fn fill_row(row: &mut [u8], i: Node, costs: [Cost; limit::NODES])
    requires { length row.old ≤ most_nodes }
    ensures { row.new ≡ entry_row (length row.old) i.0 0 costs }
{
    for d in 0..row.len() {
        row[d] = entry_byte(i, Node(d), costs[d]);
    }
}
