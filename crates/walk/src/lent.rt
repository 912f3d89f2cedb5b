// Three tables as they are lent: what the byte of an entry says, and the check of every entry (16), which reads each byte once.
ghost use Rattle.std.specs.Prelude.{◌≡◌, ◌*◌, ◌≤◌, ℕ, length};
ghost use Rattle.net.specs.Check.{verdict};
ghost use Rattle.net.specs.Lent.{rows_lent};
ghost use Rattle.net.specs.Told.{number_told, verdict_said, told};
ghost use Rattle.tables.specs.Lent.{tables_lent, LongEnough};
ghost use Rattle.walk.specs.Lent.{hop_at, byte_passes, table_passes, tables_pass, tables_verdict, lent_verdict};
ghost use Rattle.walk.specs.inner.Reading.{found_by, row_passes, Decides};

use net::{
    CheckedRows, Interface, LentRows, Node, PlacedRefusal, Refusal, Verdict, check_network, entry,
    unplaced,
};
use tables::Tables;
use tables::inner::tables_short;

// What the byte of an entry says at a node: the next node with the interface that leads there, or that there is nothing to follow. The
// link that the byte names leads from one of its ends to the other. This is the only place that knows what a byte means. 254 and 255 are
// no links, so they need no test of their own.
#[tactic(auto, using(crate::proofs::Hops::checked_paired, crate::proofs::Hops::high_within, crate::proofs::Hops::found_no_link, crate::proofs::Hops::found_from_low, crate::proofs::Hops::found_from_high, crate::proofs::Hops::found_apart))]
pub fn look_up(network: &CheckedRows<'_>, node: Node, byte: u8) -> Option<(Node, Interface)>
    ensures { result ≡ found_by network.now.rows.low.now network.now.rows.high.now
        (hop_at network.now.rows.low.now network.now.rows.high.now node.0 byte) }
{
    let k = byte as usize;
    if network.rows.low.len() <= k {
        return None;
    }
    let x = network.rows.low[k] as usize;
    let y = network.rows.high[k] as usize;
    if x == node.0 {
        return Some((Node(y), Interface(2 * k)));
    }
    if y == node.0 {
        return Some((Node(x), Interface(2 * k + 1)));
    }
    None
}

// One entry of a deciding node for destination d.
#[tactic(auto, using(crate::proofs::Hops::own_passes, crate::proofs::Hops::nowhere_passes, crate::proofs::Hops::found_passes))]
fn byte_passes(network: &CheckedRows<'_>, node: Node, d: usize, byte: u8) -> bool
    ensures { result ≡ byte_passes network.now.rows.low.now network.now.rows.high.now node.0 d byte }
{
    if d == node.0 {
        return byte == entry::HERE;
    }
    if byte == entry::NOWHERE {
        return true;
    }
    look_up(network, node, byte).is_some()
}

// A row of a deciding node.
fn row_passes(network: &CheckedRows<'_>, node: Node, row: &[u8]) -> bool
    ensures { result ≡ row_passes network.now.rows.low.now network.now.rows.high.now node.0 row.now }
{
    for (d, byte) in row.iter().enumerate() {
        if !byte_passes(network, node, d, *byte) {
            return false;
        }
    }
    true
}

// A table of so many rows, each decided at the node that `decider` gives for it.
fn table_passes<F: Fn(usize) -> Node>(
    network: &CheckedRows<'_>,
    rows: usize,
    table: &[u8],
    decider: F,
) -> bool
    requires callable { F.IsAlwaysCallable decider }
    requires room { rows * network.now.rows.nodes ≤ length table.now }
    ensures { (deciding : ℕ → ℕ) → Decides (F.post decider) rows deciding
        → result ≡ table_passes network.now.rows.nodes network.now.rows.low.now network.now.rows.high.now rows deciding table.now }
{
    let n = network.rows.nodes;
    for row in 0..rows {
        let from = row * n;
        let to = from + n;
        if !row_passes(network, decider(row), &table[from..to]) {
            return false;
        }
    }
    true
}

// 16, of tables that are long enough. Row i of the routing table is decided at node i; the rows of an interface at its head, those of the
// backwarding table at its tail.
fn tables_pass(network: &CheckedRows<'_>, tables: &Tables<'_>) -> bool
    requires { LongEnough network.now.rows.nodes (length network.now.rows.low.now) (tables_lent tables.now) }
    ensures { result ≡ tables_pass network.now.rows.nodes network.now.rows.low.now network.now.rows.high.now (tables_lent tables.now) }
{
    let interfaces = 2 * network.rows.low.len();
    if !table_passes(network, network.rows.nodes, tables.routing, |i| Node(i)) {
        return false;
    }
    if !table_passes(
        network,
        interfaces,
        tables.forwarding,
        |h| network.rows.head_of(Interface(h)),
    ) {
        return false;
    }
    table_passes(
        network,
        interfaces,
        tables.backwarding,
        |h| network.rows.tail_of(Interface(h)),
    )
}

// 14, then 16, of tables lent beside a checked network.
pub fn check_tables(network: &CheckedRows<'_>, tables: &Tables<'_>) -> Result<(), Refusal>
    ensures { verdict (number_told result) ≡ tables_verdict (rows_lent network.now.rows) (tables_lent tables.now) }
{
    let rows = &network.rows;
    if tables_short(rows.nodes, rows.low.len(), tables) {
        return Err(Refusal::TableLength);
    }
    if !tables_pass(network, tables) {
        return Err(Refusal::TableEntry);
    }
    Ok(())
}

// The network's refusal, then that of what is asked, then 14 and 16, each without its place. This one function is lent rows and tables one
// by one, is no part of its callers, and answers in two registers: so the compiler sees that it changes nothing, and takes it out of a loop
// that walks over the same tables again and again. Lent by reference, or answered with a place, it would be asked for each walk.
#[inline(never)]
fn lent_fault<'a>(
    nodes: usize,
    low: &'a [u8],
    high: &'a [u8],
    weight: &'a [u32],
    asked: Result<(), Refusal>,
    routing: &'a [u8],
    forwarding: &'a [u8],
    backwarding: &'a [u8],
) -> Result<(), Refusal>
    ensures { number_told result ≡ (lent_verdict
        (record { nodes = nodes; low = low.now; high = high.now; weight = weight.now })
        (record { routing = routing.now; forwarding = forwarding.now; backwarding = backwarding.now }) (number_told asked)).number }
{
    let network = LentRows {
        nodes,
        low,
        high,
        weight,
    };
    let checked = match network.checked() {
        Ok(checked) => checked,
        Err(refused) => return Err(refused.refusal),
    };
    asked?;
    let tables = Tables {
        routing,
        forwarding,
        backwarding,
    };
    check_tables(&checked, &tables)
}

// The refusal of every entry that reads tables. `CheckedTables::of` asks it, and keeps what is lent. Only the network's has a place of its
// own, for which it is checked once more.
pub fn check_lent(
    network: &LentRows<'_>,
    asked: Result<(), Refusal>,
    tables: &Tables<'_>,
) -> Result<(), PlacedRefusal>
    ensures { told result ≡ lent_verdict (rows_lent network.now) (tables_lent tables.now) (number_told asked) }
{
    let fault = lent_fault(
        network.nodes,
        network.low,
        network.high,
        network.weight,
        asked,
        tables.routing,
        tables.forwarding,
        tables.backwarding,
    );
    match fault {
        Ok(()) => Ok(()),
        Err(refusal) => {
            check_network(network)?;
            Err(refusal.at(0))
        }
    }
}

// Number and place of an answer's refusal; 0 and 0 where nothing is refused.
fn verdict_told(answer: Result<(), PlacedRefusal>) -> Verdict
    ensures { verdict_said result ≡ told answer }
{
    match answer {
        Ok(()) => unplaced(0),
        Err(refused) => Verdict {
            number: refused.refusal.number(),
            place: refused.place,
        },
    }
}

// The same of whatever number is asked, be it a refusal's, 0 or any other byte.
pub fn lent_verdict(network: &LentRows<'_>, number: u8, tables: &Tables<'_>) -> Verdict
    ensures { verdict_said result ≡ lent_verdict (rows_lent network.now) (tables_lent tables.now) number }
{
    if number == 0 {
        return verdict_told(check_lent(network, Ok(()), tables));
    }
    match check_network(network) {
        Ok(()) => unplaced(number),
        Err(refused) => verdict_told(Err(refused)),
    }
}
