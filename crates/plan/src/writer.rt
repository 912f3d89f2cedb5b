// The writer: it checks the network, then that the plan fits the room, and only then writes.
ghost use Rattle.std.specs.Prelude.{◌≡◌, ◌≤◌, ◌<◌, length};
ghost use Rattle.net.specs.Check.{span_at};
ghost use Rattle.net.specs.Lent.{rows_lent};
ghost use Rattle.net.specs.inner.Overwritten.{overwritten};
ghost use Rattle.plan.specs.Plan.{link_bytes, plan_of};
ghost use Rattle.plan.specs.Writer.{write_plan, room_after};
ghost use Rattle.plan.specs.Told.{written_told};
ghost use Rattle.plan.specs.inner.Put.{Storable, LinkFits, Put};

use crate::number::{put_number, stored_length};
use net::{CheckedRows, LentRows, PlacedRefusal, Refusal, Span, end_at};

// Link k of a network in memory. It takes the rows, as all that it asks is that k is in the row of weights: with a checked network it
// would ask the same of the lower ends, and need a proof of its own.
fn span_at(network: &LentRows<'_>, k: usize) -> Span
    requires { k < length (rows_lent network.now).weight }
    ensures { result ≡ span_at (rows_lent network.now) k }
{
    Span {
        low: end_at(network.low, k),
        high: end_at(network.high, k),
        weight: network.weight[k],
    }
}

// How many bytes a link takes.
#[tactic(auto, using(crate::proofs::Lengths::few_counted, crate::proofs::Lengths::length_link))]
fn link_length(link: Span) -> usize
    requires { Storable link.low link.high link.weight }
    ensures { result ≡ length (link_bytes link.low link.high link.weight) }
{
    stored_length(link.low)
        + stored_length(link.high - link.low)
        + stored_length(link.weight as usize)
}

// How many bytes the plan of a network takes.
#[tactic(auto, using(crate::proofs::Lengths::few_counted, crate::proofs::Storing::link_storable))]
fn plan_length(network: &CheckedRows<'_>) -> usize
    ensures { result ≡ length (plan_of (rows_lent network.now.rows)) }
{
    let links = network.rows.low.len();
    let mut count = stored_length(network.rows.nodes) + stored_length(links);
    for k in 0..links {
        count += link_length(span_at(&network.rows, k));
    }
    count
}

// Puts a link into the room at a place and answers with the place after it.
fn put_link(room: &mut [u8], at: usize, link: Span) -> usize
    requires { LinkFits link.low link.high link.weight at room.old }
    ensures { Put (link_bytes link.low link.high link.weight) at room.old room.new result }
{
    let second = put_number(room, at, link.low);
    let third = put_number(room, second, link.high - link.low);
    put_number(room, third, link.weight as usize)
}

// Puts the plan of a network into a room that holds it.
fn put_plan(network: &CheckedRows<'_>, room: &mut [u8])
    requires { length (plan_of (rows_lent network.now.rows)) ≤ length room.old }
    ensures { room.new ≡ overwritten room.old 0 (plan_of (rows_lent network.now.rows)) }
{
    let links = network.rows.low.len();
    let second = put_number(room, 0, network.rows.nodes);
    let mut at = put_number(room, second, links);
    for k in 0..links {
        at = put_link(room, at, span_at(&network.rows, k));
    }
}

// Answers with the count of the bytes that were written.
pub fn write_plan(network: &LentRows<'_>, room: &mut [u8]) -> Result<usize, PlacedRefusal>
    ensures value { written_told result ≡ write_plan (rows_lent network.now) room.old }
    ensures room_after { room.new ≡ room_after (rows_lent network.now) room.old }
{
    // Written out, as `?` leaves no value for the edit `refused_place_lost` to change.
    let network = match network.checked() {
        Ok(network) => network,
        Err(refused) => return Err(refused),
    };
    let count = plan_length(&network);
    if room.len() < count {
        return Err(Refusal::Room.at(0));
    }
    put_plan(&network, room);
    Ok(count)
}
