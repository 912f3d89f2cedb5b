// The walk: two kinds of move in a cycle. The forwarding move goes along working links, in a loop; where it meets the failed link it turns
// to the backwarding move, which crosses one link and hands the packet on to the next node's forwarding move. The remaining hop limit falls
// at each crossed link, in either. Only the turning round is a call, since a walk is made 64,480 times in a report.
ghost use Rattle.std.specs.Prelude.{◌≡◌};
ghost use Rattle.graph.specs.Network.{tail};
ghost use Rattle.net.specs.Rows.{network_of};
ghost use Rattle.walk.specs.Walk.{ending_named, course_of};
ghost use Rattle.walk.specs.inner.Moves.{lost_ending, HopLeft, moved_on, course_from, course_around, Standing, Turning, Went};
ghost use Rattle.walk.specs.inner.Moves.{Setting, WentFrom};
ghost use Rattle.walk.specs.inner.Reading.{rows_checked, tables_checked};

use crate::around::look_around;
use crate::checked::CheckedTables;
use crate::lent::look_up;
use crate::question::Question;
use crate::walked::{Ending, Walked};
use net::{Interface, Node, blocked};

// A packet on its way: where it stands, the entry that it reads there, the hops left and made, and whether it arrived over a link, by
// which `lost_ending` tells two endings apart.
#[derive(Clone, Copy)]
pub struct Packet {
    pub node: Node,
    pub entry: u8,
    pub left: usize,
    pub hops: usize,
    pub arrived: bool,
}

// The ending where there is nothing to follow: on arrival that of a packet dropped.
#[tactic(auto, unfolding(crate::specs::inner::Moves::lost_ending))]
fn lost_ending(arrived: bool) -> Ending
    ensures { ending_named result ≡ lost_ending arrived }
{
    if arrived {
        return Ending::Dropped;
    }
    Ending::Unrouted
}

// The packet after one hop more.
#[tactic(auto, unfolding(crate::specs::inner::Moves::moved_on))]
fn moved(packet: Packet, node: Node, entry: u8) -> Packet
    requires { HopLeft packet }
    ensures { result ≡ moved_on packet node entry }
{
    Packet {
        node,
        entry,
        left: packet.left - 1,
        hops: packet.hops + 1,
        arrived: true,
    }
}

// From where the packet stands: at the source, or past a link just crossed.
#[cycle(moves)]
fn forwarding_move(
    checked: &CheckedTables<'_>,
    question: Question,
    packet: Packet,
    trace: &mut [u8],
) -> Walked
    requires { Standing (rows_checked checked.now) question packet trace.old }
    ensures { Went (network_of (rows_checked checked.now))
        (course_from (rows_checked checked.now) (tables_checked checked.now) question packet)
        packet.hops trace.old result trace.new }
{
    let n = checked.network.rows.nodes;
    let mut here = packet;
    while here.node != question.destination {
        if here.left == 0 {
            return Walked {
                ending: Ending::Exhausted,
                hops: here.hops,
            };
        }
        let Some((node, f)) = look_up(&checked.network, here.node, here.entry) else {
            return Walked {
                ending: lost_ending(here.arrived),
                hops: here.hops,
            };
        };
        if blocked(question.failure, f) {
            return backwarding_move(checked, question, here, f, trace);
        }
        let next = here.hops + 1;
        trace[next] = node.0 as u8;
        let entry = checked.tables.forwarding[f.0 * n + question.destination.0];
        here = moved(here, node, entry);
    }
    Walked {
        ending: Ending::Delivered,
        hops: here.hops,
    }
}

// At a node whose entry leads over the failed link by interface f.
#[cycle(moves)]
fn backwarding_move(
    checked: &CheckedTables<'_>,
    question: Question,
    packet: Packet,
    f: Interface,
    trace: &mut [u8],
) -> Walked
    requires { Turning (rows_checked checked.now) question packet f.0 trace.old }
    ensures { tail (network_of (rows_checked checked.now)) f.0 ≡ packet.node.0
        → Went (network_of (rows_checked checked.now))
        (course_around (rows_checked checked.now) (tables_checked checked.now) question packet f.0)
        packet.hops trace.old result trace.new }
{
    let Some((node, g)) = look_around(checked, question, packet.node, f) else {
        return Walked {
            ending: Ending::Dropped,
            hops: packet.hops,
        };
    };
    let n = checked.network.rows.nodes;
    let next = packet.hops + 1;
    trace[next] = node.0 as u8;
    let entry = checked.tables.forwarding[g.0 * n + question.destination.0];
    forwarding_move(checked, question, moved(packet, node, entry), trace)
}

// A walk over tables that have been checked.
pub fn walk_from(
    checked: &CheckedTables<'_>,
    source: Node,
    question: Question,
    limit: usize,
    trace: &mut [u8],
) -> Walked
    requires { Setting (rows_checked checked.now) source.0 question limit trace.old }
    ensures { WentFrom (network_of (rows_checked checked.now)) source.0
        (course_of (rows_checked checked.now) (tables_checked checked.now) source.0 question limit)
        trace.old result trace.new }
{
    let n = checked.network.rows.nodes;
    let s = source.0;
    trace[0] = s as u8;
    let packet = Packet {
        node: source,
        entry: checked.tables.routing[s * n + question.destination.0],
        left: limit,
        hops: 0,
        arrived: false,
    };
    forwarding_move(checked, question, packet, trace)
}
