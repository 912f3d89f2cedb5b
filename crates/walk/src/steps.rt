// One packet step, asked at a start node or on arrival over an interface.
ghost use Rattle.std.specs.Prelude.{◌≡◌, length};
ghost use Rattle.graph.specs.Network.{tail};
ghost use Rattle.net.specs.Lent.{rows_lent};
ghost use Rattle.net.specs.Rows.{network_of};
ghost use Rattle.net.specs.Told.{number_told};
ghost use Rattle.tables.specs.Lent.{tables_lent};
ghost use Rattle.walk.specs.Lent.{hop_at};
ghost use Rattle.walk.specs.Step.{bad_interface, bad_start, step_number, step_at, step_named, stepped_told, step_answer};
ghost use Rattle.walk.specs.inner.Reading.{rows_checked, tables_checked};
ghost use Rattle.walk.specs.inner.Steps.{step_around, Placed, Rerouted};

use crate::around::look_around;
use crate::checked::CheckedTables;
use crate::lent::look_up;
use crate::question::Question;
use net::{
    Failure, Interface, LentRows, Node, PlacedRefusal, Refusal, blocked, check_failure, link_of,
};
use tables::Tables;

#[derive(Clone, Copy)]
pub enum Asked {
    Start(Node),
    Arrival(Interface),
}

// What document 01 says of the packet.
#[derive(Clone, Copy)]
pub enum Stepped {
    Delivered,
    NothingToFollow,
    Dropped,
    Next(Node, Interface),
}

// 13. Twice the link count is not computed, so that nothing is asked of it.
#[tactic(auto, using(crate::proofs::Asking::start_enters_none, crate::proofs::Asking::arrival_enters))]
fn bad_interface(links: usize, asked: Asked) -> bool
    ensures { result ≡ bad_interface links asked }
{
    match asked {
        Asked::Start(_) => false,
        Asked::Arrival(h) => links <= link_of(h).0,
    }
}

// 11, of the start node.
#[tactic(auto, unfolding(crate::specs::Step::bad_start))]
fn bad_start(n: usize, asked: Asked) -> bool
    ensures { result ≡ bad_start n asked }
{
    match asked {
        Asked::Start(i) => n <= i.0,
        Asked::Arrival(_) => false,
    }
}

// 13, 12, 11 (the start node, then the destination): the first that holds.
#[tactic(auto, unfolding(crate::specs::Step::step_number, net::specs::Check::first_number))]
pub fn check_step(network: &LentRows<'_>, asked: Asked, question: Question) -> Result<(), Refusal>
    ensures { number_told result ≡ step_number network.now.nodes (length network.now.low.now) asked question }
{
    let links = network.low.len();
    if bad_interface(links, asked) {
        return Err(Refusal::InterfaceNumber);
    }
    check_failure(links, question.failure)?;
    if bad_start(network.nodes, asked) {
        return Err(Refusal::NodeNumber);
    }
    if network.nodes <= question.destination.0 {
        return Err(Refusal::NodeNumber);
    }
    Ok(())
}

// Past the failed link: the backwarding entry of interface f, which leaves the node.
fn step_around(checked: &CheckedTables<'_>, question: Question, node: Node, f: Interface) -> Stepped
    requires { Rerouted (rows_checked checked.now) question node.0 f.0 }
    ensures { tail (network_of (rows_checked checked.now)) f.0 ≡ node.0
        → step_named result ≡ step_around (rows_checked checked.now) (tables_checked checked.now) question f.0 }
{
    let Some((next, g)) = look_around(checked, question, node, f) else {
        return Stepped::Dropped;
    };
    Stepped::Next(next, g)
}

// The step at a node with the entry that is read there. A turn of the forwarding move goes the same way and then on; what both do is
// `look_up` and `blocked`.
fn step_at(checked: &CheckedTables<'_>, question: Question, node: Node, entry: u8) -> Stepped
    requires { Placed (rows_checked checked.now) question node.0 }
    ensures { step_named result ≡ step_at (rows_checked checked.now) (tables_checked checked.now) question node.0
        (hop_at checked.now.network.rows.low.now checked.now.network.rows.high.now node.0 entry) }
{
    if node == question.destination {
        return Stepped::Delivered;
    }
    let Some((next, f)) = look_up(&checked.network, node, entry) else {
        return Stepped::NothingToFollow;
    };
    if blocked(question.failure, f) {
        return step_around(checked, question, node, f);
    }
    Stepped::Next(next, f)
}

pub fn step(
    network: &LentRows<'_>,
    tables: &Tables<'_>,
    asked: Asked,
    destination: Node,
    failure: Failure,
) -> Result<Stepped, PlacedRefusal>
    ensures { stepped_told result ≡ step_answer (rows_lent network.now) (tables_lent tables.now)
        asked (record { destination = destination; failure = failure }) }
{
    let question = Question {
        destination,
        failure,
    };
    let checked = CheckedTables::of(network, check_step(network, asked, question), tables)?;
    let n = network.nodes;
    let d = destination.0;
    Ok(match asked {
        Asked::Start(i) => step_at(&checked, question, i, tables.routing[i.0 * n + d]),
        Asked::Arrival(h) => step_at(
            &checked,
            question,
            network.head_of(h),
            tables.forwarding[h.0 * n + d],
        ),
    })
}
