// Past the failed link: what the backwarding entry of the interface that leads over it finds, for a step and for a walk alike.
ghost use Rattle.std.specs.Prelude.{◌≡◌, ◌+◌, ◌*◌, get_or};
ghost use Rattle.walk.specs.Lent.{hop_at};
ghost use Rattle.walk.specs.inner.Reading.{found_by, rows_checked};
ghost use Rattle.walk.specs.inner.Steps.{unblocked, Rerouted};

use crate::checked::CheckedTables;
use crate::lent::look_up;
use crate::question::Question;
use net::{Interface, Node, blocked};

// The next node with the interface that leads there; nothing where the entry leads nowhere, or over a link that has failed too.
#[tactic(auto, unfolding(crate::specs::inner::Steps::unblocked))]
pub fn look_around(
    checked: &CheckedTables<'_>,
    question: Question,
    node: Node,
    f: Interface,
) -> Option<(Node, Interface)>
    requires { Rerouted (rows_checked checked.now) question node.0 f.0 }
    ensures { result ≡ unblocked question.failure (found_by checked.now.network.rows.low.now checked.now.network.rows.high.now
        (hop_at checked.now.network.rows.low.now checked.now.network.rows.high.now node.0
        (get_or checked.now.tables.backwarding.now (f.0 * checked.now.network.rows.nodes + question.destination.0) 0))) }
{
    let n = checked.network.rows.nodes;
    let back = checked.tables.backwarding[f.0 * n + question.destination.0];
    let Some((next, g)) = look_up(&checked.network, node, back) else {
        return None;
    };
    if blocked(question.failure, g) {
        return None;
    }
    Some((next, g))
}
