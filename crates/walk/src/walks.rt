// The public walk: the checks one after the other, and the walk over tables that have been checked.
ghost use Rattle.std.specs.Prelude.{◌≡◌, length, IfOk};
ghost use Rattle.net.specs.Lent.{rows_lent};
ghost use Rattle.net.specs.Told.{told};
ghost use Rattle.tables.specs.Lent.{tables_lent};
ghost use Rattle.walk.specs.Walk.{walk_verdict, walked_told, walk_answer, trace_after};

use crate::checked::CheckedTables;
use crate::moves::walk_from;
use crate::question::Question;
use crate::steps::{Asked, check_step};
use crate::walked::Walked;
use net::{Failure, LentRows, Node, PlacedRefusal, Refusal};
use tables::Tables;

// Checked tables, or the refusals of network, question and tables; then 15. A walk is asked what a step is asked at its source.
fn check_lent_walk<'a>(
    network: &LentRows<'a>,
    tables: &Tables<'a>,
    source: Node,
    question: Question,
    limit: u8,
    trace: &[u8],
) -> Result<CheckedTables<'a>, PlacedRefusal>
    ensures refusal { told result ≡ walk_verdict (rows_lent network.now) (tables_lent tables.now) source.0 question limit trace.now }
    ensures same_network { IfOk result (λ checked. checked.network.rows ≡ network.now) }
    ensures same_tables { IfOk result (λ checked. checked.tables ≡ tables.now) }
{
    let checked = CheckedTables::of(
        network,
        check_step(network, Asked::Start(source), question),
        tables,
    )?;
    if trace.len() <= limit as usize {
        return Err(Refusal::TraceLength.at(0));
    }
    Ok(checked)
}

pub fn walk(
    network: &LentRows<'_>,
    tables: &Tables<'_>,
    source: Node,
    destination: Node,
    failure: Failure,
    limit: u8,
    trace: &mut [u8],
) -> Result<Walked, PlacedRefusal>
    ensures value { walked_told result ≡ walk_answer (rows_lent network.now) (tables_lent tables.now)
        source.0 (record { destination = destination; failure = failure }) limit trace.old }
    ensures trace_after { trace.new ≡ trace_after (rows_lent network.now) (tables_lent tables.now)
        source.0 (record { destination = destination; failure = failure }) limit trace.old }
{
    let question = Question {
        destination,
        failure,
    };
    let checked = check_lent_walk(network, tables, source, question, limit, trace)?;
    let walked = walk_from(&checked, source, question, limit as usize, trace);
    Ok(walked)
}
