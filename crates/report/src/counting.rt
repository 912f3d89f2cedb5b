// One failure line: walks delivered, all other walks, hops summed over delivered walks, most hops of a delivered walk.
ghost use Rattle.std.specs.Prelude.{◌≡◌};
ghost use Rattle.net.specs.Lent.{rows_lent};
ghost use Rattle.report.specs.Line.{line_of, figures_told, figures_answer};
ghost use Rattle.report.specs.inner.Counting.{course_at, counted_line, line_below, OneMore, Source};
ghost use Rattle.tables.specs.Lent.{tables_lent};
ghost use Rattle.walk.specs.Walk.{ending_number, ending_named};
ghost use Rattle.walk.specs.inner.Reading.{rows_checked, tables_checked};

use net::{Failure, LentRows, Node, PlacedRefusal, check_failure, limit};
use tables::Tables;
use walk::inner::{CheckedTables, Ending, Question, Walked, walk_from};

#[derive(Clone, Copy)]
pub struct Line {
    pub delivered: usize,
    pub dropped: usize,
    pub hops: usize,
    pub longest: usize,
}

// Before any walk.
pub const NO_WALKS: Line = Line {
    delivered: 0,
    dropped: 0,
    hops: 0,
    longest: 0,
};

// The line with one walk more.
#[tactic(auto, unfolding(crate::specs::inner::Counting::counted_line, walk::specs::Walk::ending_number))]
fn counted(line: Line, walked: Walked) -> Line
    requires { OneMore line walked.hops }
    ensures { result ≡ counted_line line (ending_number (ending_named walked.ending)) walked.hops }
{
    if walked.ending != Ending::Delivered {
        return Line {
            dropped: line.dropped + 1,
            ..line
        };
    }
    Line {
        delivered: line.delivered + 1,
        hops: line.hops + walked.hops,
        longest: line.longest.max(walked.hops),
        ..line
    }
}

// The walks from one source, over tables that have been checked.
#[tactic(auto, using(crate::proofs::Walks::walk_counted, crate::proofs::Walks::counted_own, crate::proofs::Walks::counted_none))]
fn line_from(
    line: Line,
    checked: &CheckedTables<'_>,
    failure: Failure,
    source: Node,
    trace: &mut [u8],
) -> Line
    requires { Source (rows_checked checked.now) source.0 line trace.old }
    ensures { result ≡ line_below checked.now.network.rows.nodes source.0
        (course_at (rows_checked checked.now) (tables_checked checked.now) failure source.0) line }
{
    let mut sum = line;
    for d in 0..checked.network.rows.nodes {
        let destination = Node(d);
        if destination != source {
            let question = Question {
                destination,
                failure,
            };
            let walked = walk_from(checked, source, question, limit::REPORT_HOPS, trace);
            sum = counted(sum, walked);
        }
    }
    sum
}

// All walks of a failure, over tables that have been checked.
#[tactic(auto, using(crate::proofs::Walks::course_short, crate::proofs::Walks::source_none, crate::proofs::Walks::source_counted, crate::proofs::Walks::sources_done, crate::proofs::Walks::sources_at_most), unfolding(crate::specs::Line::no_line))]
pub fn line_of(checked: &CheckedTables<'_>, failure: Failure) -> Line
    ensures { result ≡ line_of (rows_checked checked.now) (tables_checked checked.now) failure }
{
    let mut trace = [0u8; limit::REPORT_HOPS + 1];
    let mut line = NO_WALKS;
    for s in 0..checked.network.rows.nodes {
        line = line_from(line, checked, failure, Node(s), &mut trace);
    }
    line
}

// The line of a failure, or the refusal of network, failure and tables, in that order.
pub fn failure_line(
    network: &LentRows<'_>,
    tables: &Tables<'_>,
    failure: Failure,
) -> Result<Line, PlacedRefusal>
    ensures { figures_told result ≡ figures_answer (rows_lent network.now) (tables_lent tables.now) failure }
{
    let checked = CheckedTables::of(network, check_failure(network.low.len(), failure), tables)?;
    Ok(line_of(&checked, failure))
}
