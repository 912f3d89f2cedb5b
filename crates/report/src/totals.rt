// All lines of a report: without failure and for each failed link, and their totals. The tables are checked once.
ghost use Rattle.std.specs.Prelude.{◌≡◌, length};
ghost use Rattle.net.specs.Lent.{rows_lent};
ghost use Rattle.report.specs.Line.{line_of};
ghost use Rattle.report.specs.Lines.{lines_over, lines_held, lines_named, lines_told, lines_answer};
ghost use Rattle.tables.specs.Lent.{tables_lent};
ghost use Rattle.walk.specs.inner.Reading.{rows_checked, tables_checked};

use crate::counting::{Line, NO_WALKS, line_of};
use net::{Failure, LentRows, Link, PlacedRefusal, limit};
use tables::Tables;
use walk::inner::CheckedTables;

// Line 0 is that without failure, line k + 1 that of link k; the places past the last are 0.
#[derive(Clone, Copy)]
pub struct Lines {
    pub lines: [Line; limit::LINKS + 1],
    pub walks: usize,
    pub delivered: usize,
    pub dropped: usize,
}

#[tactic(auto, using(crate::proofs::AllLines::held_done))]
fn lines_of(checked: &CheckedTables<'_>) -> Lines
    ensures { lines_named result ≡ lines_held (length checked.now.network.rows.low.now)
        (lines_over (length checked.now.network.rows.low.now) (line_of (rows_checked checked.now) (tables_checked checked.now))) }
{
    let mut lines = [NO_WALKS; limit::LINKS + 1];
    let first = line_of(checked, Failure::Nothing);
    lines[0] = first;
    let mut delivered = first.delivered;
    let mut dropped = first.dropped;
    for k in 0..checked.network.rows.low.len() {
        let line = line_of(checked, Failure::One(Link(k)));
        lines[k + 1] = line;
        delivered += line.delivered;
        dropped += line.dropped;
    }
    Lines {
        lines,
        walks: delivered + dropped,
        delivered,
        dropped,
    }
}

// All lines, or the refusal of network and tables.
pub fn all_lines(network: &LentRows<'_>, tables: &Tables<'_>) -> Result<Lines, PlacedRefusal>
    ensures { lines_told result ≡ lines_answer (rows_lent network.now) (tables_lent tables.now) }
{
    let checked = CheckedTables::of(network, Ok(()), tables)?;
    Ok(lines_of(&checked))
}
