// A test program: runs best paths, key links, tables, row look-up, steps, walks and failure lines on a batch of records from standard
// input, a line of answers for each, so that one run compares thousands of them with the second program. What records T, K, B, R, S, W, A
// and F and their answers look like: compare/FORMAT.md. Anything else ends the run. A batch is taken to be whole: what the input lacks is 0.
#![tactic(auto)]

mod batch;
mod hash;
mod walks;

use batch::{NO_TABLE, NO_TABLES, TABLE, TRACE, read_asked, read_byte, read_failure};
use hash::{hash_bytes, print_hash};
use net::{Interface, Node, PlacedRefusal, limit};
use paths::BestPath;
use report::Line;
use std::io;
use std::io::{Read, Write};
use std::ops::ControlFlow;
use tables::Tables;
use text::{
    Record, UNTOUCHED, answer_records, front, front_room, hex, print_told, read_network,
    read_number,
};
use walk::{Stepped, Walked};
use walks::{all_walks, ended};

// The tables of networks of at most so many nodes are told in full, others by their hash alone.
const IN_FULL: usize = 6;

fn print_tables<W: Write>(out: &mut W, tables: &Tables<'_>) -> io::Result<()> {
    write!(out, " ")?;
    hex(out, tables.routing)?;
    write!(out, " ")?;
    hex(out, tables.forwarding)?;
    write!(out, " ")?;
    hex(out, tables.backwarding)
}

fn print_built<W: Write>(
    out: &mut W,
    n: usize,
    built: Result<(), PlacedRefusal>,
    tables: &Tables<'_>,
) -> io::Result<()> {
    write!(out, "tables ")?;
    print_told(out, &built)?;
    write!(out, " ")?;
    let one = hash_bytes(hash::START, tables.routing);
    let two = hash_bytes(one, tables.forwarding);
    print_hash(out, hash_bytes(two, tables.backwarding))?;
    if built.is_ok() && n <= IN_FULL {
        return print_tables(out, tables);
    }
    Ok(())
}

fn tables_line<R: Read, W: Write>(input: &mut R, out: &mut W) -> io::Result<()> {
    let rows = read_network(input)?;
    let routings = read_number(input, 2)?;
    let forwardings = read_number(input, 2)?;
    let backwardings = read_number(input, 2)?;
    let mut routing = [UNTOUCHED; TABLE];
    let mut forwarding = [UNTOUCHED; TABLE];
    let mut backwarding = [UNTOUCHED; TABLE];
    let built = tables::build_tables(
        &rows.lent(),
        front_room(&mut routing, routings),
        front_room(&mut forwarding, forwardings),
        front_room(&mut backwarding, backwardings),
    );
    let tables = Tables {
        routing: front(&routing, routings),
        forwarding: front(&forwarding, forwardings),
        backwarding: front(&backwarding, backwardings),
    };
    print_built(out, rows.nodes, built, &tables)
}

fn keys_line<R: Read, W: Write>(input: &mut R, out: &mut W) -> io::Result<()> {
    let rows = read_network(input)?;
    let interface = read_number(input, 8)?;
    let destination = read_number(input, 8)?;
    let keys = tables::key_links(&rows.lent(), Interface(interface), Node(destination));
    write!(out, "keys ")?;
    print_told(out, &keys)?;
    write!(out, " {}", keys.unwrap_or(0))
}

fn best_line<R: Read, W: Write>(input: &mut R, out: &mut W) -> io::Result<()> {
    let rows = read_network(input)?;
    let source = read_number(input, 8)?;
    let destination = read_number(input, 8)?;
    let best = paths::best_path(&rows.lent(), Node(source), Node(destination));
    write!(out, "best ")?;
    print_told(out, &best)?;
    let BestPath { sum, links, entry } = best.unwrap_or(BestPath {
        sum: 0,
        links: 0,
        entry: 0,
    });
    write!(out, " sum {sum} links {links} entry {entry}")
}

fn row_line<R: Read, W: Write>(input: &mut R, out: &mut W) -> io::Result<()> {
    let mut table = NO_TABLE;
    table.read(input)?;
    let n = read_number(input, 8)?;
    let interface = read_number(input, 8)?;
    let number = match tables::check_row(table.lent(), n, Interface(interface)) {
        Ok(()) => 0,
        Err(refusal) => refusal.number(),
    };
    write!(out, "row {number} ")?;
    hex(out, tables::row_of(table.lent(), n, Interface(interface)))
}

// A step that is not refused has `0 at 0`, written here with the rest: standard output is not buffered, so that each part is a write.
fn print_stepped<W: Write>(out: &mut W, stepped: Stepped) -> io::Result<()> {
    match stepped {
        Stepped::Delivered => write!(out, "step 0 at 0 delivered"),
        Stepped::NothingToFollow => write!(out, "step 0 at 0 nothing"),
        Stepped::Dropped => write!(out, "step 0 at 0 dropped"),
        Stepped::Next(node, interface) => {
            write!(out, "step 0 at 0 next {} {}", node.0, interface.0)
        }
    }
}

fn step_line<R: Read, W: Write>(input: &mut R, out: &mut W) -> io::Result<()> {
    let rows = read_network(input)?;
    let mut tables = NO_TABLES;
    tables.read(input)?;
    let asked = read_asked(input)?;
    let destination = read_number(input, 8)?;
    let failure = read_failure(input)?;
    let answer = walk::step(
        &rows.lent(),
        &tables.lent(),
        asked,
        Node(destination),
        failure,
    );
    match answer {
        Ok(stepped) => print_stepped(out, stepped),
        Err(_) => {
            write!(out, "step ")?;
            print_told(out, &answer)?;
            write!(out, " -")
        }
    }
}

fn print_walk<W: Write>(
    out: &mut W,
    answer: Result<Walked, PlacedRefusal>,
    trace: &[u8],
) -> io::Result<()> {
    write!(out, "walk ")?;
    print_told(out, &answer)?;
    let (ending, hops) = ended(answer);
    write!(out, " ending {ending} hops {hops} trace ")?;
    hex(out, trace)
}

fn walk_line<R: Read, W: Write>(input: &mut R, out: &mut W) -> io::Result<()> {
    let rows = read_network(input)?;
    let mut tables = NO_TABLES;
    tables.read(input)?;
    let source = read_number(input, 8)?;
    let destination = read_number(input, 8)?;
    let failure = read_failure(input)?;
    let limit = read_byte(input)?;
    let length = read_number(input, 2)?;
    let mut trace = [UNTOUCHED; TRACE];
    let answer = walk::walk(
        &rows.lent(),
        &tables.lent(),
        Node(source),
        Node(destination),
        failure,
        limit,
        front_room(&mut trace, length),
    );
    print_walk(out, answer, front(&trace, length))
}

fn all_line<R: Read, W: Write>(input: &mut R, out: &mut W) -> io::Result<()> {
    let rows = read_network(input)?;
    let network = rows.lent();
    // No heap: the arrays stand with whoever lends them, here as in nightplan's `lines_of`.
    let mut routing = [0u8; limit::PAIRS];
    let mut forwarding = [0u8; 2 * limit::LINKS * limit::NODES];
    let mut backwarding = [0u8; 2 * limit::LINKS * limit::NODES];
    let built = tables::build_tables(&network, &mut routing, &mut forwarding, &mut backwarding);
    write!(out, "all ")?;
    print_told(out, &built)?;
    write!(out, " ")?;
    if built.is_err() {
        return write!(out, "-");
    }
    let tables = Tables {
        routing: &routing,
        forwarding: &forwarding,
        backwarding: &backwarding,
    };
    print_hash(out, all_walks(&network, &tables))
}

fn figures_line<R: Read, W: Write>(input: &mut R, out: &mut W) -> io::Result<()> {
    let rows = read_network(input)?;
    let mut tables = NO_TABLES;
    tables.read(input)?;
    let failure = read_failure(input)?;
    let answer = report::failure_line(&rows.lent(), &tables.lent(), failure);
    write!(out, "figures ")?;
    print_told(out, &answer)?;
    let line = answer.unwrap_or(Line {
        delivered: 0,
        dropped: 0,
        hops: 0,
        longest: 0,
    });
    write!(
        out,
        " {} {} {} {}",
        line.delivered, line.dropped, line.hops, line.longest
    )
}

// Answers one record; a byte that is no kind ends the run.
fn answer<R: Read, W: Write>(
    input: &mut R,
    out: &mut W,
    record: Record,
) -> io::Result<ControlFlow<()>> {
    match record.kind {
        b'T' => tables_line(input, out)?,
        b'K' => keys_line(input, out)?,
        b'B' => best_line(input, out)?,
        b'R' => row_line(input, out)?,
        b'S' => step_line(input, out)?,
        b'W' => walk_line(input, out)?,
        b'A' => all_line(input, out)?,
        b'F' => figures_line(input, out)?,
        _ => return Ok(ControlFlow::Break(())),
    }
    writeln!(out)?;
    Ok(ControlFlow::Continue(()))
}

// Each program has a `main` of its own: standard input, standard output, and what it does with them.
fn main(rt: HostRuntime) -> io::Result<()> {
    let mut input = rt.stdin();
    let mut out = rt.stdout();
    answer_records(&mut input, &mut out, answer)
}
