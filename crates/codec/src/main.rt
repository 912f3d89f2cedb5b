// A test program: runs the reader, the check and the writer on a batch of records from standard input, a line of answers for each, so
// that one run compares thousands of them with the second program. What records P and N and their answers look like: compare/FORMAT.md.
// Anything else ends the run.
#![tactic(auto)]

use net::{LentRows, end_at, limit};
use std::io;
use std::io::{Read, Write};
use std::ops::ControlFlow;
use text::{
    Record, SPARE, UNTOUCHED, answer_records, front, front_room, hex, print_refused, print_told,
    read, read_network, read_number,
};

// The longest stored plan of a record, and the longest room for one: 2 + 3 * LINKS numbers of three groups each, and what is to spare.
const PLAN: usize = 3 * (2 + 3 * limit::LINKS) + SPARE;

fn print_links<W: Write>(out: &mut W, network: &LentRows<'_>) -> io::Result<()> {
    for (k, weight) in network.weight.iter().enumerate() {
        let low = end_at(network.low, k);
        let high = end_at(network.high, k);
        write!(out, " {low}-{high}:{weight}")?;
    }
    Ok(())
}

// The plan that the writer makes, and its refusal of a room one byte shorter.
fn print_written<W: Write>(out: &mut W, network: &LentRows<'_>) -> io::Result<()> {
    let mut room = [0u8; PLAN];
    let Ok(count) = plan::write_plan(network, &mut room) else {
        return Ok(());
    };
    write!(out, " plan ")?;
    hex(out, front(&room, count))?;
    let mut small = [0u8; PLAN];
    let shorter = front_room(&mut small, count.saturating_sub(1));
    // As in `row_line` of answers, of an error of another type.
    let number = match plan::write_plan(network, shorter) {
        Ok(_) => 0,
        Err(refused) => refused.refusal.number(),
    };
    write!(out, " short {number}")
}

fn print_network<W: Write>(out: &mut W, network: &LentRows<'_>) -> io::Result<()> {
    write!(
        out,
        "nodes {} links {}",
        network.nodes,
        network.weight.len()
    )?;
    print_links(out, network)?;
    print_written(out, network)
}

fn print_plan<W: Write>(out: &mut W, bytes: &[u8]) -> io::Result<()> {
    match plan::read_plan(bytes) {
        Ok(network) => print_network(out, &network.lent()),
        Err(refused) => print_refused(out, refused),
    }
}

fn plan_record<R: Read, W: Write>(
    input: &mut R,
    out: &mut W,
    length: usize,
) -> io::Result<ControlFlow<()>> {
    let mut bytes = [0u8; PLAN];
    if bytes.len() < length {
        return Ok(ControlFlow::Break(()));
    }
    if !read(input, front_room(&mut bytes, length))? {
        return Ok(ControlFlow::Break(()));
    }
    print_plan(out, front(&bytes, length))?;
    writeln!(out)?;
    Ok(ControlFlow::Continue(()))
}

fn print_checks<W: Write>(out: &mut W, network: &LentRows<'_>, room: &mut [u8]) -> io::Result<()> {
    write!(out, "network ")?;
    print_told(out, &net::check_network(network))?;
    let written = plan::write_plan(network, room);
    write!(out, " write ")?;
    print_told(out, &written)?;
    write!(out, " count {} room ", written.unwrap_or(0))?;
    hex(out, room)?;
    writeln!(out)
}

fn network_record<R: Read, W: Write>(input: &mut R, out: &mut W) -> io::Result<ControlFlow<()>> {
    let rows = read_network(input)?;
    let length = read_number(input, 2)?;
    let mut room = [UNTOUCHED; PLAN];
    if room.len() < length {
        return Ok(ControlFlow::Break(()));
    }
    print_checks(out, &rows.lent(), front_room(&mut room, length))?;
    Ok(ControlFlow::Continue(()))
}

// Answers one record; one that is none of these ends the run.
fn answer<R: Read, W: Write>(
    input: &mut R,
    out: &mut W,
    record: Record,
) -> io::Result<ControlFlow<()>> {
    match record.kind {
        b'P' => plan_record(input, out, record.length),
        b'N' => network_record(input, out),
        _ => Ok(ControlFlow::Break(())),
    }
}

// Each program has a `main` of its own: standard input, standard output, and what it does with them.
fn main(rt: HostRuntime) -> io::Result<()> {
    let mut input = rt.stdin();
    let mut out = rt.stdout();
    answer_records(&mut input, &mut out, answer)
}
