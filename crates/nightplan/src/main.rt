// The report program: a stored plan on standard input, the report on standard output.
#![tactic(auto)]

use naming::print_failure;
use net::{Failure, LentRows, Link, Network, PlacedRefusal, limit};
use report::{Line, Lines};
use std::io;
use std::io::{Read, Write};
use tables::Tables;
use text::{front, print_refused, read_front};

// The bytes of the input that are kept: as many as the longest plan has, and one more, which shows that bytes are left. From these an
// input gets the reader's answer to all of it (`reads_first` in `plan`).
const KEPT: usize = plan::LONGEST + 1;

fn print_line<W: Write>(out: &mut W, line: Line) -> io::Result<()> {
    writeln!(
        out,
        " delivered {} dropped {} hops {} longest {}",
        line.delivered, line.dropped, line.hops, line.longest
    )
}

// The line of each link's failure: that of link k stands at k + 1.
fn print_links<W: Write>(
    out: &mut W,
    network: &LentRows<'_>,
    lines: &[Line; limit::LINKS + 1],
) -> io::Result<()> {
    for k in 0..network.low.len().min(limit::LINKS) {
        print_failure(out, network, Failure::One(Link(k)))?;
        print_line(out, lines[k + 1])?;
    }
    Ok(())
}

fn print_lines<W: Write>(out: &mut W, network: &LentRows<'_>, answer: &Lines) -> io::Result<()> {
    writeln!(out, "nodes {} links {}", network.nodes, network.low.len())?;
    print_failure(out, network, Failure::Nothing)?;
    print_line(out, answer.lines[0])?;
    print_links(out, network, &answer.lines)?;
    writeln!(
        out,
        "walks {} delivered {} dropped {}",
        answer.walks, answer.delivered, answer.dropped
    )
}

// All lines over the tables that are built for the network. No heap: the arrays stand with whoever lends them.
fn lines_of(network: &LentRows<'_>) -> Result<Lines, PlacedRefusal> {
    let mut routing = [0u8; limit::PAIRS];
    let mut forwarding = [0u8; 2 * limit::LINKS * limit::NODES];
    let mut backwarding = [0u8; 2 * limit::LINKS * limit::NODES];
    tables::build_tables(network, &mut routing, &mut forwarding, &mut backwarding)?;
    let tables = Tables {
        routing: &routing,
        forwarding: &forwarding,
        backwarding: &backwarding,
    };
    report::all_lines(network, &tables)
}

fn report_of(bytes: &[u8]) -> Result<(Network, Lines), PlacedRefusal> {
    let network = plan::read_plan(bytes)?;
    let lines = lines_of(&network.lent())?;
    Ok((network, lines))
}

fn report_plan<R: Read, W: Write>(input: &mut R, out: &mut W) -> io::Result<()> {
    let mut bytes = [0u8; KEPT];
    let count = read_front(input, &mut bytes)?;
    match report_of(front(&bytes, count)) {
        Ok((network, lines)) => print_lines(out, &network.lent(), &lines),
        Err(refused) => {
            print_refused(out, refused)?;
            writeln!(out)
        }
    }
}

// Each program has a `main` of its own: standard input, standard output, and what it does with them.
fn main(rt: HostRuntime) -> io::Result<()> {
    let mut input = rt.stdin();
    let mut out = rt.stdout();
    report_plan(&mut input, &mut out)
}
