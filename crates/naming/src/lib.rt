// How reports name what they speak of: one function names a failure, for every report program.
#![tactic(auto)]

ghost use Rattle.std.specs.Prelude.{◌≡◌, Some, OnOk};
ghost use Rattle.std.specs.Io.KnownBytes.{Appends};
ghost use Rattle.naming.specs.Name.{is_twin, has_twin, name_of};
ghost use Rattle.naming.specs.Printed.{name_text};
ghost use Rattle.net.specs.Lent.{rows_lent};

use net::{Failure, LentRows, Link, end_at};
use std::io::Write;
use std::{fmt, io};

// Twin: one of two or more links that join the same nodes, by its ends and its own number.
#[derive(Clone, Copy)]
pub enum FailureName {
    NoFailure,
    Ends(usize, usize),
    Twin(usize, usize, usize),
}

// `none`, `0-1`, or `0-1/3`.
impl fmt::Display for FailureName {
    ghost output = { λ name. Some (name_text name) };

    fn fmt<W: fmt::Write>(&self, f: &mut fmt::Formatter<W>) -> fmt::Result {
        match self {
            FailureName::NoFailure => write!(f, "none"),
            FailureName::Ends(low, high) => write!(f, "{low}-{high}"),
            FailureName::Twin(low, high, number) => write!(f, "{low}-{high}/{number}"),
        }
    }
}

// Whether the other link is another than this one and joins the same nodes.
fn is_twin(network: &LentRows<'_>, link: Link, other: Link) -> bool
    ensures { result ≡ is_twin (rows_lent network.now).low (rows_lent network.now).high link.0 other.0 }
{
    if other == link {
        return false;
    }
    if end_at(network.low, other.0) == end_at(network.low, link.0) {
        return end_at(network.high, other.0) == end_at(network.high, link.0);
    }
    false
}

fn has_twin(network: &LentRows<'_>, link: Link) -> bool
    ensures { result ≡ has_twin (rows_lent network.now).low (rows_lent network.now).high link.0 }
{
    for k in 0..network.low.len() {
        if is_twin(network, link, Link(k)) {
            return true;
        }
    }
    false
}

#[tactic(auto, unfolding(crate::specs::Name::name_of))]
pub fn name_of(network: &LentRows<'_>, failure: Failure) -> FailureName
    ensures { result ≡ name_of (rows_lent network.now).low (rows_lent network.now).high failure }
{
    match failure {
        Failure::Nothing => FailureName::NoFailure,
        Failure::One(link) => {
            let low_end = end_at(network.low, link.0);
            let high_end = end_at(network.high, link.0);
            if has_twin(network, link) {
                return FailureName::Twin(low_end, high_end, link.0);
            }
            FailureName::Ends(low_end, high_end)
        }
    }
}

// Writes the name of a failure.
pub fn print_failure<W: Write>(
    out: &mut W,
    network: &LentRows<'_>,
    failure: Failure,
) -> io::Result<()>
    ensures { OnOk result (Appends (W.contents out.old) (W.contents out.new)
        (name_text (name_of (rows_lent network.now).low (rows_lent network.now).high failure))) }
{
    let name = name_of(network, failure);
    write!(out, "{name}")
}
