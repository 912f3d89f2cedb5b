// Every walk over a network's own tables, as one hash: the answer to a record A (compare/FORMAT.md).
use crate::batch::{HOPS, VISITED};
use crate::hash;
use crate::hash::{hash_byte, hash_bytes};
use net::{Failure, LentRows, Link, Node, PlacedRefusal};
use std::num::wrapping_add_usize;
use tables::Tables;
use text::front;
use walk::Walked;

// Ending and hops of a walk as a batch tells them: "a refused answer has 0 in every other figure" (compare/FORMAT.md).
pub fn ended(answer: Result<Walked, PlacedRefusal>) -> (u8, usize) {
    match answer {
        Ok(walked) => (walked.ending.number(), walked.hops),
        Err(_) => (0, 0),
    }
}

fn one_walk(
    sum: u64,
    network: &LentRows<'_>,
    tables: &Tables<'_>,
    failure: Failure,
    source: Node,
    destination: Node,
) -> u64 {
    let mut trace = [0u8; VISITED];
    let walked = walk::walk(
        network,
        tables,
        source,
        destination,
        failure,
        HOPS,
        &mut trace,
    );
    let (ending, hops) = ended(walked);
    let ended = hash_byte(sum, ending);
    let counted = hash_byte(ended, (hops % 256) as u8);
    hash_bytes(counted, front(&trace, wrapping_add_usize(hops, 1)))
}

fn walks_past(sum: u64, network: &LentRows<'_>, tables: &Tables<'_>, failure: Failure) -> u64 {
    let mut hash = sum;
    for s in 0..network.nodes {
        for d in 0..network.nodes {
            hash = one_walk(hash, network, tables, failure, Node(s), Node(d));
        }
    }
    hash
}

pub fn all_walks(network: &LentRows<'_>, tables: &Tables<'_>) -> u64 {
    let mut hash = walks_past(hash::START, network, tables, Failure::Nothing);
    for k in 0..network.low.len() {
        hash = walks_past(hash, network, tables, Failure::One(Link(k)));
    }
    hash
}
