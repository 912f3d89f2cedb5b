// The limits of document 01, here and nowhere else in code. specs/Limits.antt says the same numbers to the contracts.
pub const NODES: usize = 32;

pub const LINKS: usize = 64;

pub const WEIGHT: u32 = 65535;
// The hop limit of the report's walks.
pub const REPORT_HOPS: usize = 64;
// Ordered pairs of nodes, the length of a row that has a place for each.
pub const PAIRS: usize = NODES * NODES;
