// The fields of records that stand beside a network (compare/FORMAT.md). What the input lacks is 0.
use net::{Failure, Interface, Link, Node, limit};
use std::io;
use std::io::Read;
use tables::Tables;
use text::{SPARE, front, front_room, read, read_number};
use walk::Asked;

// The longest lent table: a row for each interface of the largest network, and what is to spare.
pub const TABLE: usize = 2 * limit::LINKS * limit::NODES + SPARE;

// The largest hop limit, and the nodes of a walk that uses it up.
pub const HOPS: u8 = 255;

pub const VISITED: usize = 256;

// The longest lent trace, in the same way.
pub const TRACE: usize = VISITED + SPARE;

// One byte; 0 where the input ends, where `read_head` answers none.
pub fn read_byte<R: Read>(input: &mut R) -> io::Result<u8> {
    let mut bytes = [0u8; 1];
    read(input, &mut bytes)?;
    Ok(bytes[0])
}

// A lent table: so many bytes from the start. The programs have no heap, so an array has room for the longest, and its length stands
// beside.
#[derive(Clone, Copy)]
pub struct Table {
    pub length: usize,
    pub bytes: [u8; TABLE],
}

// Before it is read.
pub const NO_TABLE: Table = Table {
    length: 0,
    bytes: [0; TABLE],
};

impl Table {
    // Reads the table where it stands: one that is answered would be copied.
    pub fn read<R: Read>(&mut self, input: &mut R) -> io::Result<()> {
        self.length = read_number(input, 2)?;
        read(input, front_room(&mut self.bytes, self.length))?;
        Ok(())
    }

    // The table's bytes alone.
    pub fn lent(&self) -> &[u8] {
        front(&self.bytes, self.length)
    }
}

// The three tables of a record.
#[derive(Clone, Copy)]
pub struct ThreeTables {
    pub routing: Table,
    pub forwarding: Table,
    pub backwarding: Table,
}

pub const NO_TABLES: ThreeTables = ThreeTables {
    routing: NO_TABLE,
    forwarding: NO_TABLE,
    backwarding: NO_TABLE,
};

impl ThreeTables {
    pub fn read<R: Read>(&mut self, input: &mut R) -> io::Result<()> {
        self.routing.read(input)?;
        self.forwarding.read(input)?;
        self.backwarding.read(input)
    }

    pub fn lent(&self) -> Tables<'_> {
        Tables {
            routing: self.routing.lent(),
            forwarding: self.forwarding.lent(),
            backwarding: self.backwarding.lent(),
        }
    }
}

// One of two by a first byte, 0 or another, and a number.
fn read_choice<R: Read, T, Z: Fn(usize) -> T, O: Fn(usize) -> T>(
    input: &mut R,
    zero: &Z,
    other: &O,
) -> io::Result<T>
    requires zero { (n : _) → Z.pre zero.now n }
    requires other { (n : _) → O.pre other.now n }
{
    let kind = read_byte(input)?;
    let number = read_number(input, 8)?;
    Ok(if kind == 0 {
        zero(number)
    } else {
        other(number)
    })
}

pub fn read_failure<R: Read>(input: &mut R) -> io::Result<Failure> {
    read_choice(input, &|_| Failure::Nothing, &|l| Failure::One(Link(l)))
}

pub fn read_asked<R: Read>(input: &mut R) -> io::Result<Asked> {
    read_choice(
        input,
        &|i| Asked::Start(Node(i)),
        &|h| Asked::Arrival(Interface(h)),
    )
}
