// A batch is records one after another (compare/FORMAT.md): the head of each, the loop that has them answered, and the weights in them.
use crate::{read, read_number};
use std::io;
use std::io::{Read, Write};
use std::ops::ControlFlow;

// At most so many records are answered, so that a run ends on any input.
pub const RECORDS: usize = 1000000;

// A record of a batch as its head tells it (compare/FORMAT.md): its kind and the length of its fields, which come next.
#[derive(Clone, Copy)]
pub struct Record {
    pub kind: u8,
    pub length: usize,
}

// Reads the head of the next record: none where the input has ended, where other bytes that the input lacks are 0.
pub fn read_head<R: Read>(input: &mut R) -> io::Result<Option<Record>> {
    let mut kind = [0u8; 1];
    if !read(input, &mut kind)? {
        return Ok(None);
    }
    let length = read_number(input, 4)?;
    Ok(Some(Record {
        kind: kind[0],
        length,
    }))
}

// Answers the records of a batch one after another, until the input ends or one of them ends the run.
pub fn answer_records<
    R: Read,
    W: Write,
    F: Fn(&mut R, &mut W, Record) -> io::Result<ControlFlow<()>>,
>(input: &mut R, out: &mut W, answer: F) -> io::Result<()>
    requires { (f : F) (i : _) (o : _) (r : _) → F.pre f i o r }
{
    for _ in 0..RECORDS {
        let Some(record) = read_head(input)? else {
            return Ok(());
        };
        if answer(input, out, record)?.is_break() {
            return Ok(());
        }
    }
    Ok(())
}

// Fills the first n weights, or all where there are fewer, 4 bytes each, low byte first: false where the input ends before, or there are
// fewer. From where the input ends they stay.
pub fn read_weights<R: Read>(input: &mut R, weights: &mut [u32], n: usize) -> io::Result<bool> {
    for weight in weights.iter_mut().take(n) {
        let mut bytes = [0u8; 4];
        if !read(input, &mut bytes)? {
            return Ok(false);
        }
        *weight = u32::from_le_bytes(bytes);
    }
    Ok(n <= weights.len())
}
