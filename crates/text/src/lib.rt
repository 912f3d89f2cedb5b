// What the programs share: bytes and numbers to a writer, bytes, numbers and rows from a reader, and the front of a row. In the programs
// these are standard output and standard input. An error is an I/O error, of the reader, the writer or std, and no function here makes
// another. After one it is left open how much was written, as std's `write_all` leaves it; what was read stands at the front of the bytes.
#![tactic(auto)]

ghost use Rattle.std.specs.Prelude.{◌≡◌, ◌<◌, ◌≤◌, true, false, IfOk, OnOk, OnErr, decimal, length, take};
ghost use Rattle.std.specs.Io.KnownBytes.{Appends, Consumes, IsAtEnd, Keeps};
ghost use Rattle.net.specs.Lent.{rows_lent};
ghost use Rattle.net.specs.Told.{told};
ghost use Rattle.text.specs.Bytes.{shifted_by, number_of};
ghost use Rattle.text.specs.Batch.{rows_of};
ghost use Rattle.text.specs.Taken.{TakesSome, TakesFewer};
ghost use Rattle.text.specs.Written.{number_at_place, refused_text, hex_digit, hex_of};

mod records;

use net::{LentRows, PlacedRefusal};
pub use records::{RECORDS, Record, answer_records, read_head, read_weights};
use std::io;
use std::io::{ErrorKind, Read, Write};

// What a lent room, table or trace holds before it is lent.
pub const UNTOUCHED: u8 = 238;

// Bytes that it may have beyond all that can be asked of it.
pub const SPARE: usize = 128;

// The longest row of a network: its length is one byte.
pub const ROW: usize = 255;

// Writes the bytes.
pub fn text<W: Write>(out: &mut W, bytes: &[u8]) -> io::Result<()>
    ensures { OnOk result (Appends (W.contents out.old) (W.contents out.new) bytes.now) }
{
    out.write_all(bytes)
}

// Writes the number in decimal digits.
pub fn decimal<W: Write>(out: &mut W, n: usize) -> io::Result<()>
    ensures { OnOk result (Appends (W.contents out.old) (W.contents out.new) (decimal n)) }
{
    write!(out, "{n}")
}

// Writes a refusal number and its place, as `3 at 0`. The two come apart, since `0 at 0` is written too, where nothing is refused.
pub fn number_and_place<W: Write>(out: &mut W, number: u8, place: usize) -> io::Result<()>
    ensures { OnOk result (Appends (W.contents out.old) (W.contents out.new) (number_at_place number place)) }
{
    write!(out, "{number} at {place}")
}

// Writes the number and place of an answer's refusal; `0 at 0` where nothing is refused.
pub fn print_told<W: Write, T>(out: &mut W, answer: &Result<T, PlacedRefusal>) -> io::Result<()>
    ensures { OnOk result (Appends (W.contents out.old) (W.contents out.new)
        (number_at_place (told answer.now).number (told answer.now).place)) }
{
    match answer {
        Ok(_) => number_and_place(out, 0, 0),
        Err(refused) => number_and_place(out, refused.refusal.number(), refused.place),
    }
}

// Writes a refusal, as `refused 3 at 0`.
pub fn print_refused<W: Write>(out: &mut W, refused: PlacedRefusal) -> io::Result<()>
    ensures { OnOk result (Appends (W.contents out.old) (W.contents out.new) (refused_text refused)) }
{
    write!(out, "refused ")?;
    number_and_place(out, refused.refusal.number(), refused.place)
}

// Writes each byte as two hexadecimal digits in lower case. The two go out in one write, where the format `{byte:02x}` makes two of a byte
// below 16: the programs write unbuffered, so that each is a call of the system.
#[tactic(auto, using(crate::proofs::Written::digits_so_far))]
pub fn hex<W: Write>(out: &mut W, bytes: &[u8]) -> io::Result<()>
    ensures { OnOk result (Appends (W.contents out.old) (W.contents out.new) (hex_of bytes.now)) }
{
    for byte in bytes {
        text(out, &[digit(byte / 16), digit(byte % 16)])?;
    }
    Ok(())
}

fn digit(half: u8) -> u8
    requires { half < 16 }
    ensures { result ≡ hex_digit half }
{
    if half < 10 {
        b'0' + half
    } else {
        b'a' - 10 + half
    }
}

// The bytes as one number, low byte first; those past the eighth do not count.
pub fn number_of(bytes: &[u8]) -> u64
    ensures { result ≡ number_of bytes.now }
{
    bytes
        .iter()
        .rev()
        .fold(0, |above, byte| shifted(above, *byte))
}

// The number moved up by one byte, with this byte below it; what goes past 2^64 falls away.
fn shifted(value: u64, byte: u8) -> u64
    ensures { result ≡ shifted_by value byte }
{
    value % (1 << 56) * 256 + u64::from(byte)
}

// One read, made again where it was interrupted.
fn read_some<R: Read>(input: &mut R, bytes: &mut [u8]) -> io::Result<usize>
    ensures bound { IfOk result (λ n. n ≤ length bytes.new) }
    ensures taken { IfOk result (λ n. Consumes (R.remaining input.old) (R.remaining input.new) (take n bytes.new)) }
    ensures end { IfOk result (λ n. n ≡ 0 → 0 < length bytes.new → IsAtEnd (R.remaining input.new)) }
    ensures err { OnErr result (Keeps (R.remaining input.old) (R.remaining input.new)) }
{
    for _ in 0..u64::MAX {
        match input.read(bytes) {
            Err(e) if e.kind() == ErrorKind::Interrupted => {}
            outcome => return outcome,
        }
    }
    input.read(bytes)
}

// Reads until the bytes are full or the input ends, and returns how many it put at their start. The loop is over what is left of the
// bytes: std's `read_exact` tells the end as an error and says nothing of what it read before one, where `taken` and `err` speak of it.
#[tactic(auto, using(crate::proofs::Taken::taken_so_far))]
pub fn read_front<R: Read>(input: &mut R, bytes: &mut [u8]) -> io::Result<usize>
    ensures bound { IfOk result (λ n. n ≤ length bytes.new) }
    ensures taken { IfOk result (λ n. Consumes (R.remaining input.old) (R.remaining input.new) (take n bytes.new)) }
    ensures end { IfOk result (λ n. n < length bytes.new → IsAtEnd (R.remaining input.new)) }
    ensures err { OnErr result (TakesSome (R.remaining input.old) (R.remaining input.new) bytes.new) }
{
    let mut done = 0;
    while done < bytes.len() {
        let n = read_some(input, &mut bytes[done..])?;
        if n == 0 {
            break;
        }
        done += n;
    }
    Ok(done)
}

// Fills the bytes from the input: false where the input ends before. A bool, as no value stands beside it (clauses `filled`, `cut` and
// `fewer`).
pub fn read<R: Read>(input: &mut R, bytes: &mut [u8]) -> io::Result<bool>
    ensures filled { IfOk result (λ whole. whole ≡ true → Consumes (R.remaining input.old) (R.remaining input.new) bytes.new) }
    ensures cut { IfOk result (λ whole. whole ≡ false → IsAtEnd (R.remaining input.new)) }
    ensures fewer { IfOk result (λ whole. whole ≡ false → TakesFewer (R.remaining input.old) (R.remaining input.new) bytes.new) }
    ensures err { OnErr result (TakesSome (R.remaining input.old) (R.remaining input.new) bytes.new) }
{
    Ok(read_front(input, bytes)? == bytes.len())
}

// Reads a number of so many bytes, at most 8, low byte first. What the input lacks is 0.
pub fn read_number<R: Read>(input: &mut R, width: usize) -> io::Result<usize> {
    let mut bytes = [0u8; 8];
    read(input, front_room(&mut bytes, width))?;
    Ok(number_of(&bytes) as usize)
}

// A network in memory as a batch has it, its rows of any length. The programs have no heap, so each row is an array that has room for the
// longest, and its length: one for each row, since they may differ (refusal 9), as those of a `Network` may not.
#[derive(Clone, Copy)]
pub struct Rows {
    pub nodes: usize,
    pub lows: usize,
    pub highs: usize,
    pub weights: usize,
    pub low: [u8; ROW],
    pub high: [u8; ROW],
    pub weight: [u32; ROW],
}

impl Rows {
    // The rows alone, as a network in memory is lent.
    pub fn lent(&self) -> LentRows<'_>
        ensures { rows_lent result ≡ rows_of self.now }
    {
        LentRows {
            nodes: self.nodes,
            low: front(&self.low, self.lows),
            high: front(&self.high, self.highs),
            weight: front(&self.weight, self.weights),
        }
    }
}

// Reads a network (compare/FORMAT.md). What the input lacks is 0.
pub fn read_network<R: Read>(input: &mut R) -> io::Result<Rows> {
    let nodes = read_number(input, 8)?;
    let mut lengths = [0u8; 3];
    read(input, &mut lengths)?;
    let [lows, highs, weights] = lengths.map(usize::from);
    let mut low = [0u8; ROW];
    read(input, front_room(&mut low, lows))?;
    let mut high = [0u8; ROW];
    read(input, front_room(&mut high, highs))?;
    let mut weight = [0u32; ROW];
    read_weights(input, &mut weight, weights)?;
    Ok(Rows {
        nodes,
        lows,
        highs,
        weights,
        low,
        high,
        weight,
    })
}

// The first n elements, or all where there are fewer.
pub fn front<T>(row: &[T], n: usize) -> &[T]
    ensures { result.now ≡ take n row.now }
{
    row.get(..n).unwrap_or(row)
}

// The same of bytes, to be written: no type parameter ranges over what is lent to be read and what is lent to be written.
pub fn front_room(bytes: &mut [u8], n: usize) -> &mut [u8]
    ensures { result.now ≡ take n bytes.old }
{
    let count = n.min(bytes.len());
    &mut bytes[..count]
}
