// 64-bit FNV-1a: a batch's long answers are compared by their hash.
use std::io;
use std::io::Write;
use std::num::wrapping_add_u64;

pub const START: u64 = 14695981039346656037;

// The number times 2^40 + 435, its lower 64 bits: three products that fit, of the lower half, the upper half and the lower 24 bits.
fn times_prime(x: u64) -> u64 {
    let lower = x % 4294967296 * 435;
    let upper = x / 4294967296 % 4294967296 * 435 % 4294967296 * 4294967296;
    let shifted = x % 16777216 * 1099511627776;
    wrapping_add_u64(wrapping_add_u64(lower, upper), shifted)
}

// The hash with one byte more.
pub fn hash_byte(hash: u64, byte: u8) -> u64 {
    times_prime(hash ^ (byte as u64))
}

// The hash with all these bytes more.
pub fn hash_bytes(hash: u64, bytes: &[u8]) -> u64 {
    bytes.iter().fold(hash, |sum, byte| hash_byte(sum, *byte))
}

// Writes the hash in 16 hexadecimal digits.
pub fn print_hash<W: Write>(out: &mut W, hash: u64) -> io::Result<()> {
    write!(out, "{hash:016x}")
}
