// Records by their parts: L, the kind, t, s, and what is held after them as a number whose bytes it is, the low one
// first. The packed beats of kind 2 are such a number too.
use crate::asks;
use crate::known::Form;
use record::little;
use std::io;
use triangle::{BEATS, SIDE};

// The bytes of a record of kind 2 with the largest counts.
pub const FULL_SIZE: usize = 6 + (BEATS + 7) / 8;

// The bytes of a record of kind 2 with one task too many, and none set down.
pub const OVER_SIZE: usize = 6 + (SIDE + 7) / 8;

// The parts before what is held, as such a number: L and the kind have two bytes each, t and s one.
fn head(long: u64, kind: u64, t: u64, s: u64) -> u64 {
    long % 65536 + kind % 65536 * 65536 + t % 256 * 4294967296 + s % 256 * 1099511627776
}

// Fills the bytes with a record, and with zeros after it. The parts stay numbers: in a struct with their names each
// line of the vectors would be seven.
pub fn put(long: u64, kind: u64, t: u64, s: u64, held: u64, src: &mut [u8]) {
    if src.len() < 6 {
        return;
    }
    little::spell(head(long, kind, t, s), &mut src[..6]);
    little::spell(held, &mut src[6..]);
}

// What n bytes say, 6 to 16.
pub fn read(
    rt: &impl Print,
    n: usize,
    long: u64,
    kind: u64,
    t: u64,
    s: u64,
    held: u64,
) -> io::Result<()> {
    let mut src = [0u8; 16];
    let Some(src) = src.get_mut(..n) else {
        return Ok(());
    };
    put(long, kind, t, s, held, src);
    asks::read(rt, src)
}

// The same in both kinds that hold a number.
pub fn read_each(
    rt: &impl Print,
    n: usize,
    long: u64,
    t: u64,
    s: u64,
    number: u64,
) -> io::Result<()> {
    read(rt, n, long, 1, t, s, number)?;
    read(rt, n, long, 3, t, s, number)
}

// What whole records of these kinds say.
pub fn numbered(rt: &impl Print, t: u64, s: u64, number: u64) -> io::Result<()> {
    read_each(rt, 14, 12, t, s, number)
}

// What a record of kind 1 holds of a form: one more than its number, round the circle.
pub fn from_top(form: Form) -> u64 {
    let more = form.number.wrapping_add(1);
    if counts::count(form.t, form.s) == Ok(more) {
        return 0;
    }
    more
}

// What so many bytes say, 8 to 1,030.
pub fn filled(
    rt: &impl Print,
    length: usize,
    long: u64,
    kind: u64,
    t: u64,
    s: u64,
    held: u64,
) -> io::Result<()> {
    let mut src = [0u8; 1030];
    let Some(src) = src.get_mut(..length) else {
        return Ok(());
    };
    put(long, kind, t, s, held, src);
    asks::filled(rt, src)
}
