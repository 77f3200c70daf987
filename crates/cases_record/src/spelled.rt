// Inputs as the manual spells its records: bytes in hex, the first one first, in one number. A call with numbers is
// proved more quickly than one with a slice.
use crate::asks;
use std::io;

// What n bytes say, at most 8, in so many places.
pub fn read_in(rt: &impl Print, n: usize, word: u64, room: usize) -> io::Result<()> {
    if 8 < n {
        return Ok(());
    }
    asks::read_in(rt, &word.to_be_bytes()[8 - n..], room)
}

// What n bytes say, at most 8, in PLACES places.
pub fn read(rt: &impl Print, n: usize, word: u64) -> io::Result<()> {
    read_in(rt, n, word, asks::PLACES)
}

// The record of n beats, at most 8, in so many bytes.
pub fn write(
    rt: &impl Print,
    kind: u64,
    t: u64,
    s: u64,
    n: usize,
    word: u64,
    room: usize,
) -> io::Result<()> {
    if 8 < n {
        return Ok(());
    }
    asks::write(rt, kind, t, s, &word.to_be_bytes()[8 - n..], room)
}
