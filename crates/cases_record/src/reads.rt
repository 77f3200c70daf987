// The refusals of reading, with what stands beside them. Their order is in orders.rt.
use crate::held::{FULL_SIZE, OVER_SIZE};
use crate::{asks, held, spelled};
use std::io;
use triangle::{BEATS, LARGEST};

// Refusal 12: BEATS - 1 places and fewer, and enough of them.
pub fn rooms(rt: &impl Print) -> io::Result<()> {
    spelled::read_in(rt, 7, 0x05_00_02_00_03_02_A8, 0)?;
    spelled::read_in(rt, 7, 0x05_00_02_00_03_02_A8, 5)?;
    spelled::read_in(rt, 7, 0x05_00_02_00_03_02_A8, BEATS - 1)?;
    spelled::read_in(rt, 7, 0x05_00_02_00_03_02_A8, BEATS)?;
    spelled::read_in(rt, 7, 0x05_00_02_00_03_02_A8, BEATS + 1)?;
    spelled::read_in(rt, 6, 0x04_00_02_00_00_00, BEATS - 1)?;
    spelled::read_in(rt, 6, 0x04_00_02_00_00_00, BEATS)
}

// A record cut at every length, and whole.
fn cut(rt: &impl Print, src: &[u8]) -> io::Result<()> {
    for n in 0..=src.len() {
        asks::read(rt, &src[..n])?;
    }
    Ok(())
}

// Refusals 12 and 9, for a kind that holds a number.
fn cut_held(rt: &impl Print, kind: u64) -> io::Result<()> {
    let mut src = [0u8; 14];
    held::put(12, kind, 3, 2, 2, &mut src);
    asks::read_in(rt, &src, BEATS - 1)?;
    asks::read_in(rt, &src, BEATS)?;
    cut(rt, &src)
}

// Refusal 9: a record cut short.
pub fn cuts(rt: &impl Print) -> io::Result<()> {
    cut_held(rt, 1)?;
    cut_held(rt, 3)?;
    cut(rt, &[5, 0, 2, 0, 3, 2, 168])?;
    cut(rt, &[4, 0, 2, 0, 0, 0])?;
    cut(rt, &[2, 0, 9, 0])?;
    cut(rt, &[1, 0, 1])?;
    cut(rt, &[0, 0])?;
    spelled::read(rt, 2, 0x00_04)?;
    spelled::read(rt, 4, 0xFF_FF_01_00)
}

// Refusal 11: L is 0 or 1.
pub fn short(rt: &impl Print) -> io::Result<()> {
    spelled::read(rt, 4, 0x00_00_01_00)?;
    spelled::read(rt, 5, 0x00_00_03_00_05)?;
    spelled::read(rt, 4, 0x01_00_01_00)?;
    spelled::read(rt, 4, 0x01_00_FF_FF)
}

// Refusal 10: no kind is 0 or 4 or one of which only a byte is that of a kind.
pub fn kinds(rt: &impl Print) -> io::Result<()> {
    spelled::read(rt, 4, 0x02_00_00_00)?;
    spelled::read(rt, 4, 0x02_00_04_00)?;
    spelled::read(rt, 4, 0x02_00_00_01)?;
    spelled::read(rt, 4, 0x02_00_01_01)?;
    spelled::read(rt, 4, 0x02_00_02_02)?;
    spelled::read(rt, 4, 0x02_00_03_03)?;
    spelled::read(rt, 4, 0x02_00_FF_FF)?;
    held::read(rt, 14, 12, 0, 3, 2, 2)?;
    held::read(rt, 14, 12, 4, 3, 2, 2)?;
    held::read(rt, 14, 12, 768, 3, 2, 2)?;
    held::read(rt, 14, 12, 65535, 3, 2, 2)?;
    spelled::read(rt, 7, 0x05_00_00_02_03_02_A8)
}

// Refusal 11: L of kind 1 or 3 is not 12.
pub fn numbered_lengths(rt: &impl Print) -> io::Result<()> {
    spelled::read(rt, 4, 0x02_00_01_00)?;
    spelled::read(rt, 4, 0x02_00_03_00)?;
    held::read_each(rt, 6, 4, 3, 2, 2)?;
    held::read_each(rt, 13, 11, 3, 2, 2)?;
    held::read_each(rt, 14, 11, 3, 2, 2)?;
    held::read_each(rt, 15, 13, 3, 2, 2)
}

// Refusal 11: L of kind 2 is below 4.
pub fn packed_lengths(rt: &impl Print) -> io::Result<()> {
    spelled::read(rt, 4, 0x02_00_02_00)?;
    spelled::read(rt, 7, 0x02_00_02_00_03_02_A8)?;
    spelled::read(rt, 5, 0x03_00_02_00_03)?;
    spelled::read(rt, 6, 0x03_00_02_00_00_00)
}

// Refusals 1 and 2, for each kind.
pub fn sizes(rt: &impl Print) -> io::Result<()> {
    held::numbered(rt, LARGEST + 1, 0, 0)?;
    held::numbered(rt, 255, 255, 0)?;
    held::numbered(rt, 0, 1, 0)?;
    held::numbered(rt, LARGEST, LARGEST + 1, 0)?;
    held::read(
        rt,
        OVER_SIZE,
        OVER_SIZE as u64 - 2,
        2,
        LARGEST + 1,
        0,
        0x80_FF_FF_FF_FF,
    )?;
    spelled::read(rt, 6, 0x04_00_02_00_FF_00)?;
    spelled::read(rt, 7, 0x05_00_02_00_02_03_C8)?;
    spelled::read(rt, 7, 0x05_00_02_00_00_01_00)
}

// Refusal 11: L of kind 2 is not that of its counts.
pub fn exact_lengths(rt: &impl Print) -> io::Result<()> {
    spelled::read(rt, 7, 0x05_00_02_00_00_00_00)?;
    spelled::read(rt, 6, 0x04_00_02_00_03_02)?;
    spelled::read(rt, 8, 0x06_00_02_00_03_02_A8_00)?;
    spelled::read(rt, 6, 0x04_00_02_00_04_04)?;
    spelled::read(rt, 7, 0x05_00_02_00_04_04_F0)?;
    spelled::read(rt, 8, 0x06_00_02_00_04_04_F0_00)?;
    spelled::read(rt, 7, 0x05_00_02_00_05_04_F8)?;
    spelled::read(rt, 8, 0x06_00_02_00_05_04_F8_00)?;
    held::read(rt, 9, 7, 2, 5, 4, 0xF8)
}

// Refusal 11: the record with each bit of one byte turned over alone.
fn turn(rt: &impl Print, src: &mut [u8], at: usize) -> io::Result<()> {
    if src.len() <= at {
        return Ok(());
    }
    let old = src[at];
    for bit in 0..8u32 {
        src[at] = old ^ (1 << bit);
        asks::read(rt, src)?;
    }
    Ok(())
}

// Refusal 11: unused bits, the low ones of the last byte; the others are beats.
pub fn unused_bits(rt: &impl Print) -> io::Result<()> {
    let mut low = [5u8, 0, 2, 0, 3, 2, 168];
    turn(rt, &mut low, 6)?;
    let mut one = [5u8, 0, 2, 0, 1, 1, 128];
    turn(rt, &mut one, 6)?;
    let mut last = [6u8, 0, 2, 0, 5, 4, 170, 128];
    turn(rt, &mut last, 7)
}

// Refusal 7, and the numbers before it; where there is one form only, the first is the last.
fn ends(rt: &impl Print, t: u64, s: u64) -> io::Result<()> {
    let forms = refusal::value(counts::count(t, s));
    held::numbered(rt, t, s, 0)?;
    held::numbered(rt, t, s, 1)?;
    held::numbered(rt, t, s, forms.wrapping_sub(1))?;
    held::numbered(rt, t, s, forms)?;
    held::numbered(rt, t, s, 18446744073709551615)
}

// Few forms, one, and the most; and numbers with one byte that is not 0.
pub fn numbers(rt: &impl Print) -> io::Result<()> {
    ends(rt, 3, 2)?;
    ends(rt, 1, 1)?;
    ends(rt, 4, 0)?;
    ends(rt, 0, 0)?;
    ends(rt, LARGEST, LARGEST)?;
    ends(rt, LARGEST, LARGEST - 1)?;
    held::numbered(rt, 3, 2, 1 << 8)?;
    held::numbered(rt, 3, 2, 1 << 56)?;
    held::numbered(rt, 4, 0, 1 << 32)?;
    held::numbered(rt, 1, 1, 1 << 63)
}

// What a record of kind 2 says that has the largest counts.
fn full(rt: &impl Print, packed: u64) -> io::Result<()> {
    held::read(
        rt,
        FULL_SIZE,
        FULL_SIZE as u64 - 2,
        2,
        LARGEST,
        LARGEST,
        packed,
    )
}

// Refusal 5: the first beat, one in the middle, the last one, one in the second byte and one in the last byte.
pub fn empty_hands(rt: &impl Print) -> io::Result<()> {
    spelled::read(rt, 7, 0x05_00_02_00_01_01_40)?;
    spelled::read(rt, 7, 0x05_00_02_00_02_02_90)?;
    spelled::read(rt, 7, 0x05_00_02_00_03_02_98)?;
    spelled::read(rt, 7, 0x05_00_02_00_03_02_C0)?;
    spelled::read(rt, 8, 0x06_00_02_00_05_04_F0_00)?;
    spelled::read(rt, 8, 0x06_00_02_00_05_05_AA_40)?;
    full(rt, 0xA9_AA_AA_AA_AA_AA_AA_AA)
}

// Refusal 6: too many ones, and too few.
pub fn take_ups(rt: &impl Print) -> io::Result<()> {
    spelled::read(rt, 7, 0x05_00_02_00_02_01_E0)?;
    spelled::read(rt, 7, 0x05_00_02_00_03_02_F0)?;
    spelled::read(rt, 7, 0x05_00_02_00_03_00_C0)?;
    spelled::read(rt, 7, 0x05_00_02_00_04_02_E0)?;
    full(rt, 0xFF_FF_FF_FF_FF_FF_FF_FF)?;
    full(rt, 0xAB_AA_AA_AA_AA_AA_AA_AA)
}

// L is 1,020, which may be, and above, which may not; and bytes after a short record.
pub fn long(rt: &impl Print) -> io::Result<()> {
    held::filled(rt, 1022, 1020, 1, 3, 2, 0)?;
    held::filled(rt, 1022, 1020, 2, 3, 2, 0xA8)?;
    held::filled(rt, 1022, 1020, 3, 3, 2, 0)?;
    held::filled(rt, 1022, 1020, 4, 0, 0, 0)?;
    held::filled(rt, 1030, 1020, 4, 0, 0, 0)?;
    held::filled(rt, 1021, 1020, 4, 0, 0, 0)?;
    held::filled(rt, 1023, 1021, 4, 0, 0, 0)?;
    held::filled(rt, 1030, 1021, 1, 3, 2, 0)?;
    held::filled(rt, 1030, 1024, 2, 3, 2, 0xA8)?;
    held::filled(rt, 1030, 1021, 3, 3, 2, 0)?;
    held::filled(rt, 1030, 12, 1, 3, 2, 2)?;
    held::filled(rt, 1030, 5, 2, 3, 2, 0xA8)?;
    held::filled(rt, 1030, 12, 3, 3, 2, 2)
}
