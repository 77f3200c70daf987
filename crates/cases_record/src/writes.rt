// The refusals of writing, with what stands beside them, and their order. The beats are n bytes in hex.
use crate::{asks, spelled};
use std::io;
use triangle::LARGEST;

// With each kind that there is; kind 1 is not written, and 10 comes before all others.
fn ask(rt: &impl Print, t: u64, s: u64, n: usize, word: u64, room: usize) -> io::Result<()> {
    for kind in 1..=3 {
        spelled::write(rt, kind, t, s, n, word, room)?;
    }
    Ok(())
}

// Refusal 10: the numbers beside 2 and 3, and those whose low bytes are 2 or 3, for 10110.
pub fn kinds(rt: &impl Print) -> io::Result<()> {
    let kinds = [
        0,
        1,
        2,
        3,
        4,
        255,
        256,
        259,
        65535,
        65538,
        4294967299,
        9223372036854775808,
        18446744073709551615,
    ];
    for kind in kinds {
        asks::write(rt, kind, 3, 2, &[1, 0, 1, 1, 0], 16)?;
    }
    Ok(())
}

// Refusals 1 and 2.
pub fn sizes(rt: &impl Print) -> io::Result<()> {
    ask(rt, LARGEST + 1, 0, 0, 0, 16)?;
    ask(rt, 256, 0, 0, 0, 16)?;
    ask(rt, 257, 1, 2, 0x01_00, 16)?;
    ask(rt, 18446744073709551615, 0, 0, 0, 16)?;
    ask(rt, 0, 1, 1, 0x00, 16)?;
    ask(rt, 2, 3, 5, 0x01_01_00_00_00, 16)?;
    ask(rt, LARGEST, LARGEST + 1, 0, 0, 16)?;
    ask(rt, 1, 256, 1, 0x01, 16)?;
    ask(rt, 1, 18446744073709551615, 0, 0, 16)
}

// Refusal 3.
pub fn lengths(rt: &impl Print) -> io::Result<()> {
    ask(rt, 0, 0, 1, 0x01, 16)?;
    ask(rt, 2, 1, 2, 0x01_01, 16)?;
    ask(rt, 2, 1, 4, 0x01_00_01_00, 16)?;
    ask(rt, 3, 2, 0, 0, 16)?;
    ask(rt, 3, 2, 8, 0x01_01_01_00_00_00_00_00, 16)
}

// Refusals 4, 5 and 6: the first and the last beat at fault, and two of them.
pub fn beats(rt: &impl Print) -> io::Result<()> {
    ask(rt, 2, 2, 4, 0x02_01_00_00, 16)?;
    ask(rt, 2, 2, 4, 0x01_01_00_FF, 16)?;
    ask(rt, 2, 2, 4, 0x01_80_03_00, 16)?;
    ask(rt, 1, 1, 2, 0x00_01, 16)?;
    ask(rt, 2, 2, 4, 0x01_00_00_01, 16)?;
    ask(rt, 4, 3, 7, 0x01_01_01_00_00_00_00, 16)?;
    ask(rt, 2, 1, 3, 0x01_01_01, 16)?;
    ask(rt, 2, 2, 4, 0x01_01_01_01, 16)?;
    ask(rt, 4, 2, 6, 0x01_01_01_00_00_00, 16)
}

// Refusal 12: no room at all, and room for a part.
pub fn rooms(rt: &impl Print) -> io::Result<()> {
    ask(rt, 0, 0, 0, 0, 0)?;
    ask(rt, 0, 0, 0, 0, 5)?;
    ask(rt, 1, 1, 2, 0x01_00, 0)?;
    ask(rt, 1, 1, 2, 0x01_00, 1)?;
    ask(rt, 3, 2, 5, 0x01_00_01_00_01, 2)?;
    ask(rt, 3, 2, 5, 0x01_00_01_00_01, 4)?;
    ask(rt, 4, 4, 8, 0x01_00_01_00_01_00_01_00, 6)
}

// Each refusal before the next.
pub fn first_refusals(rt: &impl Print) -> io::Result<()> {
    ask(rt, 200, 201, 1, 0x02, 0)?;
    ask(rt, 200, 0, 0, 0, 0)?;
    ask(rt, 2, 3, 1, 0x02, 0)?;
    ask(rt, 2, 3, 5, 0x01_01_00_00_00, 0)?;
    ask(rt, 2, 2, 3, 0x02_01_00, 0)?;
    ask(rt, 2, 2, 4, 0x00_01_01_02, 0)?;
    ask(rt, 2, 2, 4, 0x01_00_00_00, 0)?;
    ask(rt, 2, 2, 4, 0x01_01_01_00, 0)?;
    ask(rt, 2, 2, 4, 0x01_01_01_09, 16)?;
    ask(rt, 2, 2, 4, 0x01_00_00_02, 16)?;
    ask(rt, 2, 2, 4, 0x00_00_00_00, 16)
}
