// The refusals of the text of a schedule, with what stands beside them, and their order.
use crate::asks;
use std::io;
use triangle::{BEATS, LARGEST};

// The example of the manual, the schedule of no tasks, and refusals 1 and 2.
pub fn sizes(rt: &impl Print) -> io::Result<()> {
    asks::outline(rt, 3, 3, &[1, 1, 0, 1, 0, 0], 12)?;
    asks::outline(rt, 0, 0, &[], 0)?;
    asks::outline(rt, 0, 0, &[], 3)?;
    asks::outline(rt, LARGEST + 1, LARGEST + 1, &[], 4)?;
    asks::outline(rt, 256, 256, &[], 0)?;
    asks::outline(rt, 9223372036854775808, 9223372036854775808, &[], 0)?;
    asks::outline(rt, 18446744073709551615, 18446744073709551615, &[1, 0], 2)?;
    asks::outline(rt, 1, 2, &[1, 0, 0], 4)?;
    asks::outline(rt, LARGEST, LARGEST + 1, &[], 4)?;
    asks::outline(rt, 0, 18446744073709551615, &[], 0)
}

// Refusal 3.
pub fn lengths(rt: &impl Print) -> io::Result<()> {
    asks::outline(rt, 2, 2, &[1, 1, 0, 0], 6)?;
    asks::outline(rt, 2, 2, &[1, 1, 0], 6)?;
    asks::outline(rt, 2, 2, &[1, 0, 1, 0, 0], 6)?;
    asks::outline(rt, 2, 2, &[], 6)?;
    asks::outline(rt, 0, 0, &[1, 0], 6)
}

// Refusals 4, 5 and 6: the first and the last beat at fault, and ones too many.
pub fn beats(rt: &impl Print) -> io::Result<()> {
    asks::outline(rt, 2, 2, &[2, 1, 0, 0], 6)?;
    asks::outline(rt, 2, 2, &[1, 1, 0, 255], 6)?;
    asks::outline(rt, 1, 1, &[49, 48], 6)?;
    asks::outline(rt, 1, 1, &[0, 1], 6)?;
    asks::outline(rt, 2, 2, &[1, 0, 0, 1], 6)?;
    asks::outline(rt, 3, 3, &[1, 0, 1, 0, 0, 1], 6)?;
    asks::outline(rt, 1, 1, &[1, 1], 6)?;
    asks::outline(rt, 2, 2, &[1, 1, 1, 0], 6)?;
    asks::outline(rt, 2, 2, &[1, 1, 1, 1], 6)
}

// Refusal 14: by one beat, by several, and with nothing set down.
pub fn open_ones(rt: &impl Print) -> io::Result<()> {
    asks::outline(rt, 1, 0, &[1], 6)?;
    asks::outline(rt, 2, 1, &[1, 1, 0], 6)?;
    asks::outline(rt, 2, 1, &[1, 0, 1], 6)?;
    asks::outline(rt, 3, 2, &[1, 1, 0, 1, 0], 6)?;
    asks::outline(rt, 3, 1, &[1, 0, 1, 1], 6)?;
    asks::outline(rt, 4, 0, &[1, 1, 1, 1], 6)
}

// Refusal 12: from no room on up to a byte too many.
pub fn rooms(rt: &impl Print) -> io::Result<()> {
    asks::outline(rt, 1, 1, &[1, 0], 0)?;
    asks::outline(rt, 1, 1, &[1, 0], 1)?;
    asks::outline(rt, 1, 1, &[1, 0], 2)?;
    asks::outline(rt, 1, 1, &[1, 0], 3)
}

// The same for a text that is the longest of its size, and for one that is not.
pub fn other_rooms(rt: &impl Print) -> io::Result<()> {
    asks::outline(rt, 3, 3, &[1, 1, 1, 0, 0, 0], 11)?;
    asks::outline(rt, 3, 3, &[1, 1, 1, 0, 0, 0], 12)?;
    asks::outline(rt, 3, 3, &[1, 1, 1, 0, 0, 0], 13)?;
    asks::outline(rt, 3, 3, &[1, 1, 0, 1, 0, 0], 9)?;
    asks::outline(rt, 3, 3, &[1, 1, 0, 1, 0, 0], 10)?;
    asks::outline(rt, 3, 3, &[1, 1, 0, 1, 0, 0], 11)?;
    asks::outline(rt, 3, 3, &[1, 0, 1, 0, 1, 0], 5)?;
    asks::outline(rt, 3, 3, &[1, 0, 1, 0, 1, 0], 6)?;
    asks::outline(rt, 3, 3, &[1, 0, 1, 0, 1, 0], 7)
}

// Each refusal before those after it: 1 and 2 first.
pub fn first_counts(rt: &impl Print) -> io::Result<()> {
    asks::outline(rt, LARGEST + 1, LARGEST + 2, &[], 0)?;
    asks::outline(rt, LARGEST + 1, 0, &[2, 0], 0)?;
    asks::outline(rt, LARGEST + 1, LARGEST + 1, &[0, 1, 2], 0)?;
    asks::outline(rt, 1, 2, &[], 0)?;
    asks::outline(rt, 1, 2, &[2, 1, 0], 0)?;
    asks::outline(rt, 1, 2, &[0, 1, 0], 0)?;
    asks::outline(rt, 0, 3, &[1, 1, 1], 0)
}

// Then 3.
pub fn first_lengths(rt: &impl Print) -> io::Result<()> {
    asks::outline(rt, 1, 1, &[2], 0)?;
    asks::outline(rt, 1, 1, &[0], 0)?;
    asks::outline(rt, 1, 1, &[1, 1, 1], 0)?;
    asks::outline(rt, 2, 1, &[1, 1], 0)?;
    asks::outline(rt, 1, 1, &[1], 0)
}

// Then 4, 5 and 6.
pub fn first_beats(rt: &impl Print) -> io::Result<()> {
    asks::outline(rt, 1, 1, &[0, 2], 0)?;
    asks::outline(rt, 2, 2, &[1, 1, 1, 9], 0)?;
    asks::outline(rt, 2, 1, &[1, 1, 2], 0)?;
    asks::outline(rt, 1, 1, &[1, 2], 0)?;
    asks::outline(rt, 2, 2, &[1, 0, 0, 0], 0)?;
    asks::outline(rt, 2, 1, &[0, 1, 1], 0)?;
    asks::outline(rt, 1, 1, &[0, 1], 0)?;
    asks::outline(rt, 2, 1, &[1, 1, 1], 0)?;
    asks::outline(rt, 3, 1, &[1, 0, 1, 0], 0)?;
    asks::outline(rt, 1, 1, &[1, 1], 0)
}

// At last 14 before 12.
pub fn first_open_ones(rt: &impl Print) -> io::Result<()> {
    asks::outline(rt, 1, 0, &[1], 0)?;
    asks::outline(rt, 2, 1, &[1, 1, 0], 0)?;
    asks::outline(rt, 1, 1, &[1, 0], 0)
}

// As many beats as there may be: one of them missing at the end, the last one at fault, then the first one too.
pub fn limits(rt: &impl Print) -> io::Result<()> {
    let mut short = [0u8; BEATS - 1];
    show::raise(&mut short, LARGEST as usize);
    asks::outline(rt, LARGEST, LARGEST - 1, &short, 4)?;
    asks::outline(rt, LARGEST, LARGEST, &short, 4)?;
    let mut full = [0u8; BEATS];
    show::raise(&mut full, LARGEST as usize);
    asks::outline(rt, LARGEST, LARGEST, &full, 4)?;
    full[BEATS - 1] = 7;
    asks::outline(rt, LARGEST, LARGEST, &full, 4)?;
    full[0] = 0;
    asks::outline(rt, LARGEST, LARGEST, &full, 4)?;
    full[BEATS - 1] = 0;
    asks::outline(rt, LARGEST, LARGEST, &full, 4)
}
