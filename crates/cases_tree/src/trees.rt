// The refusals of the tables of a schedule, with what stands beside them, and their order.
use crate::asks;
use std::io;
use triangle::{BEATS, LARGEST, SIDE};

// Refusal 1, and the schedule of no tasks.
pub fn sizes(rt: &impl Print) -> io::Result<()> {
    asks::tree(rt, 0, &[], [0, 0, 0])?;
    asks::tree(rt, LARGEST + 1, &[], [SIDE, SIDE, SIDE])?;
    asks::tree(rt, 200, &[2], [1, 0, 2])?;
    asks::tree(rt, 256, &[], [0, 0, 0])?;
    asks::tree(rt, 9223372036854775808, &[], [0, 0, 0])?;
    asks::tree(rt, 18446744073709551615, &[1, 0], [1, 1, 1])
}

// Refusal 3 for the schedule.
pub fn lengths(rt: &impl Print) -> io::Result<()> {
    asks::tree(rt, 2, &[1, 1, 0, 0], [2, 2, 2])?;
    asks::tree(rt, 2, &[1, 1, 0], [2, 2, 2])?;
    asks::tree(rt, 2, &[1, 0, 1, 0, 0], [2, 2, 2])?;
    asks::tree(rt, 2, &[1, 0], [2, 2, 2])?;
    asks::tree(rt, 2, &[1, 1, 0, 0, 1, 0], [2, 2, 2])?;
    asks::tree(rt, 2, &[], [2, 2, 2])?;
    asks::tree(rt, 0, &[1, 0], [0, 0, 0])?;
    asks::tree(rt, 0, &[0], [0, 0, 0])
}

// Refusal 3 for each table.
pub fn table_lengths(rt: &impl Print) -> io::Result<()> {
    asks::tree(rt, 2, &[1, 1, 0, 0], [1, 2, 2])?;
    asks::tree(rt, 2, &[1, 1, 0, 0], [3, 2, 2])?;
    asks::tree(rt, 2, &[1, 1, 0, 0], [2, 1, 2])?;
    asks::tree(rt, 2, &[1, 1, 0, 0], [2, 3, 2])?;
    asks::tree(rt, 2, &[1, 1, 0, 0], [2, 2, 1])?;
    asks::tree(rt, 2, &[1, 1, 0, 0], [2, 2, 3])?;
    asks::tree(rt, 2, &[1, 1, 0, 0], [1, 3, 2])?;
    asks::tree(rt, 2, &[1, 1, 0, 0], [0, 0, 0])?;
    asks::tree(rt, 0, &[], [1, 0, 0])?;
    asks::tree(rt, 0, &[], [0, 1, 0])?;
    asks::tree(rt, 0, &[], [0, 0, 1])
}

// Refusals 4, 5 and 6: the first and the last beat at fault, and two of them.
pub fn beats(rt: &impl Print) -> io::Result<()> {
    asks::tree(rt, 2, &[2, 1, 0, 0], [2, 2, 2])?;
    asks::tree(rt, 2, &[1, 1, 0, 255], [2, 2, 2])?;
    asks::tree(rt, 2, &[1, 2, 3, 0], [2, 2, 2])?;
    asks::tree(rt, 1, &[0, 1], [1, 1, 1])?;
    asks::tree(rt, 2, &[1, 0, 0, 1], [2, 2, 2])?;
    asks::tree(rt, 3, &[1, 0, 1, 0, 0, 1], [3, 3, 3])?;
    asks::tree(rt, 3, &[1, 1, 0, 0, 1, 1], [3, 3, 3])?;
    asks::tree(rt, 2, &[1, 1, 1, 0], [2, 2, 2])?;
    asks::tree(rt, 2, &[1, 1, 1, 1], [2, 2, 2])
}

// Each refusal before the next: 3 before 4, 5 and 6, then 4 before 5 and 6, then 5 before 6.
pub fn first_refusals(rt: &impl Print) -> io::Result<()> {
    asks::tree(rt, 2, &[2, 1, 0, 0], [1, 2, 2])?;
    asks::tree(rt, 2, &[0, 1, 1, 0], [2, 2, 3])?;
    asks::tree(rt, 2, &[1, 1, 1, 0], [2, 1, 2])?;
    asks::tree(rt, 2, &[2, 1, 0], [2, 2, 2])?;
    asks::tree(rt, 2, &[0, 1, 1, 2], [2, 2, 2])?;
    asks::tree(rt, 2, &[1, 0, 0, 2], [2, 2, 2])?;
    asks::tree(rt, 2, &[1, 1, 1, 9], [2, 2, 2])?;
    asks::tree(rt, 2, &[1, 0, 0, 0], [2, 2, 2])
}

// As many beats as there may be: the last one at fault, then the first one too, then too many ones.
pub fn limits(rt: &impl Print) -> io::Result<()> {
    let most = LARGEST as usize;
    let mut full = [0u8; BEATS];
    show::raise(&mut full, most);
    asks::tree(rt, LARGEST, &full, [most, most, SIDE])?;
    full[BEATS - 1] = 7;
    asks::tree(rt, LARGEST, &full, [most, most, most])?;
    full[0] = 0;
    asks::tree(rt, LARGEST, &full, [most, most, most])?;
    full[BEATS - 1] = 0;
    asks::tree(rt, LARGEST, &full, [most, most, most])?;
    show::raise(&mut full, SIDE);
    asks::tree(rt, LARGEST, &full, [most, most, most])
}
