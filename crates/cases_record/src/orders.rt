// The order of the refusals of reading: each input has more than one fault, and the first one is said. Counts that
// are too large are 200 and 201, which are C8 and C9.
use crate::held::OVER_SIZE;
use crate::{held, spelled};
use std::io;
use triangle::{BEATS, LARGEST};

// 12 before all others.
pub fn no_room(rt: &impl Print) -> io::Result<()> {
    spelled::read_in(rt, 0, 0, 0)?;
    spelled::read_in(rt, 0, 0, BEATS - 1)?;
    spelled::read_in(rt, 1, 0x00, BEATS - 1)?;
    spelled::read_in(rt, 6, 0x05_00_02_00_03_02, BEATS - 1)?;
    spelled::read_in(rt, 3, 0x01_00_04, BEATS - 1)?;
    spelled::read_in(rt, 4, 0x02_00_04_00, BEATS - 1)?;
    spelled::read_in(rt, 6, 0x04_00_01_00_C8_00, BEATS - 1)?;
    spelled::read_in(rt, 6, 0x04_00_03_00_C8_00, BEATS - 1)?;
    spelled::read_in(rt, 7, 0x05_00_02_00_C8_00_00, BEATS - 1)?;
    spelled::read_in(rt, 7, 0x05_00_02_00_02_03_00, BEATS - 1)?;
    spelled::read_in(rt, 7, 0x05_00_02_00_01_01_40, BEATS - 1)
}

// 9 before 11, 10, 1 and 2.
pub fn cut_short(rt: &impl Print) -> io::Result<()> {
    spelled::read(rt, 2, 0x01_00)?;
    spelled::read(rt, 3, 0x02_00_04)?;
    spelled::read(rt, 4, 0x03_00_04_00)?;
    held::read_each(rt, 12, 11, 200, 0, 0)?;
    spelled::read(rt, 4, 0x03_00_02_00)?;
    held::read_each(rt, 13, 12, 200, 0, 0)?;
    spelled::read(rt, 6, 0x05_00_02_00_02_03)
}

// 11 for L below 2 before 10, and 10 before all that a kind asks for.
pub fn of_kinds(rt: &impl Print) -> io::Result<()> {
    spelled::read(rt, 3, 0x01_00_04)?;
    spelled::read(rt, 4, 0x01_00_04_00)?;
    spelled::read(rt, 4, 0x00_00_FF_FF)?;
    held::read(rt, 13, 11, 4, 200, 0, 0)?;
    spelled::read(rt, 5, 0x03_00_04_00_C8)?;
    held::read(rt, 14, 12, 0, 200, 201, 18446744073709551615)?;
    spelled::read(rt, 7, 0x05_00_02_01_01_01_41)
}

// 11 for L of kinds 1 and 3, or below 4, before 1 and 2; these before 7.
pub fn of_sizes(rt: &impl Print) -> io::Result<()> {
    held::read_each(rt, 13, 11, 200, 0, 0)?;
    held::read_each(rt, 15, 13, 2, 3, 0)?;
    spelled::read(rt, 6, 0x03_00_02_00_C8_C9)?;
    held::numbered(rt, 200, 201, 18446744073709551615)?;
    held::numbered(rt, 200, 200, 18446744073709551615)?;
    held::numbered(rt, 2, 3, 18446744073709551615)
}

// 1 and 2 before 11 for the exact L of kind 2 and its unused bits.
pub fn of_lengths(rt: &impl Print) -> io::Result<()> {
    spelled::read(rt, 6, 0x04_00_02_00_C8_C9)?;
    spelled::read(rt, 7, 0x05_00_02_00_C8_00_00)?;
    spelled::read(rt, 6, 0x04_00_02_00_02_03)?;
    spelled::read(rt, 8, 0x06_00_02_00_02_03_C8_FF)?;
    held::read(
        rt,
        OVER_SIZE,
        OVER_SIZE as u64 - 2,
        2,
        LARGEST + 1,
        0,
        0xFF_FF_FF_FF_FF,
    )?;
    spelled::read(rt, 7, 0x05_00_02_00_02_03_FF)
}

// 11 for these before 5 and 6, and 5 before 6.
pub fn of_beats(rt: &impl Print) -> io::Result<()> {
    spelled::read(rt, 8, 0x06_00_02_00_01_01_40_00)?;
    spelled::read(rt, 8, 0x06_00_02_00_02_01_E0_00)?;
    spelled::read(rt, 8, 0x06_00_02_00_03_02_41_01)?;
    spelled::read(rt, 7, 0x05_00_02_00_01_01_41)?;
    spelled::read(rt, 7, 0x05_00_02_00_02_02_91)?;
    spelled::read(rt, 7, 0x05_00_02_00_02_01_F0)?;
    spelled::read(rt, 7, 0x05_00_02_00_02_02_00)?;
    spelled::read(rt, 7, 0x05_00_02_00_02_02_80)?;
    spelled::read(rt, 7, 0x05_00_02_00_02_02_70)
}

// The same with L of 1,020, and above it.
pub fn long(rt: &impl Print) -> io::Result<()> {
    held::filled(rt, 1022, 1020, 1, 200, 0, 0)?;
    held::filled(rt, 1022, 1020, 2, 200, 0, 0)?;
    held::filled(rt, 1022, 1020, 3, 200, 0, 0)?;
    held::filled(rt, 1022, 1020, 2, 2, 3, 0)?;
    held::filled(rt, 1022, 1020, 2, 1, 1, 0x41)?;
    held::filled(rt, 1022, 1020, 768, 200, 0, 0)?;
    held::filled(rt, 1030, 1021, 4, 200, 0, 0)
}
