// Forms by their number, alone and on a sheet, on both sides of every refusal. Each line has the input, the
// verdict and what is left in the lent bytes, which are 7 before.
use show::{Beats, Verdict};
use std::io;
use triangle::{BEATS, LARGEST, SIDE};

// The form of a number in so many bytes, at most BEATS.
fn form(rt: &impl Print, t: u64, s: u64, number: u64, length: usize) -> io::Result<()> {
    let mut room = [7u8; BEATS];
    let Some(out) = room.get_mut(..length) else {
        return Ok(());
    };
    let told = form::form(t, s, number, out);
    println!(rt;
        "form {t} {s} {number} {length}: {} {}",
        Verdict(told),
        Beats(out)
    )
}

// The form of a number from a column on, on a sheet of so many bytes, at most BEATS.
fn sheet(
    rt: &impl Print,
    t: u64,
    s: u64,
    number: u64,
    column: u64,
    length: usize,
) -> io::Result<()> {
    let mut room = [7u8; BEATS];
    let Some(bytes) = room.get_mut(..length) else {
        return Ok(());
    };
    let told = form::form_on_sheet(t, s, number, bytes, column);
    println!(rt;
        "sheet {t} {s} {number} {column} {length}: {} {}",
        Verdict(told),
        Beats(bytes)
    )
}

// How many forms the largest counts have.
fn most() -> u64 {
    refusal::value(counts::count(LARGEST, LARGEST))
}

// The last number of the largest counts.
fn last() -> u64 {
    most().wrapping_sub(1)
}

// All forms of 3 and 2, the last of which is 3 ones then 2 zeros, and the forms that are alone.
pub fn forms(rt: &impl Print) -> io::Result<()> {
    form(rt, 3, 2, 0, 5)?;
    form(rt, 3, 2, 1, 5)?;
    form(rt, 3, 2, 2, 5)?;
    form(rt, 3, 2, 3, 5)?;
    form(rt, 3, 2, 4, 5)?;
    form(rt, 1, 1, 0, 2)?;
    form(rt, 4, 0, 0, 4)?;
    form(rt, 0, 0, 0, 0)?;
    form(rt, LARGEST, 0, 0, LARGEST as usize)
}

// The first two and the last two of the longest, and no more.
pub fn longest(rt: &impl Print) -> io::Result<()> {
    form(rt, LARGEST, LARGEST, 0, BEATS)?;
    form(rt, LARGEST, LARGEST, 1, BEATS)?;
    form(rt, LARGEST, LARGEST, last().wrapping_sub(1), BEATS)?;
    form(rt, LARGEST, LARGEST, last(), BEATS)?;
    form(rt, LARGEST, LARGEST, most(), BEATS)
}

// The refusals of a form in their order.
pub fn form_refusals(rt: &impl Print) -> io::Result<()> {
    form(rt, LARGEST + 1, 0, 0, SIDE)?;
    form(rt, 200, 201, 0, 5)?;
    form(rt, u64::MAX, u64::MAX, 0, 0)?;
    form(rt, 2, 3, 0, 5)?;
    form(rt, 2, 3, u64::MAX, 4)?;
    form(rt, 3, 2, 5, 5)?;
    form(rt, 3, 2, u64::MAX, 5)?;
    form(rt, 3, 2, 5, 4)?;
    form(rt, 0, 0, 1, 0)?;
    form(rt, 0, 0, 1, 1)?;
    form(rt, 3, 2, 4, 4)?;
    form(rt, 3, 2, 4, 6)?;
    form(rt, 3, 2, 4, 0)?;
    form(rt, 0, 0, 0, 1)
}

// The first and the last column that fit, one between and those past them; sheets just long enough and too short.
pub fn sheets(rt: &impl Print) -> io::Result<()> {
    sheet(rt, 3, 2, 4, 0, 9)?;
    sheet(rt, 3, 2, 2, 2, 9)?;
    sheet(rt, 3, 2, 4, 4, 9)?;
    sheet(rt, 3, 2, 4, 5, 9)?;
    sheet(rt, 3, 2, 4, u64::MAX, 9)?;
    sheet(rt, 3, 2, 4, 0, 5)?;
    sheet(rt, 3, 2, 4, 1, 5)?;
    sheet(rt, 3, 2, 4, 0, 4)?;
    sheet(rt, 3, 2, 4, 0, 0)?;
    sheet(rt, 3, 2, 4, u64::MAX - 4, 4)?;
    sheet(rt, LARGEST, LARGEST, last(), 0, BEATS)?;
    sheet(rt, LARGEST, LARGEST, last(), 1, BEATS)
}

// The form with no beats at all.
pub fn empty_forms(rt: &impl Print) -> io::Result<()> {
    sheet(rt, 0, 0, 0, 0, 4)?;
    sheet(rt, 0, 0, 0, 4, 4)?;
    sheet(rt, 0, 0, 0, 5, 4)?;
    sheet(rt, 0, 0, 0, u64::MAX, 4)?;
    sheet(rt, 0, 0, 0, 0, 0)?;
    sheet(rt, 0, 0, 0, 1, 0)?;
    sheet(rt, 0, 0, 1, 0, 4)
}

// The refusals of a form on a sheet in their order.
pub fn sheet_refusals(rt: &impl Print) -> io::Result<()> {
    sheet(rt, LARGEST + 1, 0, 0, 0, BEATS)?;
    sheet(rt, 200, 201, 0, 9, 4)?;
    sheet(rt, 2, 3, 0, 0, 9)?;
    sheet(rt, 2, 3, u64::MAX, 9, 4)?;
    sheet(rt, 3, 2, 5, 0, 9)?;
    sheet(rt, 3, 2, 5, 5, 9)?;
    sheet(rt, 3, 2, u64::MAX, u64::MAX, 4)
}
