// Records in which one byte is changed: each byte of a record to each of its 256 values. A line for each
// record says how many of these are accepted, the record itself among them, and the digest.
use crate::folds::Tally;
use crate::held;
use crate::known::Form;
use show::Beats;
use std::io;
use triangle::{BEATS, LARGEST};

// Reads with one byte changed to each value, and then puts it back.
fn change_byte(tally: &mut Tally, src: &mut [u8], at: usize) {
    if src.len() <= at {
        return;
    }
    let old = src[at];
    for value in 0..=u8::MAX {
        src[at] = value;
        tally.read(src);
    }
    src[at] = old;
}

fn change_all(src: &mut [u8]) -> Tally {
    let mut tally = Tally::default();
    for at in 0..src.len() {
        change_byte(&mut tally, src, at);
    }
    tally
}

fn print_changes(rt: &impl Print, src: &mut [u8]) -> io::Result<()> {
    let tally = change_all(src);
    println!(rt; "changes {}: {tally}", Beats(src))
}

// The record that is written of a form, for t and s up to LARGEST, into so many bytes, at most 20.
fn print_record(
    rt: &impl Print,
    kind: u64,
    t: u64,
    s: u64,
    number: u64,
    room: usize,
) -> io::Result<()> {
    let mut beats = [7u8; BEATS];
    let mut bytes = [7u8; 20];
    let (Some(form), Some(bytes)) = (Form::new(t, s, number, &mut beats), bytes.get_mut(..room))
    else {
        return Ok(());
    };
    if record::write(kind, t, s, form.beats, bytes).is_ok() {
        print_changes(rt, bytes)?;
    }
    Ok(())
}

// A record of kind 1, which is not written.
fn print_held(rt: &impl Print, t: u64, s: u64, number: u64) -> io::Result<()> {
    let mut bytes = [0u8; 14];
    held::put(12, 1, t, s, number, &mut bytes);
    print_changes(rt, &mut bytes)
}

// Some with no byte after them, some with two.
pub fn print_all(rt: &impl Print) -> io::Result<()> {
    let half = refusal::value(counts::count(LARGEST, LARGEST)) / 2;
    print_held(rt, 3, 2, 2)?;
    print_held(rt, LARGEST, LARGEST, half)?;
    print_record(rt, 3, 3, 2, 1, 14)?;
    print_record(rt, 3, 3, 2, 4, 16)?;
    print_record(rt, 2, 3, 2, 2, 7)?;
    print_record(rt, 2, 3, 2, 4, 9)?;
    print_record(rt, 2, 0, 0, 0, 6)?;
    print_record(rt, 2, 8, 5, 100, 8)?;
    print_record(rt, 3, LARGEST, LARGEST, half, 14)?;
    print_record(rt, 2, LARGEST, LARGEST, half, held::FULL_SIZE)?;
    print_record(
        rt,
        2,
        LARGEST,
        LARGEST - 1,
        12345678901234567,
        held::FULL_SIZE + 2,
    )
}
