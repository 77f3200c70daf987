// Outlines of the most headings: the chain, whose text is the longest, the sisters, whose last numbers have two digits,
// and scattered ones. Each goes there and back, in as much room as it takes and in less, and with its text damaged.
use crate::folds::Tally;
use crate::{asks, edits};
use show::Beats;
use std::io;
use triangle::{BEATS, LARGEST};

// Each byte of a text raised by one, after the text that ends before it.
fn damage(text: &mut [u8]) -> Tally {
    let mut tally = Tally::default();
    for at in 0..text.len() {
        tally.read(LARGEST, &text[..at]);
        let next = text[at].wrapping_add(1);
        edits::change(&mut tally, LARGEST, text, at, next);
    }
    tally
}

// Both sides of the limits: a line more than asked for, a beat too few and too many lent, and n above the largest.
fn print_limits(rt: &impl Print, text: &[u8]) -> io::Result<()> {
    asks::read(rt, LARGEST - 1, text, BEATS - 2)?;
    asks::read(rt, LARGEST, text, BEATS - 1)?;
    asks::read(rt, LARGEST, text, BEATS + 1)?;
    asks::read(rt, LARGEST + 1, text, BEATS + 2)
}

// A schedule there and back, with a byte of room too few, and with its text damaged.
fn print_form(rt: &impl Print, beats: &[u8]) -> io::Result<()> {
    let mut room = [b'#'; asks::ROOM];
    let Some(text) = asks::written(LARGEST, beats, &mut room) else {
        return Ok(());
    };
    asks::both(rt, LARGEST, beats)?;
    asks::outline(rt, LARGEST, LARGEST, beats, text.len())?;
    asks::outline(rt, LARGEST, LARGEST, beats, text.len().saturating_sub(1))?;
    print_limits(rt, text)?;
    println!(rt; "outline_damage {}: {}", Beats(beats), damage(text))
}

// Ones and zeros in turn. An own one, as in two other programs: in `show` it would be public, with a definition,
// a contract and wrong programs, for five lines.
fn alternate(beats: &mut [u8]) {
    for (at, beat) in beats.iter_mut().enumerate() {
        *beat = u8::from(at % 2 == 0);
    }
}

// Four forms whose numbers are the multiples of a large odd number modulo 2^64, which are scattered. Not one with
// that of `cases_tree`: another call is asked of each, and `show`, which both use, makes no forms.
fn print_scattered(rt: &impl Print, forms: u64) -> io::Result<()> {
    if forms == 0 {
        return Ok(());
    }
    let mut beats = [7u8; BEATS];
    let mut seed = 0u64;
    for _ in 0..4 {
        seed = seed.wrapping_add(11400714819323198485);
        if form::form(LARGEST, LARGEST, seed % forms, &mut beats).is_ok() {
            print_form(rt, &beats)?;
        }
    }
    Ok(())
}

pub fn print_forms(rt: &impl Print) -> io::Result<()> {
    let mut beats = [0u8; BEATS];
    show::raise(&mut beats, LARGEST as usize);
    print_form(rt, &beats)?;
    alternate(&mut beats);
    print_form(rt, &beats)?;
    print_scattered(rt, refusal::value(counts::count(LARGEST, LARGEST)))
}
