// Texts that differ in one byte from that of an outline: a byte is another, is left out, or is put in; and texts that
// end early.
use crate::asks;
use crate::built::{Built, LONG};
use crate::folds::Tally;

// With one byte changed, which is then put back; a value that is the byte is no change.
pub fn change(tally: &mut Tally, n: u64, text: &mut [u8], at: usize, value: u8) {
    if text.len() <= at {
        return;
    }
    let old = text[at];
    if value != old {
        text[at] = value;
        tally.read(n, text);
        text[at] = old;
    }
}

// A text that is put together of a text before and after a place, and of the bytes between.
fn around(before: &[u8], between: &[u8], after: &[u8]) -> Option<Built> {
    let mut text = Built::new();
    text.add(before)?;
    text.add(between)?;
    text.add(after)?;
    Some(text)
}

// With a byte put in before a place.
fn put_in(tally: &mut Tally, n: u64, text: &[u8], at: usize, value: u8) {
    if text.len() < at {
        return;
    }
    if let Some(longer) = around(&text[..at], &[value], &text[at..]) {
        tally.read(n, longer.text());
    }
}

// With a byte left out.
fn leave_out(tally: &mut Tally, n: u64, text: &[u8], at: usize) {
    if text.len() <= at {
        return;
    }
    if let Some(shorter) = around(&text[..at], &[], &text[at + 1..]) {
        tally.read(n, shorter.text());
    }
}

// Every other byte at a place, and every byte before it.
fn each_value(tally: &mut Tally, n: u64, text: &mut [u8], at: usize) {
    for value in 0..=u8::MAX {
        change(tally, n, text, at, value);
        put_in(tally, n, text, at, value);
    }
}

// All of these at every place, the end too, after the text that ends there; for texts of fewer than LONG bytes.
pub fn each(tally: &mut Tally, n: u64, beats: &[u8]) {
    let mut room = [b'#'; LONG];
    let Some(text) = asks::written(n, beats, &mut room) else {
        return;
    };
    for at in 0..=text.len() {
        tally.read(n, &text[..at]);
        leave_out(tally, n, text, at);
        each_value(tally, n, text, at);
    }
}
