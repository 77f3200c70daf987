// Rows of lines of an outline: every row of up to n + 1 of its n lines, so that lines are left out, doubled, exchanged
// and put anywhere.
use crate::asks;
use crate::built::{Built, LONG};
use crate::folds::Tally;

// A line of the text, the first being line 0, with its line feed.
fn line(text: &[u8], number: usize) -> Option<&[u8]> {
    text.split_inclusive(|&byte| byte == b'\n').nth(number)
}

// So many lines, by the digits of a number to the base n, the lowest first.
fn compose(text: &[u8], n: u64, count: u64, word: u64) -> Option<Built> {
    let mut row = Built::new();
    let mut rest = word;
    for _ in 0..count {
        let number = rest.checked_rem(n)?;
        row.add(line(text, number as usize)?)?;
        rest = rest.checked_div(n)?;
    }
    Some(row)
}

// The rows of so many lines, by all numbers below `words`.
fn of_count(tally: &mut Tally, n: u64, text: &[u8], count: u64, words: u64) {
    for word in 0..words {
        if let Some(row) = compose(text, n, count, word) {
            tally.read(n, row.text());
        }
    }
}

// The rows of an outline of n lines, for n up to 4, the shorter ones first.
pub fn each(tally: &mut Tally, n: u64, beats: &[u8]) {
    let mut room = [b'#'; LONG];
    let Some(text) = asks::written(n, beats, &mut room) else {
        return;
    };
    let mut words = 1u64;
    for count in 0..n.saturating_add(2) {
        of_count(tally, n, text, count, words);
        words = words.saturating_mul(n);
    }
}
