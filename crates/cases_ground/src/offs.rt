// How far the ones of every short list of zeros and ones are off, for each pair of counts of its length. [Q7]
use crate::tables::spell;
use refusal::Refusal;
use show::Pairs;
use std::io;

// How many lists were refused 6, and the digest of every list's verdict.
#[derive(Clone, Copy, Default)]
struct Tally {
    off: u64,
    sum: u64,
}

impl Tally {
    // The tally with one more verdict.
    fn with(self, v: Result<(), Refusal>) -> Tally {
        let six = matches!(v, Err(Refusal::WrongTakeUps(_)));
        Tally {
            off: self.off.wrapping_add(u64::from(six)),
            sum: show::fold_verdict(self.sum, v),
        }
    }
}

// The verdicts on the words below `words`, as lists of the lent length.
fn asked(t: u64, s: u64, beats: &mut [u8], words: u64) -> Tally {
    let mut tally = Tally::default();
    for word in 0..words {
        spell(word, beats);
        tally = tally.with(schedule::check(t, s, beats));
    }
    tally
}

// The line of all lists of t + s zeros and ones, where they are at most 12 beats long.
fn line(rt: &impl Print, t: u64, s: u64) -> io::Result<()> {
    if 12 < t || 12 - t < s {
        return Ok(());
    }
    let mut beats = [0u8; 12];
    let n = (t + s) as usize;
    let Tally { off, sum } = asked(t, s, &mut beats[..n], 1 << n);
    println!(rt; "off {t} {s}: {off} {sum}")
}

// A line for each pair of counts with at most 12 beats.
pub fn lists(rt: &impl Print) -> io::Result<()> {
    for (t, s) in Pairs::below(13) {
        line(rt, t, s)?;
    }
    Ok(())
}
