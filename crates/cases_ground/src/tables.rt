// The triangle of counts twice: by the count, and by the check of every list of zeros and ones.
use show::Answer;
use std::io;
use triangle::LARGEST;

// A row of the counts of t.
fn count_row(rt: &impl Print, t: u64) -> io::Result<()> {
    print!(rt; "counts of {t}:")?;
    for s in 0..=t {
        print!(rt; " {}", Answer(counts::count(t, s)))?;
    }
    println!(rt)
}

// How many forms there are, a row for each t; the rows 0 to 8 are Table 1.
pub fn counts(rt: &impl Print) -> io::Result<()> {
    for t in 0..=LARGEST {
        count_row(rt, t)?;
    }
    Ok(())
}

// The bits of a number as beats, the lowest first.
pub fn spell(word: u64, beats: &mut [u8]) {
    let mut rest = word;
    for beat in beats {
        *beat = (rest % 2) as u8;
        rest /= 2;
    }
}

// Whether a word spells a schedule of t and s, which is written to the lent beats.
fn accepts(t: u64, s: u64, beats: &mut [u8], word: u64) -> bool {
    spell(word, beats);
    schedule::check(t, s, beats).is_ok()
}

// How many of the words below `words` spell a schedule of t and s.
fn accepted(t: u64, s: u64, beats: &mut [u8], words: u64) -> usize {
    (0..words)
        .filter(|&word| accepts(t, s, beats, word))
        .count()
}

// How many of all lists of t + s zeros and ones are schedules of t and s; for up to 16 beats.
fn accepted_of_all(t: u64, s: u64) -> usize {
    if 8 < t || 8 < s {
        return 0;
    }
    let mut beats = [0u8; 16];
    let n = (t + s) as usize;
    accepted(t, s, &mut beats[..n], 1 << n)
}

// A row of how many lists of t + s zeros and ones the check accepts, for s from 0 to 8.
fn list_row(rt: &impl Print, t: u64) -> io::Result<()> {
    print!(rt; "lists of {t}:")?;
    for s in 0..=8 {
        print!(rt; " {}", accepted_of_all(t, s))?;
    }
    println!(rt)
}

// How many lists of zeros and ones the check accepts, a row for each t from 0 to 8.
pub fn lists(rt: &impl Print) -> io::Result<()> {
    for t in 0..=8 {
        list_row(rt, t)?;
    }
    Ok(())
}
