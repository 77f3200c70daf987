// Records there and back, in digests: every form of every pair of counts with t up to 7, and four forms of
// every larger pair.
use crate::folds::Tally;
use crate::known::Form;
use show::Pairs;
use std::io;
use triangle::BEATS;

// Every form of a pair, for t and s up to 7: how many records came back, and the digest.
fn print_pair(rt: &impl Print, t: u64, s: u64) -> io::Result<()> {
    let mut tally = Tally::default();
    let mut room = [7u8; 14];
    for number in 0..refusal::value(counts::count(t, s)) {
        if let Some(form) = Form::new(t, s, number, &mut room) {
            tally.each_kind(form);
        }
    }
    println!(rt; "records {t} {s}: {tally}")
}

// The pairs with fewer than `sizes` tasks.
pub fn print_sizes(rt: &impl Print, sizes: u64) -> io::Result<()> {
    for (t, s) in Pairs::below(sizes) {
        print_pair(rt, t, s)?;
    }
    Ok(())
}

// Four forms whose numbers are the multiples of a large odd number modulo 2^64, which are scattered; for t and s up to
// the largest count.
fn ask_pair(tally: &mut Tally, t: u64, s: u64) {
    let forms = refusal::value(counts::count(t, s));
    if forms == 0 {
        return;
    }
    let mut room = [7u8; BEATS];
    let mut seed = 0u64;
    for _ in 0..4 {
        if let Some(form) = Form::new(t, s, seed % forms, &mut room) {
            tally.each_kind(form);
        }
        seed = seed.wrapping_add(11400714819323198485);
    }
}

// The pairs of t: how many records came back, and the digest.
fn print_pairs(rt: &impl Print, t: u64) -> io::Result<()> {
    let mut tally = Tally::default();
    for s in 0..=t {
        ask_pair(&mut tally, t, s);
    }
    println!(rt; "scattered {t}: {tally}")
}

// The pairs from `first` tasks on, with fewer than `sizes`.
pub fn print_scattered(rt: &impl Print, first: u64, sizes: u64) -> io::Result<()> {
    for t in first..sizes {
        print_pairs(rt, t)?;
    }
    Ok(())
}
