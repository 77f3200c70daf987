// Closed schedules there and back: the example of the manual, all schedules of 0 to 3 tasks in full, and
// all of 0 to 7 tasks in digests.
use crate::asks;
use crate::folds::Tally;
use std::io;

// The manual's tree of 111001001100.
pub fn example(rt: &impl Print) -> io::Result<()> {
    asks::both(rt, 6, &[1, 1, 1, 0, 0, 1, 0, 0, 1, 1, 0, 0])
}

// Does something with every closed schedule of n tasks by its number, for n up to 7.
fn each<F: FnMut(&[u8]) -> io::Result<()>>(n: u64, mut act: F) -> io::Result<()>
    requires { F.IsAlwaysCallable act }
{
    if 7 < n {
        return Ok(());
    }
    let mut beats = [7u8; 14];
    let beats = &mut beats[..(n + n) as usize];
    for x in 0..refusal::value(counts::count(n, n)) {
        if form::form(n, n, x, beats).is_ok() {
            act(beats)?;
        }
    }
    Ok(())
}

// The schedules of fewer than `sizes` tasks, in full.
pub fn print_each(rt: &impl Print, sizes: u64) -> io::Result<()> {
    for n in 0..sizes {
        each(n, |beats| asks::both(rt, n, beats))?;
    }
    Ok(())
}

// How many of those of n tasks came back, and the digest.
fn print_digest(rt: &impl Print, n: u64) -> io::Result<()> {
    let mut tally = Tally::default();
    each(n, |beats| {
        tally.both(n, beats);
        Ok(())
    })?;
    println!(rt; "trees {n}: {tally}")
}

// The schedules of fewer than `sizes` tasks, in digests.
pub fn print_digests(rt: &impl Print, sizes: u64) -> io::Result<()> {
    for n in 0..sizes {
        print_digest(rt, n)?;
    }
    Ok(())
}
