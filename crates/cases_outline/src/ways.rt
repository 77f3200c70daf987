// All closed schedules of the small counts: in full, and what is asked of each of them in digests.
use crate::asks;
use crate::folds::Tally;
use std::io;

// The closed schedule of n tasks with a number, in room that is long enough for it.
fn closed(n: u64, number: u64, room: &mut [u8]) -> Option<&[u8]> {
    let length = usize::try_from(n.checked_add(n)?).ok()?;
    let beats = room.get_mut(..length)?;
    form::form(n, n, number, beats).ok()?;
    Some(beats)
}

// Every schedule of n tasks by its number, for n up to 8.
fn print_each(rt: &impl Print, n: u64) -> io::Result<()> {
    let mut room = [7u8; 16];
    for number in 0..refusal::value(counts::count(n, n)) {
        if let Some(beats) = closed(n, number, &mut room) {
            asks::both(rt, n, beats)?;
        }
    }
    Ok(())
}

// The schedules of fewer than `sizes` tasks, in full.
pub fn print_full(rt: &impl Print, sizes: u64) -> io::Result<()> {
    for n in 0..sizes {
        print_each(rt, n)?;
    }
    Ok(())
}

// What is asked of every schedule of n tasks, for n up to 8.
fn ask_each<F: Fn(&mut Tally, u64, &[u8])>(n: u64, ask: &F) -> Tally
    requires { F.IsAlwaysCallable ask.now }
{
    let mut tally = Tally::default();
    let mut room = [7u8; 16];
    for number in 0..refusal::value(counts::count(n, n)) {
        if let Some(beats) = closed(n, number, &mut room) {
            ask(&mut tally, n, beats);
        }
    }
    tally
}

// The same of the schedules of fewer than `sizes` tasks, a line for each size.
pub fn print_sizes<F: Fn(&mut Tally, u64, &[u8])>(
    rt: &impl Print,
    name: &str,
    sizes: u64,
    ask: F,
) -> io::Result<()>
    requires { F.IsAlwaysCallable ask }
{
    for n in 0..sizes {
        println!(rt; "{name} {n}: {}", ask_each(n, &ask))?;
    }
    Ok(())
}
