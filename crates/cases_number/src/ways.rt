// The form of a number, the number of that form, and the step to it from the form before it: for t up to 8 over every
// number, and for every t over the first two, the middle one, the last two and some scattered between.
use refusal::Told;
use show::Pairs;
use std::{fmt, io};
use triangle::{BEATS, LARGEST};

// A number that its form does not have, or that the step from the form before it does not lead to.
#[derive(Clone, Copy)]
struct Lost(u64);

impl fmt::Display for Lost {
    fn fmt<W: fmt::Write>(&self, f: &mut fmt::Formatter<W>) -> fmt::Result {
        write!(f, "lost {}", self.0)
    }
}

// Whether beats have a number.
fn has(t: u64, s: u64, number: u64, beats: &[u8]) -> bool {
    number::number(t, s, beats) == Ok(number)
}

// Writes the form of a number, and says whether it has that number.
fn returns(t: u64, s: u64, number: u64, beats: &mut [u8]) -> bool {
    form::form(t, s, number, beats).is_ok() && has(t, s, number, beats)
}

// The number before one of so many, round the circle: before 0 comes the last.
fn before(number: u64, forms: u64) -> u64 {
    number.checked_sub(1).unwrap_or(forms.wrapping_sub(1))
}

// Writes the form of a number, and says whether it has that number and the step from the form before it leads there.
fn follows(t: u64, s: u64, forms: u64, number: u64, beats: &mut [u8]) -> bool {
    let _ = form::form(t, s, before(number, forms), beats);
    let _ = circle::next(t, s, beats);
    has(t, s, number, beats) && returns(t, s, number, beats)
}

// The digest of one more form, that of a number.
fn fold(t: u64, s: u64, forms: u64, sum: u64, number: u64, beats: &mut [u8]) -> Result<u64, Lost> {
    if !follows(t, s, forms, number, beats) {
        return Err(Lost(number));
    }
    Ok(show::digest(sum, beats))
}

// How many numbers there are and the digest of their forms; or the first number that is lost.
fn every(rt: &impl Print, t: u64, s: u64) -> io::Result<()> {
    if LARGEST < t || t < s {
        return Ok(());
    }
    let mut room = [7u8; BEATS];
    let beats = &mut room[..(t + s) as usize];
    let forms = refusal::value(counts::count(t, s));
    match (0..forms).try_fold(0, |sum, x| fold(t, s, forms, sum, x, beats)) {
        Ok(sum) => println!(rt; "both {t} {s}: {forms} {sum}"),
        Err(lost) => println!(rt; "both {t} {s}: {lost}"),
    }
}

// Every number, for t up to 8.
pub fn all(rt: &impl Print) -> io::Result<()> {
    for (t, s) in Pairs::below(9) {
        every(rt, t, s)?;
    }
    Ok(())
}

// One of the numbers below forms: for k from 0 the first two, the middle one and the last two, and from 5 on what the
// multiples of a large odd number modulo 2^64 give, which are scattered.
fn chosen(forms: u64, k: u64) -> u64 {
    if forms < 2 {
        return 0;
    }
    match k {
        0 | 1 => k,
        2 => forms / 2,
        3 => forms - 1,
        4 => forms - 2,
        _ => k.wrapping_mul(11400714819323198485) % forms,
    }
}

// The last number, the refusal of the one past it, and the digest of the forms of 21 numbers; or the first number
// that is lost.
fn ends(rt: &impl Print, t: u64, s: u64) -> io::Result<()> {
    if LARGEST < t || t < s {
        return Ok(());
    }
    let mut room = [7u8; BEATS];
    let beats = &mut room[..(t + s) as usize];
    let forms = refusal::value(counts::count(t, s));
    let Some(last) = forms.checked_sub(1) else {
        return Ok(());
    };
    print!(rt;
        "ends {t} {s}: {last} {} ",
        form::form(t, s, forms, beats).refusal()
    )?;
    match (0..21).try_fold(0, |sum, k| fold(t, s, forms, sum, chosen(forms, k), beats)) {
        Ok(sum) => println!(rt; "{sum}"),
        Err(lost) => println!(rt; "{lost}"),
    }
}

// Chosen numbers, for every t.
pub fn some(rt: &impl Print) -> io::Result<()> {
    for (t, s) in Pairs::below(LARGEST + 1) {
        ends(rt, t, s)?;
    }
    Ok(())
}
