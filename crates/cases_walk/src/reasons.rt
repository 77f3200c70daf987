// Why a beat moves: explanations of single schedules on both sides of every refusal, of chosen forms of the largest
// counts, and for t up to 8 of every form, by digests. What is explained is also done: the beat that is said to move
// is moved to the second place.
use reason::{Explained, NO_PLACE, Reason};
use refusal::Refusal;
use show::{Beats, Pairs, Verdict};
use std::{fmt, io};
use triangle::{BEATS, LARGEST};

// A place as it is printed, or "-" for none.
#[derive(Clone, Copy)]
struct Place(u64);

impl fmt::Display for Place {
    fn fmt<W: fmt::Write>(&self, f: &mut fmt::Formatter<W>) -> fmt::Result {
        match self.0 {
            NO_PLACE => write!(f, "-"),
            place => write!(f, "{place}"),
        }
    }
}

// An explanation as it is printed: the verdict, and what an explanation has, which it has after a refusal too. The
// changed places come last, and one "-" where there is none.
#[derive(Clone, Copy)]
struct Told(Result<Reason, Refusal>);

impl fmt::Display for Told {
    fn fmt<W: fmt::Write>(&self, f: &mut fmt::Formatter<W>) -> fmt::Result {
        let told = self.0;
        write!(f, "{} {}", Verdict(told.verdict()), told.case())?;
        write!(f, " {} {}", Place(told.found()), Place(told.moved()))?;
        write!(f, " {}", Place(told.changed(0)))?;
        for index in 1..5 {
            let place = told.changed(index);
            if place != NO_PLACE {
                write!(f, " {place}")?;
            }
        }
        Ok(())
    }
}

// The explanation of one schedule.
fn ask(rt: &impl Print, t: u64, s: u64, beats: &[u8]) -> io::Result<()> {
    let told = reason::explain(t, s, beats);
    println!(rt; "explain {t} {s} {}: {}", Beats(beats), Told(told))
}

// The forms of (3, 2), and counts with one form only.
pub fn examples(rt: &impl Print) -> io::Result<()> {
    ask(rt, 3, 2, &[1, 1, 0, 1, 0])?;
    ask(rt, 3, 2, &[1, 1, 1, 0, 0])?;
    ask(rt, 3, 2, &[1, 0, 1, 1, 0])?;
    ask(rt, 3, 2, &[1, 0, 1, 0, 1])?;
    ask(rt, 3, 2, &[1, 1, 0, 0, 1])?;
    ask(rt, 0, 0, &[])?;
    ask(rt, 1, 1, &[1, 0])?;
    ask(rt, 3, 0, &[1, 1, 1])
}

// Each refusal: 4 and 5 with the first beat at fault and with a later one, 6 with ones too many and too few.
pub fn refusals(rt: &impl Print) -> io::Result<()> {
    ask(rt, LARGEST + 1, 0, &[1, 1])?;
    ask(rt, u64::MAX, 0, &[])?;
    ask(rt, 2, 3, &[1, 1, 0, 0, 0])?;
    ask(rt, LARGEST, u64::MAX, &[1])?;
    ask(rt, 3, 2, &[1, 1, 0, 1])?;
    ask(rt, 3, 2, &[1, 1, 0, 1, 0, 1])?;
    ask(rt, 3, 2, &[2, 1, 1, 0, 0])?;
    ask(rt, 3, 2, &[1, 1, 0, 2, 0])?;
    ask(rt, 3, 2, &[1, 1, 1, 0, 255])?;
    ask(rt, 2, 1, &[0, 1, 1])?;
    ask(rt, 2, 2, &[1, 0, 0, 1])?;
    ask(rt, 3, 3, &[1, 0, 1, 0, 0, 1])?;
    ask(rt, 2, 1, &[1, 1, 1])?;
    ask(rt, 3, 1, &[1, 0, 1, 0])?;
    ask(rt, 3, 3, &[1, 1, 1, 1, 1, 1])?;
    ask(rt, 4, 0, &[1, 0, 1, 0])
}

// Each where all that come after it hold too, and then some where one of these does.
pub fn first_refusals(rt: &impl Print) -> io::Result<()> {
    ask(rt, 200, 201, &[0, 2])?;
    ask(rt, 2, 3, &[0, 2])?;
    ask(rt, 2, 1, &[0, 2])?;
    ask(rt, 2, 1, &[0, 1, 2])?;
    ask(rt, 2, 1, &[1, 0, 0])?;
    ask(rt, 2, 3, &[0, 1, 1, 0, 0])?;
    ask(rt, 0, 0, &[0])?;
    ask(rt, 2, 1, &[1, 1, 1, 1])?;
    ask(rt, 2, 1, &[1, 0, 2])
}

// Moves the beat at a place to the second place; none where no beat has the place.
fn lead(beats: &mut [u8], place: u64) {
    let last = place as usize;
    if 0 < last && last < beats.len() {
        beats[1..=last].rotate_right(1);
    }
}

// The form of a number, its explanation, and the form that it leads to.
fn ask_number(rt: &impl Print, s: u64, number: u64) -> io::Result<()> {
    if LARGEST < s {
        return Ok(());
    }
    let mut room = [0u8; BEATS];
    let beats = &mut room[..(LARGEST + s) as usize];
    let _ = form::form(LARGEST, s, number, beats);
    let told = reason::explain(LARGEST, s, beats);
    print!(rt;
        "explain_number {LARGEST} {s} {number}: {} {}",
        Beats(beats),
        Told(told)
    )?;
    lead(beats, told.moved());
    println!(rt; " {}", Beats(beats))
}

// The first form, three between and the last, which is t ones then s zeros.
fn ask_numbers(rt: &impl Print, s: u64) -> io::Result<()> {
    let forms = refusal::value(counts::count(LARGEST, s));
    let Some(last) = forms.checked_sub(1) else {
        return Ok(());
    };
    for number in [0, forms / 3, forms / 2, forms / 3 * 2, last] {
        ask_number(rt, s, number)?;
    }
    Ok(())
}

// As many tasks as there can be: none, all but one and all of them set down.
pub fn largest(rt: &impl Print) -> io::Result<()> {
    ask_number(rt, 0, 0)?;
    ask_numbers(rt, LARGEST - 1)?;
    ask_numbers(rt, LARGEST)
}

// The digest of an explanation, with one index more than there can be changed places.
fn fold_told(before: u64, told: Result<Reason, Refusal>) -> u64 {
    let changed = (0..5).map(|index| told.changed(index));
    [told.case(), told.found(), told.moved()]
        .into_iter()
        .chain(changed)
        .fold(before, show::fold)
}

// A round of t and s, for up to 16 beats, from two forms that are the same: one is led by the explanations, the other
// takes the steps. How many explanations lead to the form that the step leads to, and the digest of all of them and of
// these forms.
fn round(rt: &impl Print, t: u64, s: u64) -> io::Result<()> {
    let (mut one, mut other) = ([0u8; 16], [0u8; 16]);
    let (Some(led), Some(beats)) = (show::top(t, s, &mut one), show::top(t, s, &mut other)) else {
        return Ok(());
    };
    let mut same: u64 = 0;
    let mut sum: u64 = 0;
    for _ in 0..refusal::value(counts::count(t, s)) {
        let told = reason::explain(t, s, beats);
        lead(led, told.moved());
        sum = show::digest(fold_told(sum, told), led);
        let _ = circle::next(t, s, beats);
        same = same.wrapping_add(u64::from(&*led == &*beats));
    }
    println!(rt; "explain_round {t} {s}: {same} {sum}")
}

// The rounds of t up to 8.
pub fn rounds(rt: &impl Print) -> io::Result<()> {
    for (t, s) in Pairs::below(9) {
        round(rt, t, s)?;
    }
    Ok(())
}
