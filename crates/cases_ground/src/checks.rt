// Both sides of each refusal of the count and of the check, and the examples of the manual.
use show::{Answer, Beats, Verdict};
use std::io;
use triangle::{BEATS, LARGEST, SIDE};

// One count.
fn ask_count(rt: &impl Print, t: u64, s: u64) -> io::Result<()> {
    println!(rt; "count {t} {s}: {}", Answer(counts::count(t, s)))
}

// One list of beats, checked.
fn ask(rt: &impl Print, t: u64, s: u64, beats: &[u8]) -> io::Result<()> {
    let told = schedule::check(t, s, beats);
    println!(rt; "check {t} {s} {}: {}", Beats(beats), Verdict(told))
}

// Refusals 1 and 2 of a count, 1 first; the manual's one task too many, with none set down, and its (2, 3).
pub fn counts(rt: &impl Print) -> io::Result<()> {
    ask_count(rt, LARGEST, LARGEST)?;
    ask_count(rt, LARGEST + 1, 0)?;
    ask_count(rt, 200, 201)?;
    ask_count(rt, u64::MAX, 0)?;
    ask_count(rt, 2, 2)?;
    ask_count(rt, 2, 3)?;
    ask_count(rt, 0, 1)?;
    ask_count(rt, LARGEST, u64::MAX)
}

// The same of the check.
pub fn sizes(rt: &impl Print) -> io::Result<()> {
    ask(rt, 200, 0, &[])?;
    ask(rt, 200, 201, &[2])?;
    ask(rt, u64::MAX, u64::MAX, &[])?;
    ask(rt, 2, 3, &[])?;
    ask(rt, 2, 3, &[1, 1, 0, 0, 0])?;
    ask(rt, 3, u64::MAX, &[1, 1])
}

// Refusal 3, one beat short and one long, and before 4.
pub fn lengths(rt: &impl Print) -> io::Result<()> {
    ask(rt, 2, 1, &[1, 1])?;
    ask(rt, 2, 1, &[1, 1, 0])?;
    ask(rt, 2, 1, &[1, 1, 0, 0])?;
    ask(rt, 3, 2, &[1, 1, 0, 1])?;
    ask(rt, 3, 2, &[1, 1, 0, 1, 0])?;
    ask(rt, 3, 2, &[1, 1, 0, 1, 0, 1])?;
    ask(rt, 3, 2, &[1, 1, 2, 0])?;
    ask(rt, 0, 0, &[])?;
    ask(rt, 0, 0, &[0])?;
    ask(rt, 1, 1, &[])
}

// Refusal 4, with the first and the last beat at fault and with two, and before 5.
pub fn bad_beats(rt: &impl Print) -> io::Result<()> {
    ask(rt, 3, 2, &[2, 1, 1, 0, 0])?;
    ask(rt, 3, 2, &[1, 1, 1, 0, 255])?;
    ask(rt, 3, 2, &[1, 2, 1, 3, 0])?;
    ask(rt, 1, 1, &[0, 2])?;
    ask(rt, 2, 2, &[1, 0, 0, 2])?;
    ask(rt, 2, 1, &[2, 1, 1])
}

// Refusal 5, with the first and the last beat at fault, and before 6.
pub fn empty_hands(rt: &impl Print) -> io::Result<()> {
    ask(rt, 2, 1, &[0, 1, 1])?;
    ask(rt, 2, 2, &[1, 0, 0, 1])?;
    ask(rt, 2, 1, &[1, 0, 0])?;
    ask(rt, 2, 2, &[0, 0, 1, 1])?;
    ask(rt, 3, 3, &[1, 0, 1, 0, 0, 0])
}

// Refusal 6, with a one too many and one too few, and schedules beside them. [Q7]
pub fn wrong_take_ups(rt: &impl Print) -> io::Result<()> {
    ask(rt, 2, 1, &[1, 1, 1])?;
    ask(rt, 3, 1, &[1, 0, 1, 0])?;
    ask(rt, 2, 0, &[1, 0])?;
    ask(rt, 1, 1, &[1, 1])?;
    ask(rt, 1, 1, &[1, 0])?;
    ask(rt, 2, 2, &[1, 0, 1, 0])?;
    ask(rt, 4, 0, &[1, 1, 1, 1])?;
    ask(rt, 4, 0, &[1, 1, 1, 0])
}

// As many beats as a schedule may have, and one more; the last and then the first beat at fault.
pub fn limits(rt: &impl Print) -> io::Result<()> {
    let over = [1u8; SIDE];
    ask(rt, LARGEST + 1, 0, &over)?;
    let mut full = [0u8; BEATS];
    show::raise(&mut full, LARGEST as usize);
    ask(rt, LARGEST, LARGEST, &full)?;
    show::raise(&mut full, SIDE);
    ask(rt, LARGEST, LARGEST, &full)?;
    full[BEATS - 1] = 7;
    ask(rt, LARGEST, LARGEST, &full)?;
    full[0] = 0;
    ask(rt, LARGEST, LARGEST, &full)?;
    full[BEATS - 1] = 0;
    ask(rt, LARGEST, LARGEST, &full)
}

// Ones and zeros in turn. An own one, as in two other programs: in `show` it would be public, with a definition,
// a contract and wrong programs, for five lines.
fn alternate(beats: &mut [u8]) {
    for (at, beat) in beats.iter_mut().enumerate() {
        *beat = u8::from(at % 2 == 0);
    }
}

// For t the largest count: all ones, which are lent; and ones and zeros in turn, the fewest ones that a schedule of
// so many beats can have. [Q7]
fn ends(rt: &impl Print, s: u64, beats: &mut [u8]) -> io::Result<()> {
    ask(rt, LARGEST, s, beats)?;
    alternate(beats);
    ask(rt, LARGEST, s, beats)
}

// How far the ones can be off.
pub fn extremes(rt: &impl Print) -> io::Result<()> {
    let mut fewest = [1u8; LARGEST as usize];
    ends(rt, 0, &mut fewest)?;
    let mut few = [1u8; SIDE];
    ends(rt, 1, &mut few)?;
    let mut many = [1u8; BEATS - 1];
    ends(rt, LARGEST - 1, &mut many)?;
    let mut most = [1u8; BEATS];
    ends(rt, LARGEST, &mut most)
}
