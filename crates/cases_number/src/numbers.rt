// The numbers of whole circles, of both ends of the largest one, and each refusal of a lent schedule. Each line has the
// input and the answer.
use show::{Answer, Beats};
use std::io;
use triangle::{BEATS, LARGEST};

// The number of one schedule.
fn ask(rt: &impl Print, t: u64, s: u64, beats: &[u8]) -> io::Result<()> {
    println!(rt;
        "number {t} {s} {}: {}",
        Beats(beats),
        Answer(number::number(t, s, beats))
    )
}

// The numbers of so many forms, each a step on from the one before.
fn ask_in_order(rt: &impl Print, t: u64, s: u64, beats: &mut [u8], forms: u64) -> io::Result<()> {
    for _ in 0..forms {
        ask(rt, t, s, beats)?;
        let _ = circle::next(t, s, beats);
    }
    Ok(())
}

// The circle of t and s, from t ones then s zeros through all forms and to that form again, for up to 16 beats.
fn round(rt: &impl Print, t: u64, s: u64) -> io::Result<()> {
    let mut room = [0u8; 16];
    let Some(beats) = show::top(t, s, &mut room) else {
        return Ok(());
    };
    let forms = refusal::value(counts::count(t, s));
    ask_in_order(rt, t, s, beats, forms.wrapping_add(1))
}

// Whole circles, three of them with one form only.
pub fn rounds(rt: &impl Print) -> io::Result<()> {
    round(rt, 3, 2)?;
    round(rt, 3, 3)?;
    round(rt, 2, 1)?;
    round(rt, 1, 1)?;
    round(rt, 4, 0)?;
    round(rt, 0, 0)
}

// The largest counts: from the last form but one over the last, t ones then s zeros, to the first two.
pub fn largest(rt: &impl Print) -> io::Result<()> {
    let forms = refusal::value(counts::count(LARGEST, LARGEST));
    let mut beats = [0u8; BEATS];
    let _ = form::form(LARGEST, LARGEST, forms.wrapping_sub(2), &mut beats);
    ask_in_order(rt, LARGEST, LARGEST, &mut beats, 4)
}

// Each refusal of a lent schedule.
pub fn refusals(rt: &impl Print) -> io::Result<()> {
    ask(rt, LARGEST + 1, 0, &[1, 1])?;
    ask(rt, 2, 3, &[1, 1, 0, 0, 0])?;
    ask(rt, 3, 2, &[1, 1, 0, 1])?;
    ask(rt, 3, 2, &[1, 1, 0, 2, 0])?;
    ask(rt, 2, 2, &[1, 0, 0, 1])?;
    ask(rt, 2, 1, &[1, 1, 1])?;
    ask(rt, 3, 1, &[1, 0, 1, 0])
}

// Each before the next.
pub fn first_refusals(rt: &impl Print) -> io::Result<()> {
    ask(rt, 200, 201, &[2])?;
    ask(rt, 2, 3, &[2])?;
    ask(rt, 2, 1, &[0, 2])?;
    ask(rt, 2, 1, &[0, 1, 2])?;
    ask(rt, 2, 1, &[1, 0, 0])?;
    ask(rt, 0, 0, &[0])
}
