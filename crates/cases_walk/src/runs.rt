// Single steps and runs, on and back, on both sides of their limits. Each line has the input, the answer and
// what is left in the lent schedule, where a call may write there.
use crate::way::{Back, On, Way};
use show::{Answer, Beats};
use std::io;
use triangle::{BEATS, LARGEST};

// The beats that a step would change, and then the step.
fn step<W: Way>(rt: &impl Print, way: &W, t: u64, s: u64, beats: &mut [u8]) -> io::Result<()> {
    let told = way.changed(t, s, beats);
    println!(rt;
        "{} {t} {s} {}: {}",
        W::CHANGED_LINE,
        Beats(beats),
        Answer(told)
    )?;
    print!(rt; "{} {t} {s} {}: ", W::STEP_LINE, Beats(beats))?;
    let told = way.step(t, s, beats);
    println!(rt; "{} {}", Answer(told), Beats(beats))
}

// A step on, and the step back from there.
fn ask(rt: &impl Print, t: u64, s: u64, beats: &mut [u8]) -> io::Result<()> {
    step(rt, &On, t, s, beats)?;
    step(rt, &Back, t, s, beats)
}

// A run, and what it leaves.
fn run<W: Way>(
    rt: &impl Print,
    way: &W,
    t: u64,
    s: u64,
    beats: &mut [u8],
    k: u64,
) -> io::Result<()> {
    print!(rt; "{} {k} {t} {s} {}: ", W::RUN_LINE, Beats(beats))?;
    let told = way.run(t, s, beats, k);
    println!(rt; "{} {}", Answer(told), Beats(beats))
}

// The beats that a run back would change, and then the run back.
fn back_run(rt: &impl Print, t: u64, s: u64, beats: &mut [u8], k: u64) -> io::Result<()> {
    let told = circle_back::run_back_changed(t, s, beats, k);
    println!(rt;
        "run_back_changed {k} {t} {s} {}: {}",
        Beats(beats),
        Answer(told)
    )?;
    run(rt, &Back, t, s, beats, k)
}

// A run, and the run back from there.
fn ask_run(rt: &impl Print, t: u64, s: u64, beats: &mut [u8], k: u64) -> io::Result<()> {
    run(rt, &On, t, s, beats, k)?;
    back_run(rt, t, s, beats, k)
}

// Every line of "Easy to get wrong" that concerns the step, and the forms with one form only.
pub fn steps(rt: &impl Print) -> io::Result<()> {
    ask(rt, 3, 2, &mut [1, 1, 0, 0, 1])?;
    ask(rt, 3, 2, &mut [1, 0, 1, 0, 1])?;
    ask(rt, 3, 2, &mut [1, 1, 1, 0, 0])?;
    ask(rt, 1, 1, &mut [1, 0])?;
    ask(rt, 4, 0, &mut [1, 1, 1, 1])?;
    ask(rt, 0, 0, &mut [])
}

// The refusals of the step and of the run in their order, with what is left.
pub fn refusals(rt: &impl Print) -> io::Result<()> {
    ask(rt, LARGEST + 1, 0, &mut [1, 1])?;
    ask(rt, 2, 3, &mut [1, 1, 0, 0, 0])?;
    ask(rt, 3, 2, &mut [1, 1, 0, 1])?;
    ask(rt, 3, 2, &mut [1, 1, 0, 2, 0])?;
    ask(rt, 2, 2, &mut [1, 0, 0, 1])?;
    ask(rt, 2, 1, &mut [1, 1, 1])?;
    ask(rt, 3, 1, &mut [1, 0, 1, 0])?;
    ask_run(rt, 3, 1, &mut [1, 0, 1, 0], 2)?;
    ask_run(rt, 2, 1, &mut [1, 1, 1], 0)?;
    ask_run(rt, 2, 1, &mut [1, 1, 1], 65536)?;
    ask_run(rt, 2, 1, &mut [1, 1, 0], 65536)?;
    ask_run(rt, 2, 1, &mut [1, 1, 0], u64::MAX)
}

// Runs that stop before the closing step, at it and past it, and of nothing.
pub fn lengths(rt: &impl Print) -> io::Result<()> {
    ask_run(rt, 3, 2, &mut [1, 1, 1, 0, 0], 0)?;
    ask_run(rt, 3, 2, &mut [1, 1, 1, 0, 0], 1)?;
    ask_run(rt, 3, 2, &mut [1, 1, 1, 0, 0], 4)?;
    ask_run(rt, 3, 2, &mut [1, 1, 1, 0, 0], 5)?;
    ask_run(rt, 3, 2, &mut [1, 1, 1, 0, 0], 6)?;
    ask_run(rt, 3, 2, &mut [1, 0, 1, 0, 1], 7)?;
    ask_run(rt, 1, 1, &mut [1, 0], 9)?;
    ask_run(rt, 4, 0, &mut [1, 1, 1, 1], 9)?;
    ask_run(rt, 0, 0, &mut [], 9)
}

// The longest runs, on few and on many forms, and back past number 0.
pub fn long(rt: &impl Print) -> io::Result<()> {
    ask_run(rt, 3, 2, &mut [1, 1, 1, 0, 0], 65535)?;
    ask_run(rt, 0, 0, &mut [], 65535)?;
    ask_run(rt, 0, 0, &mut [], 65536)?;
    let mut full = [0u8; BEATS];
    show::raise(&mut full, LARGEST as usize);
    run(rt, &On, LARGEST, LARGEST, &mut full, 65535)?;
    ask_run(rt, LARGEST, LARGEST, &mut full, 65536)?;
    run(rt, &On, LARGEST, LARGEST, &mut full, 65535)?;
    back_run(rt, LARGEST, LARGEST, &mut full, 65535)?;
    back_run(rt, LARGEST, LARGEST, &mut full, 65535)?;
    back_run(rt, LARGEST, LARGEST, &mut full, 65535)
}

// Steps back of every shape, and runs back from number 2 that stop before number 0, at it and past it, at 3 ones then
// 2 zeros first.
pub fn backs(rt: &impl Print) -> io::Result<()> {
    step(rt, &Back, 3, 2, &mut [1, 0, 1, 1, 0])?;
    step(rt, &Back, 3, 2, &mut [1, 1, 0, 1, 0])?;
    step(rt, &Back, 2, 2, &mut [1, 1, 0, 0])?;
    step(rt, &Back, 4, 4, &mut [1, 1, 0, 0, 1, 1, 0, 0])?;
    back_run(rt, 3, 2, &mut [1, 0, 1, 0, 1], 1)?;
    back_run(rt, 3, 2, &mut [1, 0, 1, 0, 1], 2)?;
    back_run(rt, 3, 2, &mut [1, 0, 1, 0, 1], 3)?;
    back_run(rt, 3, 2, &mut [1, 0, 1, 0, 1], 4)?;
    back_run(rt, 3, 2, &mut [1, 0, 1, 0, 1], 5)?;
    back_run(rt, 3, 2, &mut [1, 0, 1, 0, 1], 9)
}
