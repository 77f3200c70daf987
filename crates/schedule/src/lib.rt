// The check of a schedule: the manual, "A schedule" and "Refusal numbers". It reads the lent beats
// and writes nothing. The contracts cite specs/Check, that of skip specs/Skip;
// proofs/Theorems says what the verdicts mean.
#![tactic(auto)]

ghost use Rattle.std.specs.Prelude.{◌≡◌, ℕ, ◌+◌, ◌^◌, ◌≤◌, ◌<◌, pos, ◌-ℤ◌, length, take, get_or, Ok};
ghost use Rattle.refusal.specs.Rows.{judge};
ghost use Rattle.counts.specs.Counts.{count_rows};
ghost use Rattle.schedule.specs.Schedule.{ones, zeros};
ghost use Rattle.schedule.specs.Skip.{skipped};
ghost use Rattle.schedule.specs.Check.{bad_beat, empty_hand, beat_rows, checked};

use refusal::Refusal;

// The first beat that is neither 0 nor 1, or the number of beats where there is none. [F1]
// The scope names the form of this and of `play`: a loop over the beats that yields the place by break.
fn bad_beat(beats: &[u8]) -> usize
    ensures { result ≡ bad_beat beats.now }
{
    let mut left = beats.len();
    loop {
        if left == 0 {
            break beats.len();
        }
        let at = beats.len() - left;
        if 1 < beats[at] {
            break at;
        }
        left -= 1;
    }
}

// The first place from `from` on whose beat is another, or the number of beats where there is none; `from`
// itself where it is past the end. It breaks with the place: after a `for`, a `while` or a search by `position` the
// compiler no longer sees that a step of an empty schedule does nothing, and a run back of k steps takes k turns there,
// where it takes none. [P13]
pub fn skip(beats: &[u8], from: usize, beat: u8) -> usize
    ensures { result ≡ skipped beats.now from beat }
{
    let mut at = from;
    loop {
        if beats.len() <= at {
            break at;
        }
        if beats[at] != beat {
            break at;
        }
        at += 1;
    }
}

// How far a schedule was played, and how many tasks are in hand there.
#[derive(Clone, Copy)]
struct Played {
    at: usize,
    hand: usize,
}

// Plays the beats up to the first that sets down with nothing in hand, or to the end where there is none.
// The hand is counted without a branch on the beat, which could not be predicted. [F1]
fn play(beats: &[u8]) -> Played
    requires { (k : ℕ) → k < length beats.now → get_or beats.now k 0 ≤ 1 }
    ensures at_value { result.at ≡ empty_hand beats.now }
    ensures beats_value { result.hand + zeros (take result.at beats.now) ≡ ones (take result.at beats.now) }
{
    let mut at = 0;
    let mut hand: usize = 0;
    let place = loop {
        if at == beats.len() {
            break at;
        }
        let up = beats[at] as usize;
        if hand + up == 0 {
            break at;
        }
        hand = hand + 2 * up - 1;
        at += 1;
    };
    Played { at: place, hand }
}

// How many ones there are beyond t; below 0 where some are missing. [Q1]
fn beyond(t: u64, ones: u64) -> i32
    requires { (t < 2 ^ 31) × (ones < 2 ^ 31) }
    ensures { result ≡ pos ones -ℤ pos t }
{
    ones as i32 - t as i32
}

// The refusals 3 to 6 of beats whose counts are allowed.
fn check_beats(t: u64, s: u64, beats: &[u8]) -> Result<(), Refusal>
    requires { judge (count_rows t s) ≡ Ok tt }
    ensures { result ≡ judge (beat_rows t s beats.now) }
{
    let n = beats.len();
    if n as u64 != t + s {
        return Err(Refusal::WrongLength);
    }
    let bad = bad_beat(beats);
    if bad < n {
        return Err(Refusal::BadBeat(bad as u64));
    }
    let played = play(beats);
    if played.at < n {
        return Err(Refusal::EmptyHand(played.at as u64));
    }
    if played.hand as u64 + s != t {
        let ones = (n + played.hand) / 2; // in hand are the ones without a zero of their own
        return Err(Refusal::WrongTakeUps(beyond(t, ones as u64)));
    }
    Ok(()) // no row holds
}

// Checks that the beats are a schedule of t ones and s zeros. Refuses 1, 2, 3, then 4 over all beats, 5, 6.
// [D1a] [D1d] [W1] [P1] [P2]
pub fn check(t: u64, s: u64, beats: &[u8]) -> Result<(), Refusal>
    ensures { result ≡ checked t s beats.now }
{
    counts::allowed(t, s)?;
    check_beats(t, s, beats)
}

// A beat, or a byte, as a number.
pub fn wide(byte: u8) -> u64
    ensures { result ≡ byte }
{
    u64::from(byte)
}
