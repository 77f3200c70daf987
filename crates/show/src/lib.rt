// Writes answers for the programs cases_*, and makes inputs for them. What a program prints is held to its stored
// output and not proved, so what writes, fills or folds states no answer; each function is proved safe and ending.
#![tactic(auto)]

ghost use Rattle.std.specs.Prelude.{◌≡◌, ◌+◌, ◌-◌, ◌*◌, ◌<◌, ◌≤◌, length};
ghost use Rattle.std.specs.Option.{MatchOption};
ghost use Rattle.std.specs.Iterator.{at_most};
ghost use Rattle.show.specs.Order.{Next};

use refusal::{Refusal, Told};
use std::fmt;

// The modulus of the digests, a prime.
const MODULUS: u64 = 4294967291;

// Beats as they are printed: run together, and "-" where there is none.
#[derive(Clone, Copy)]
pub struct Beats<'a>(pub &'a [u8]);

impl fmt::Display for Beats<'_> {
    fn fmt<W: fmt::Write>(&self, f: &mut fmt::Formatter<W>) -> fmt::Result {
        if self.0.is_empty() {
            return write!(f, "-");
        }
        for &beat in self.0 {
            write_beat(f, beat)?;
        }
        Ok(())
    }
}

// A beat as a digit, or in brackets where it has more than one.
fn write_beat<W: fmt::Write>(f: &mut fmt::Formatter<W>, beat: u8) -> fmt::Result {
    if beat < 10 {
        write!(f, "{beat}")
    } else {
        write!(f, "({beat})")
    }
}

// A verdict as it is printed: "accepted", or "refused", the number, the place and the surplus.
#[derive(Clone, Copy)]
pub struct Verdict(pub Result<(), Refusal>);

impl fmt::Display for Verdict {
    fn fmt<W: fmt::Write>(&self, f: &mut fmt::Formatter<W>) -> fmt::Result {
        match self.0 {
            Ok(()) => write!(f, "accepted"),
            Err(why) => write!(
                f,
                "refused {} {} {}",
                why.number(),
                why.place(),
                why.surplus()
            ),
        }
    }
}

// An answer as it is printed: the value, or the refusal as of a verdict.
#[derive(Clone, Copy)]
pub struct Answer(pub Result<u64, Refusal>);

impl fmt::Display for Answer {
    fn fmt<W: fmt::Write>(&self, f: &mut fmt::Formatter<W>) -> fmt::Result {
        match self.0 {
            Ok(value) => write!(f, "{value}"),
            Err(why) => write!(f, "{}", Verdict(Err(why))),
        }
    }
}

// Ones at the first n beats, where there are so many.
pub fn raise(beats: &mut [u8], n: usize) {
    if let Some(first) = beats.get_mut(..n) {
        first.fill(1);
    }
}

// The first form of t and s, t ones then s zeros, at the start of lent beats that are 0, where there are so many.
pub fn top(t: u64, s: u64, beats: &mut [u8]) -> Option<&mut [u8]>
    ensures { MatchOption result (length beats.old < t + s) (λ form. length form.now ≡ t + s) }
{
    let n = usize::try_from(t.checked_add(s)?).ok()?;
    let form = beats.get_mut(..n)?;
    raise(form, t as usize);
    Some(form)
}

// The digest of more beats: 31 times what it was, plus the beat, modulo the prime.
pub fn digest(before: u64, beats: &[u8]) -> u64 {
    beats
        .iter()
        .fold(before % MODULUS, |sum, &beat| fold(sum, u64::from(beat)))
}

// The digest of one more number, as digest folds a beat.
pub fn fold(before: u64, x: u64) -> u64 {
    (before % MODULUS * 31 + x % MODULUS) % MODULUS
}

// The digest of a verdict: its number, its place, how far its surplus is from 0, and 1 where that is below 0.
pub fn fold_verdict(before: u64, v: Result<(), Refusal>) -> u64 {
    let surplus = v.surplus();
    let sum = fold(fold(before, v.refusal()), v.place());
    fold(
        fold(sum, u64::from(surplus.unsigned_abs())),
        u64::from(surplus < 0),
    )
}

// The pairs of counts t and s, s at most t, in their order: those from one on, for t below a bound.
#[derive(Clone, Copy, Drop)]
pub struct Pairs {
    pub t: u64,
    pub s: u64,
    pub rows: u64,
}

impl Pairs {
    // The pairs with t below rows.
    pub fn below(rows: u64) -> Pairs
        ensures first { (result.t ≡ 0) × (result.s ≡ 0) }
        ensures bound { result.rows ≡ rows }
    {
        Pairs { t: 0, s: 0, rows }
    }
}

impl Iterator for Pairs {
    type Item = (u64, u64);

    ghost next_gives = { λ p r q. MatchOption r (p.rows ≤ p.t)
        (λ pair. (pair.0 ≡ p.t) × (pair.1 ≡ p.s) × Next p.t p.s q.t q.s × (q.rows ≡ p.rows)) };

    ghost remaining = { λ p. at_most ((p.rows - p.t) * (p.rows + 1) + (p.rows - p.s)) };

    fn next(&mut self) -> Option<(u64, u64)> {
        let Pairs { t, s, rows } = *self;
        if rows <= t {
            return None;
        }
        if s < t {
            self.s = s + 1;
        } else {
            self.t = t + 1;
            self.s = 0;
        }
        Some((t, s))
    }
}
