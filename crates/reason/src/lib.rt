// Why the rule moves a beat: the manual, "Why a beat moves". Which case of the rule holds of a schedule, where the
// found 1 and the moved beat stand, and which places the step changes. It reads the lent beats and writes nothing.
// The contracts cite specs/Explanation; proofs/Theorems says that the reason given is the one that holds, and that
// whoever applies it to a schedule gets the next form. [X1] [P1]
#![tactic(auto)]

ghost use Rattle.std.specs.Prelude.{◌≡◌, get_or};
ghost use Rattle.schedule.specs.Check.{checked};
ghost use Rattle.circle.specs.Plan.{Form};
ghost use Rattle.reason.specs.Explanation.{no_place, places_of, values_of, explanation_of};
ghost use Rattle.reason.specs.Answers.{explained};
ghost use Rattle.reason.specs.Answers as answer;

use circle::Found;
use refusal::Refusal;

// The answer where a place is asked for and there is none, and no `None`: the C functions `gv_explain_found`,
// `gv_explain_moved` and `gv_explain_changed_place` answer it.
pub const NO_PLACE: u64 = u64::MAX;

// The places that a step changes, ascending. Two cases with a number for each place and no arrays: in the definitions
// an array is a list of any length, and the theorem `values_one`, that what is explained says which reason it is, would
// not hold of two places that are four.
#[derive(Clone, Copy, Debug, PartialEq, Eq)]
pub enum Places {
    Two(u64, u64),
    Four(u64, u64, u64, u64),
}

impl Places {
    // The place that stands at an index.
    pub fn at(self, index: u64) -> u64
        ensures { result ≡ get_or (places_of self) index no_place }
    {
        match self {
            Places::Two(a, b) => match index {
                0 => a,
                1 => b,
                _ => NO_PLACE,
            },
            Places::Four(a, b, c, d) => match index {
                0 => a,
                1 => b,
                2 => c,
                3 => d,
                _ => NO_PLACE,
            },
        }
    }
}

// Why a beat moves to the second place, by the case of the rule. A place is counted from 0. [X2]
#[derive(Clone, Copy, Debug, PartialEq, Eq)]
pub enum Reason {
    // 1: there is only one form
    OneForm,
    // 2: else no 0 is followed by 1, and the last beat moves: its place, and the changed places
    LastMoves(u64, Places),
    // 3: the beat after the found 1 moves: the place of the found 1, that of the beat, and the changed places
    NextMoves(u64, u64, Places),
    // 4: the found 1 moves: its place, and the changed places
    FoundMoves(u64, Places),
}

// The parts of the answer to the question why: the reason, or why there is none.
pub trait Explained {
    ghost said: { Self → answer.Explained };

    fn verdict(self) -> Result<(), Refusal>
        ensures { result ≡ answer.verdict (said self) };

    // The number of the case, and 0 after a refusal.
    fn case(self) -> u64
        ensures { result ≡ (answer.values (said self)).case };

    // The place of the found 1, where there is one.
    fn found(self) -> u64
        ensures { result ≡ get_or (answer.values (said self)).found 0 no_place };

    // The place of the moved beat, where there is one.
    fn moved(self) -> u64
        ensures { result ≡ get_or (answer.values (said self)).moved 0 no_place };

    // A changed place by its index, from 0 on, where there are so many.
    fn changed(self, index: u64) -> u64
        ensures { result ≡ get_or (answer.values (said self)).changed index no_place };
}

impl Explained for Result<Reason, Refusal> {
    ghost said = { λ told. told };

    fn verdict(self) -> Result<(), Refusal> {
        self?;
        Ok(())
    }

    fn case(self) -> u64 {
        match self {
            Err(_) => 0,
            Ok(Reason::OneForm) => 1,
            Ok(Reason::LastMoves(_, _)) => 2,
            Ok(Reason::NextMoves(_, _, _)) => 3,
            Ok(Reason::FoundMoves(_, _)) => 4,
        }
    }

    fn found(self) -> u64 {
        match self {
            Err(_) => NO_PLACE,
            Ok(Reason::OneForm) => NO_PLACE,
            Ok(Reason::LastMoves(_, _)) => NO_PLACE,
            Ok(Reason::NextMoves(at, _, _)) => at,
            Ok(Reason::FoundMoves(at, _)) => at,
        }
    }

    fn moved(self) -> u64 {
        match self {
            Err(_) => NO_PLACE,
            Ok(Reason::OneForm) => NO_PLACE,
            Ok(Reason::LastMoves(at, _)) => at,
            Ok(Reason::NextMoves(_, at, _)) => at,
            Ok(Reason::FoundMoves(at, _)) => at,
        }
    }

    fn changed(self, index: u64) -> u64 {
        match self {
            Err(_) => NO_PLACE,
            Ok(Reason::OneForm) => NO_PLACE,
            Ok(Reason::LastMoves(_, places)) => places.at(index),
            Ok(Reason::NextMoves(_, _, places)) => places.at(index),
            Ok(Reason::FoundMoves(_, places)) => places.at(index),
        }
    }
}

// Why a beat moves of what is known to be a schedule: y is the leftmost 0, x the 1 of the leftmost 0 followed by 1.
// [X3]
pub fn reason_of(beats: &[u8]) -> Reason
    requires { Form beats.now }
    ensures { values_of result ≡ explanation_of beats.now }
{
    let n = beats.len();
    let Found { y, x } = circle::find(beats);
    if x == n {
        if y == n {
            return Reason::OneForm;
        }
        if y == 1 {
            return Reason::OneForm;
        }
        return Reason::LastMoves((n - 1) as u64, Places::Two(1, y as u64));
    }
    let swapped = Places::Two(y as u64, x as u64);
    if x + 1 < n {
        if beats[x + 1] == 1 {
            return Reason::NextMoves(x as u64, (x + 1) as u64, swapped);
        }
        if x - y < y {
            let dipped = Places::Four(1, y as u64, x as u64, (x + 1) as u64);
            return Reason::NextMoves(x as u64, (x + 1) as u64, dipped);
        }
    }
    Reason::FoundMoves(x as u64, swapped)
}

// Explains what the step would do to the lent schedule. Refuses 1 to 6 as the check does. [X4] [D1a]
#[tactic(auto, using(circle::proofs::Forms::accepted_form))]
pub fn explain(t: u64, s: u64, beats: &[u8]) -> Result<Reason, Refusal>
    ensures result_value { answer.verdict result ≡ checked t s beats.now }
    ensures result_value_2 { answer.values result ≡ explained t s beats.now }
{
    schedule::check(t, s, beats)?;
    Ok(reason_of(beats))
}
