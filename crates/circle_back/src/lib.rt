// The step and the run back along the circle: the manual, "The step back". Both work in the lent schedule, and
// what each would change comes from a call that writes nothing: they are those of the crate circle along the way
// back, which is written here. The earlier form is found from the beats alone, by their shape: no circle is walked and
// nothing is numbered. The contracts of the public functions cite specs/Answers, which says what they answer and leave
// by specs/Back of circle; those of the way back cite specs/Undo. [V11]
#![tactic(auto)]

ghost use Rattle.std.specs.Prelude.{◌∷◌, ◌≡◌, ◌≤◌, length};
ghost use Rattle.circle.specs.Plan.{Form};
ghost use Rattle.circle.specs.Back.{steps_back, worked_back};
ghost use Rattle.circle.specs.Back.{previous as Back·previous};
ghost use Rattle.circle_back.specs.Undo.{Undoes, unmade, goes_back};
ghost use Rattle.circle_back.specs.Answers.{previous_answer, previous_left, run_back_answer, run_back_left};

use circle::{Found, Move, Way};
use refusal::Refusal;

// The move that led to 1, 0 and these beats, a schedule that is not empty: the last beat had moved to the second
// place or, where the rest has a 0 followed by 1, the beat after that 1. v is the leftmost 0 of the rest, u the
// beat after the zeros there.
fn plan_second(rest: &[u8]) -> Move
    requires form { Form rest.now }
    requires some { 1 ≤ length rest.now }
    ensures { Undoes (1 ∷ 0 ∷ rest.now) result }
{
    let Found { y: v, x: u } = circle::find(rest);
    if u == rest.len() {
        return Move::Swaps(v + 1, 1);
    }
    Move::Dips(v + 1, u + 1)
}

// The way back.
pub struct Back;

impl Way for Back {
    ghost leads = { Back·previous };

    ghost walks = { steps_back };

    ghost works = { worked_back };

    ghost stores = { unmade };

    ghost goes = { goes_back };

    // The move that led to the beats: y is the leftmost 0, x the beat after the zeros there. A 1 at the second place
    // had come from after these zeros or, if they set down all that was taken up, from before the last of them.
    #[tactic(auto, using(circle::proofs::Forms::previous_form))]
    fn plan(beats: &[u8]) -> Move {
        let n = beats.len();
        let Found { y, x } = circle::find(beats);
        if y == n {
            return Move::Stays;
        }
        if 1 < y {
            if x - y == y {
                return Move::Swaps(y - 1, x - 2);
            }
            return Move::Swaps(y - 1, x - 1);
        }
        if x == n {
            return Move::Stays;
        }
        plan_second(&beats[2..])
    }

    fn store(made: Move, beats: &mut [u8]) {
        made.store::<0, 1>(beats);
    }
}

// Takes the lent schedule one step back, and answers the beats that the step changed. Refuses 1 to 6 as the
// check does; a refusal changes nothing. [V9] [V12] [D1a]
pub fn previous(t: u64, s: u64, beats: &mut [u8]) -> Result<u64, Refusal>
    ensures value { result ≡ previous_answer t s beats.old }
    ensures beats_after { beats.new ≡ previous_left t s beats.old }
{
    circle::step_along::<Back>(t, s, beats)
}

// The beats that a step back would change, from a call that writes nothing. Refuses as previous does. [V9] [V12]
// [D1a]
pub fn previous_changed(t: u64, s: u64, beats: &[u8]) -> Result<u64, Refusal>
    ensures { result ≡ previous_answer t s beats.now }
{
    circle::step_along_changed::<Back>(t, s, beats)
}

// Takes the lent schedule k steps back, past t ones and s zeros where it comes to that, and answers the beats
// changed at each of them added up. Refuses 1 to 6 as the check does, then 13; a refusal changes nothing. [V10]
// [V12] [D1a] [R6]
pub fn run_back(t: u64, s: u64, beats: &mut [u8], k: u64) -> Result<u64, Refusal>
    ensures value { result ≡ run_back_answer t s beats.old k }
    ensures beats_after { beats.new ≡ run_back_left t s beats.old k }
{
    circle::run_along::<Back>(t, s, beats, k)
}

// The beats that a run back would change, from a call that writes nothing: it walks in a copy. Refuses as
// run_back does. [V10] [V12] [D1a] [R6]
pub fn run_back_changed(t: u64, s: u64, beats: &[u8], k: u64) -> Result<u64, Refusal>
    ensures { result ≡ run_back_answer t s beats.now k }
{
    circle::run_along_changed::<Back>(t, s, beats, k)
}
