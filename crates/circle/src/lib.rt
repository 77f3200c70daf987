// The step and the run along the circle: the manual, "The step". Both work in the lent schedule, and what
// each would change comes from a call that writes nothing. They are written once for a way along the circle: the
// way on is here, and the way back is the crate circle_back's. The contracts of the public functions cite
// specs/Answers, which says what they answer and leave by specs/Step and specs/Walk; those of a way, of a move and
// of its two places cite specs/Way, specs/Plan and specs/Found.
// That the beats are a schedule, `Form`, stays a clause and is no type: a step stores beat by beat into beats that
// are no schedule in between, so beats to read and beats to store into would need a type each, and each caller would
// build one where it now proves the clause, which is no plainer.
#![tactic(auto)]

ghost use Rattle.std.specs.Prelude.{List, ℕ, ◌≡◌, ◌≤◌, length};
ghost use Rattle.refusal.specs.Answer.{answer, left};
ghost use Rattle.refusal.specs.Rows.{judge};
ghost use Rattle.schedule.specs.Check.{checked};
ghost use Rattle.circle.specs.declared.Move.{Move};
ghost use Rattle.circle.specs.Walk.{steps, worked};
ghost use Rattle.circle.specs.Plan.{Form, Inside, Leads, applied, stored};
ghost use Rattle.circle.specs.Plan.{changes as Plan·changes};
ghost use Rattle.circle.specs.Found.{Found as Found·Found};
ghost use Rattle.circle.specs.Answers.{most_steps, next_answer, next_left, run_rows, run_answer, run_left};
ghost use Rattle.circle.specs.Step.{next as Step·next};
ghost use Rattle.circle.specs.Walk.{changed as Walk·changed};
ghost use Rattle.circle.specs.Way.{Goes, goes_on};

use refusal::Refusal;

// The most steps that a run may have.
pub const LONGEST_RUN: u64 = 65535;

// What a step does to a schedule: nothing; a 1 stored at the leftmost 0 and a 0 at another place; or
// these, and the 0 after the found 1 moved to the second place.
#[derive(Clone, Copy, Debug, PartialEq, Eq)]
pub enum Move {
    Stays,
    Swaps(usize, usize),
    Dips(usize, usize),
}

impl Move {
    // How many beats a move changes, made or undone.
    pub fn changes(self) -> u64
        ensures value { result ≡ Plan·changes self }
        ensures few { result ≤ 4 }
    {
        match self {
            Move::Stays => 0,
            Move::Swaps(_, _) => 2,
            Move::Dips(_, _) => 4,
        }
    }

    // Stores what a move stores: UP and DOWN are 1 and 0 where it is made, and 0 and 1 where it is undone.
    pub fn store<const UP: u8, const DOWN: u8>(self, beats: &mut [u8])
        requires { Inside self (length beats.old) }
        ensures { beats.new ≡ stored UP DOWN self beats.old }
    {
        match self {
            Move::Stays => {}
            Move::Swaps(y, x) => {
                beats[y] = UP;
                beats[x] = DOWN;
            }
            Move::Dips(y, x) => {
                beats[y] = UP;
                beats[x] = DOWN;
                beats[1] = DOWN;
                beats[x + 1] = UP;
            }
        }
    }
}

// Two places of a schedule: y is the leftmost 0, x the beat after the zeros there, which is the 1 of the leftmost 0
// followed by 1 where there is one.
#[derive(Clone, Copy, Debug, PartialEq, Eq)]
pub struct Found {
    pub y: usize,
    pub x: usize,
}

// Finds the two places of a schedule.
pub fn find(beats: &[u8]) -> Found
    requires { Form beats.now }
    ensures places { Found·Found beats.now result.y result.x }
    ensures order { (result.y ≤ result.x) × (result.x ≤ length beats.now) }
{
    let y = schedule::skip(beats, 0, 1);
    let x = schedule::skip(beats, y, 0);
    Found { y, x }
}

// A way along the circle, on or back.
pub trait Way {
    // The form that a step leads to, the form that k steps lead to, and how many beats these change.
    ghost leads: { List ℕ → List ℕ };

    ghost walks: { ℕ → List ℕ → List ℕ };

    ghost works: { ℕ → List ℕ → ℕ };

    // What is stored of a move.
    ghost stores: { Move → List ℕ → List ℕ };

    // The move that is stored to take a step from the beats.
    fn plan(beats: &[u8]) -> Move
        requires { Form beats.now }
        ensures way { Leads leads stores beats.now result }
        ensures form { Form (leads beats.now) };

    // Stores a move.
    fn store(planned: Move, beats: &mut [u8])
        requires { Inside planned (length beats.old) }
        ensures { beats.new ≡ stores planned beats.old };

    // A walk goes step by step, and adds up what each step changes.
    ghost goes: { Goes leads walks works };
}

// The way on.
pub struct On;

impl Way for On {
    ghost leads = { Step·next };

    ghost walks = { steps };

    ghost works = { worked };

    ghost stores = { applied };

    ghost goes = { goes_on };

    // What the rule does.
    #[tactic(auto, using(crate::proofs::Forms::step_form))]
    fn plan(beats: &[u8]) -> Move {
        let n = beats.len();
        let Found { y, x } = find(beats);
        if x == n {
            if y == n {
                return Move::Stays;
            }
            if y == 1 {
                return Move::Stays;
            }
            return Move::Swaps(y, 1);
        }
        if x + 1 < n {
            if beats[x + 1] == 0 {
                if x - y < y {
                    return Move::Dips(y, x);
                }
            }
        }
        Move::Swaps(y, x)
    }

    fn store(planned: Move, beats: &mut [u8]) {
        planned.store::<1, 0>(beats);
    }
}

// Takes one step in place, and answers its changed beats.
fn step<W: Way>(beats: &mut [u8]) -> u64
    requires { Form beats.old }
    ensures beats_after { beats.new ≡ W.leads beats.old }
    ensures value { result ≡ Walk·changed beats.old (W.leads beats.old) }
    ensures form_after { Form beats.new }
    ensures few { result ≤ 4 }
{
    let planned = W::plan(beats);
    W::store(planned, beats);
    planned.changes()
}

// Takes k steps in place, and answers their changed beats added up.
#[tactic(auto, using(crate::proofs::Forms::walked_start, crate::proofs::Forms::walked_turn))]
fn walk<W: Way>(beats: &mut [u8], k: u64) -> u64
    requires form { Form beats.old }
    requires steps { k ≤ most_steps }
    ensures beats_after { beats.new ≡ W.walks k beats.old }
    ensures value { result ≡ W.works k beats.old }
{
    let mut sum: u64 = 0;
    for _ in 0..k {
        sum += step::<W>(beats);
    }
    sum
}

// Takes k steps in a copy of the beats, and answers their changed beats added up.
fn walk_copy<W: Way>(beats: &[u8], room: &mut [u8], k: u64) -> u64
    requires form { Form beats.now }
    requires size { length room.old ≡ length beats.now }
    requires steps { k ≤ most_steps }
    ensures { result ≡ W.works k beats.now }
{
    copying::copy(beats, room);
    walk::<W>(room, k)
}

// Takes the lent schedule one step along a way, and answers the beats that the step changed. Refuses 1 to 6 as
// the check does; a refusal changes nothing.
#[tactic(auto, using(crate::proofs::Forms::accepted_form))]
pub fn step_along<W: Way>(t: u64, s: u64, beats: &mut [u8]) -> Result<u64, Refusal>
    ensures value { result ≡ answer (checked t s beats.old) (Walk·changed beats.old (W.leads beats.old)) }
    ensures beats_after { beats.new ≡ left (checked t s beats.old) (W.leads beats.old) beats.old }
{
    schedule::check(t, s, beats)?;
    Ok(step::<W>(beats))
}

// The beats that a step along a way would change, from a call that writes nothing. Refuses as step_along does.
#[tactic(auto, using(crate::proofs::Forms::accepted_form))]
pub fn step_along_changed<W: Way>(t: u64, s: u64, beats: &[u8]) -> Result<u64, Refusal>
    ensures { result ≡ answer (checked t s beats.now) (Walk·changed beats.now (W.leads beats.now)) }
{
    schedule::check(t, s, beats)?;
    Ok(W::plan(beats).changes())
}

// Whether the beats may be taken k steps, on or back. Refuses 1 to 6 as the check does, then 13.
pub fn may_run(t: u64, s: u64, beats: &[u8], k: u64) -> Result<(), Refusal>
    ensures { result ≡ judge (run_rows t s beats.now k) }
{
    schedule::check(t, s, beats)?;
    if LONGEST_RUN < k {
        return Err(Refusal::RunTooLong);
    }
    Ok(())
}

// Takes the lent schedule k steps along a way, and answers the beats changed at each of them added up. Refuses 1
// to 6 as the check does, then 13; a refusal changes nothing.
#[tactic(auto, using(crate::proofs::Forms::run_form, crate::proofs::Forms::run_short))]
pub fn run_along<W: Way>(t: u64, s: u64, beats: &mut [u8], k: u64) -> Result<u64, Refusal>
    ensures value { result ≡ answer (judge (run_rows t s beats.old k)) (W.works k beats.old) }
    ensures beats_after { beats.new ≡ left (judge (run_rows t s beats.old k)) (W.walks k beats.old) beats.old }
{
    may_run(t, s, beats, k)?;
    Ok(walk::<W>(beats, k))
}

// The beats that a run along a way would change, from a call that writes nothing: it walks in a copy. Refuses as
// run_along does.
#[tactic(auto, using(crate::proofs::Forms::run_form, crate::proofs::Forms::run_short, crate::proofs::Forms::run_fits))]
pub fn run_along_changed<W: Way>(t: u64, s: u64, beats: &[u8], k: u64) -> Result<u64, Refusal>
    ensures { result ≡ answer (judge (run_rows t s beats.now k)) (W.works k beats.now) }
{
    may_run(t, s, beats, k)?;
    let n = beats.len();
    let mut room = [0u8; triangle::BEATS];
    Ok(walk_copy::<W>(beats, &mut room[..n], k))
}

// Takes the lent schedule one step on, and answers the beats that the step changed. Refuses 1 to 6 as
// the check does; a refusal changes nothing. [S5] [W1] [P1] [D1a] [D2a]
pub fn next(t: u64, s: u64, beats: &mut [u8]) -> Result<u64, Refusal>
    ensures value { result ≡ next_answer t s beats.old }
    ensures beats_after { beats.new ≡ next_left t s beats.old }
{
    step_along::<On>(t, s, beats)
}

// The beats that a step would change, from a call that writes nothing. Refuses as next does. [S7] [D1a]
pub fn changed(t: u64, s: u64, beats: &[u8]) -> Result<u64, Refusal>
    ensures { result ≡ next_answer t s beats.now }
{
    step_along_changed::<On>(t, s, beats)
}

// Takes the lent schedule k steps on, past the closing step where it comes to that, and answers the
// beats changed at each of them added up. Refuses 1 to 6 as the check does, then 13; a refusal changes nothing. [S6]
// [D1a] [D3g] [W1] [R6]
pub fn run(t: u64, s: u64, beats: &mut [u8], k: u64) -> Result<u64, Refusal>
    ensures value { result ≡ run_answer t s beats.old k }
    ensures beats_after { beats.new ≡ run_left t s beats.old k }
{
    run_along::<On>(t, s, beats, k)
}

// The beats that a run would change, from a call that writes nothing: it walks in a copy. Refuses as run does. [D1a]
// [S7] [R6]
pub fn run_changed(t: u64, s: u64, beats: &[u8], k: u64) -> Result<u64, Refusal>
    ensures { result ≡ run_answer t s beats.now k }
{
    run_along_changed::<On>(t, s, beats, k)
}
