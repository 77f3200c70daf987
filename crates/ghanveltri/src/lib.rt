// The library as a host calls it: the manual, "What we ship". Each function takes 64-bit numbers and lent bytes and
// answers one number: the refusal, the place, the surplus and the value of check, count, number and outline are asked
// for by a call each, and so is each part of an explanation; form, the steps and the runs, on and back, and the way
// back from an outline answer their refusal, and what a step or a run would change comes from calls that write nothing.
// The lists go from a reader to a writer. Nothing is kept from call to call. The contracts cite the definitions of the
// crates below, each by an equation; but that of the way back from an outline is a relation, which one answer fits
// (`back_one` of its crate), and those of the lists say only which numbers they answer. The crate `ghanveltri_c` gives
// the functions to C, all but the lists. [W3] [P13] [D1a] [P1]
#![tactic(auto)]

ghost use Rattle.std.specs.Prelude.{List, ◌≡◌, ℕ, ◌≤◌, get_or};
ghost use Rattle.refusal.specs.Answer.{Verdict};
ghost use Rattle.form.specs.Answers.{form_verdict, form_left};
ghost use Rattle.refusal.specs.Answer.{refusal, place, surplus, verdict, value};
ghost use Rattle.counts.specs.Counts.{counting};
ghost use Rattle.schedule.specs.Check.{checked};
ghost use Rattle.circle.specs.Answers.{next_answer, next_left, run_answer, run_left};
ghost use Rattle.circle_back.specs.Answers.{previous_answer, previous_left, run_back_answer, run_back_left};
ghost use Rattle.reason.specs.Explanation.{no_place};
ghost use Rattle.reason.specs.Answers.{explained};
ghost use Rattle.number.specs.Answers.{number_answer};
ghost use Rattle.outline.specs.Answers.{outline_answer, outline_left};
ghost use Rattle.outline_back.specs.Back.{Back};

use lists::Which;
use reason::Explained;
use refusal::Told;
use std::io::{Read, Write};

// The version, 2.1.0: major * 1000000 + minor * 1000 + patch.
const VERSION: u64 = 2001000;

// The version of the library.
pub fn gv_version() -> u64
    ensures { result ≡ 2001000 }
{
    VERSION
}

// Whether the beats are a schedule of t ones and s zeros: 0, or the refusal, 1 to 6.
// [W3]
pub fn gv_check_refusal(t: u64, s: u64, beats: &[u8]) -> u64
    ensures { result ≡ refusal (checked t s beats.now) }
{
    schedule::check(t, s, beats).refusal()
}

// The place that goes with that refusal, and 0 where it names none.
// [W3]
pub fn gv_check_place(t: u64, s: u64, beats: &[u8]) -> u64
    ensures { result ≡ place (checked t s beats.now) }
{
    schedule::check(t, s, beats).place()
}

// How many ones there are beyond t, where that is the refusal; else 0.
// [Q5]
pub fn gv_check_surplus(t: u64, s: u64, beats: &[u8]) -> i32
    ensures { result ≡ surplus (checked t s beats.now) }
{
    schedule::check(t, s, beats).surplus()
}

// Whether counts t, s have forms: 0, or the refusal, 1 or 2.
// [W3]
pub fn gv_count_refusal(t: u64, s: u64) -> u64
    ensures { result ≡ refusal (verdict (counting t s)) }
{
    counts::allowed(t, s).refusal()
}

// The place that goes with that refusal: 0.
// [W3]
pub fn gv_count_place(t: u64, s: u64) -> u64
    ensures { result ≡ place (verdict (counting t s)) }
{
    counts::allowed(t, s).place()
}

// How many forms there are of counts t, s; 0 after a refusal.
// [W3]
pub fn gv_count(t: u64, s: u64) -> u64
    ensures { result ≡ value (counting t s) }
{
    refusal::value(counts::count(t, s))
}

// Whether the beats have a number: 0, or the refusal, 1 to 6. Asks the check alone.
// [W3]
pub fn gv_number_refusal(t: u64, s: u64, beats: &[u8]) -> u64
    ensures { result ≡ refusal (verdict (number_answer t s beats.now)) }
{
    gv_check_refusal(t, s, beats)
}

// The place that goes with that refusal, and 0 where it names none.
// [W3]
pub fn gv_number_place(t: u64, s: u64, beats: &[u8]) -> u64
    ensures { result ≡ place (verdict (number_answer t s beats.now)) }
{
    gv_check_place(t, s, beats)
}

// The surplus that goes with that refusal: 0 but for 6.
// [Q5]
pub fn gv_number_surplus(t: u64, s: u64, beats: &[u8]) -> i32
    ensures { result ≡ surplus (verdict (number_answer t s beats.now)) }
{
    gv_check_surplus(t, s, beats)
}

// The number of the lent schedule; 0 after a refusal.
// [W3]
pub fn gv_number(t: u64, s: u64, beats: &[u8]) -> u64
    ensures { result ≡ value (number_answer t s beats.now) }
{
    refusal::value(number::number(t, s, beats))
}

// Writes the form of that number into the t+s lent bytes, and answers 0 or the refusal: 1, 2, 7, then 3.
// A refusal changes nothing.
// [W3]
pub fn gv_form(t: u64, s: u64, number: u64, out: &mut [u8]) -> u64
    ensures value { result ≡ refusal (form_verdict t s number out.old) }
    ensures out_after { out.new ≡ form_left t s number out.old }
{
    form::form(t, s, number, out).refusal()
}

// Takes the lent schedule one step on, and answers 0 or the refusal, 1 to 6. A refusal changes nothing.
// [W3]
pub fn gv_next(t: u64, s: u64, beats: &mut [u8]) -> u64
    ensures value { result ≡ refusal (verdict (next_answer t s beats.old)) }
    ensures beats_after { beats.new ≡ next_left t s beats.old }
{
    circle::next(t, s, beats).refusal()
}

// The beats that gv_next would change, and 0 where it refuses. Writes nothing.
// [W3]
pub fn gv_next_changed(t: u64, s: u64, beats: &[u8]) -> u64
    ensures { result ≡ value (next_answer t s beats.now) }
{
    refusal::value(circle::changed(t, s, beats))
}

// Takes the lent schedule that many steps on, and answers 0 or the refusal: 1 to 6, then 13. A refusal
// changes nothing.
pub fn gv_run(t: u64, s: u64, beats: &mut [u8], steps: u64) -> u64
    ensures value { result ≡ refusal (verdict (run_answer t s beats.old steps)) }
    ensures beats_after { beats.new ≡ run_left t s beats.old steps }
{
    circle::run(t, s, beats, steps).refusal()
}

// The beats that gv_run would change at its steps, added up, and 0 where it refuses. Writes nothing.
pub fn gv_run_changed(t: u64, s: u64, beats: &[u8], steps: u64) -> u64
    ensures { result ≡ value (run_answer t s beats.now steps) }
{
    refusal::value(circle::run_changed(t, s, beats, steps))
}

// Takes the lent schedule one step back, and answers 0 or the refusal, 1 to 6. A refusal changes nothing.
// [V9]
pub fn gv_previous(t: u64, s: u64, beats: &mut [u8]) -> u64
    ensures value { result ≡ refusal (verdict (previous_answer t s beats.old)) }
    ensures beats_after { beats.new ≡ previous_left t s beats.old }
{
    circle_back::previous(t, s, beats).refusal()
}

// The beats that gv_previous would change, and 0 where it refuses. Writes nothing.
// [V9]
pub fn gv_previous_changed(t: u64, s: u64, beats: &[u8]) -> u64
    ensures { result ≡ value (previous_answer t s beats.now) }
{
    refusal::value(circle_back::previous_changed(t, s, beats))
}

// Takes the lent schedule that many steps back, and answers 0 or the refusal: 1 to 6, then 13. A refusal
// changes nothing.
// [V10]
pub fn gv_run_back(t: u64, s: u64, beats: &mut [u8], steps: u64) -> u64
    ensures value { result ≡ refusal (verdict (run_back_answer t s beats.old steps)) }
    ensures beats_after { beats.new ≡ run_back_left t s beats.old steps }
{
    circle_back::run_back(t, s, beats, steps).refusal()
}

// The beats that gv_run_back would change at its steps, added up, and 0 where it refuses. Writes nothing.
// [V10]
pub fn gv_run_back_changed(t: u64, s: u64, beats: &[u8], steps: u64) -> u64
    ensures { result ≡ value (run_back_answer t s beats.now steps) }
{
    refusal::value(circle_back::run_back_changed(t, s, beats, steps))
}

// The case of the rule that says why gv_next would move a beat, 1 to 4; 0 where it refuses.
// [X5]
pub fn gv_explain_case(t: u64, s: u64, beats: &[u8]) -> u64
    ensures { result ≡ (explained t s beats.now).case }
{
    reason::explain(t, s, beats).case()
}

// The place of the found 1; the largest number where the case has none, and where gv_next refuses.
// [X5]
pub fn gv_explain_found(t: u64, s: u64, beats: &[u8]) -> u64
    ensures { result ≡ get_or (explained t s beats.now).found 0 no_place }
{
    reason::explain(t, s, beats).found()
}

// The place of the beat that gv_next would move to the second place; the largest number where there is none.
// [X5]
pub fn gv_explain_moved(t: u64, s: u64, beats: &[u8]) -> u64
    ensures { result ≡ get_or (explained t s beats.now).moved 0 no_place }
{
    reason::explain(t, s, beats).moved()
}

// A place at which gv_next would change a beat, by its index among them, ascending, from 0 on; the largest number
// where there are not so many.
// [X5]
pub fn gv_explain_changed_place(t: u64, s: u64, beats: &[u8], which: u64) -> u64
    ensures { result ≡ get_or (explained t s beats.now).changed which no_place }
{
    reason::explain(t, s, beats).changed(which)
}

// Whether the beats have an outline that fits into the lent text: 0, or the refusal, 1 to 6, 14, 12. Writes nothing.
// [I1]
pub fn gv_outline_refusal(t: u64, s: u64, beats: &[u8], text: &[u8]) -> u64
    ensures { result ≡ refusal (verdict (outline_answer t s beats.now text.now)) }
{
    outline::printable(t, s, beats, text.len()).refusal()
}

// The place that goes with that refusal, and 0 where it names none. Writes nothing.
// [I1]
pub fn gv_outline_place(t: u64, s: u64, beats: &[u8], text: &[u8]) -> u64
    ensures { result ≡ place (verdict (outline_answer t s beats.now text.now)) }
{
    outline::printable(t, s, beats, text.len()).place()
}

// The surplus that goes with that refusal: 0 but for 6. Writes nothing.
// [I1]
pub fn gv_outline_surplus(t: u64, s: u64, beats: &[u8], text: &[u8]) -> i32
    ensures { result ≡ surplus (verdict (outline_answer t s beats.now text.now)) }
{
    outline::printable(t, s, beats, text.len()).surplus()
}

// Writes the outline of the lent schedule at the start of the lent text, and answers its bytes; 0 after a refusal,
// which changes nothing.
// [I1]
pub fn gv_outline(t: u64, s: u64, beats: &[u8], text: &mut [u8]) -> u64
    ensures value { result ≡ value (outline_answer t s beats.now text.old) }
    ensures text_after { text.new ≡ outline_left t s beats.now text.old }
{
    refusal::value(outline::outline(t, s, beats, text))
}

// Writes the schedule whose outline of n lines has exactly this text into the 2n lent bytes, and answers 0 or the
// refusal: 1, 3, then 15. A refusal changes nothing.
// [I2]
pub fn gv_outline_read(n: u64, text: &[u8], out: &mut [u8]) -> u64
    ensures { (v : Verdict) × Back n text.now out.old v out.new
        × (result ≡ refusal v) }
{
    outline_back::schedule_of_outline(n, text, out).refusal()
}

// The first wrong, missing or surplus line, where that is the refusal; else 0. Writes nothing.
// [I2]
pub fn gv_outline_read_place(n: u64, text: &[u8], out: &[u8]) -> u64
    ensures { (v : Verdict) × (b : List ℕ) × Back n text.now out.now v b
        × (result ≡ place v) }
{
    outline_back::readable(n, text, out).place()
}

// Lists the order records of a reader to a writer as the packing list does, to the end of the input or after a 9: 0
// where all was listed, 1 where reading failed, 2 where writing failed. This and the next two are names of one
// function, `list_all`: a host calls them so, in C too.
// [E18]
pub fn gv_packing_list<R: Read, W: Write>(from: &mut R, to: &mut W) -> u64
    ensures { result ≤ 2 }
{
    lists::status(lists::list_all(Which::Packing, from, to))
}

// The same of the list that explains each record.
// [X10]
pub fn gv_explain_list<R: Read, W: Write>(from: &mut R, to: &mut W) -> u64
    ensures { result ≤ 2 }
{
    lists::status(lists::list_all(Which::Explaining, from, to))
}

// The same of the list of outlines.
// [I3]
pub fn gv_outline_list<R: Read, W: Write>(from: &mut R, to: &mut W) -> u64
    ensures { result ≤ 2 }
{
    lists::status(lists::list_all(Which::Outlining, from, to))
}
