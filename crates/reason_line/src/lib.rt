// The text of one line of the list of explanations: the manual, "Why a beat moves". A line is written where it is to
// stand, with no copy. The contracts cite specs/Line, and specs/Written of the crate `text`; proofs/Theorems says that
// the explanation can be read back from its line. [X9] [P1]
#![tactic(auto)]

ghost use Rattle.std.specs.Prelude.{[], ◌∷◌, ◌++◌, ◌≡◌, ℕ, ◌+◌, ◌^◌, ◌≤◌, ◌<◌, pos, ◌+ℤ◌, length};
ghost use Rattle.reason.specs.Explanation.{places_of, values_of};
ghost use Rattle.text.specs.Decimal.{decimal as Decimal·decimal};
ghost use Rattle.text.specs.Written.{Written};
ghost use Rattle.reason_line.specs.Line.{places_text, explained_line, counted_line};

use reason::{Places, Reason};
use refusal::Refusal;
use text::{decimal, field, magnitude, put};

// Writes two places and the line feed, and answers the index after them.
fn two_places(a: u64, b: u64, out: &mut [u8], at: usize) -> usize
    requires { at + 42 ≤ length out.old }
    ensures { Written at (places_text (a ∷ b ∷ []) ++ 10 ∷ []) out.old out.new result }
{
    let past_a = field(a, out, at);
    let past_b = decimal(b, out, past_a);
    put(b'\n', out, past_b)
}

// Writes the changed places and the line feed, and answers the index after them.
fn changed_text(places: Places, out: &mut [u8], at: usize) -> usize
    requires { at + 84 ≤ length out.old }
    ensures { Written at (places_text (places_of places) ++ 10 ∷ []) out.old out.new result }
{
    match places {
        Places::Two(a, b) => two_places(a, b, out, at),
        Places::Four(a, b, c, d) => {
            let past_a = field(a, out, at);
            let past_b = field(b, out, past_a);
            two_places(c, d, out, past_b)
        }
    }
}

// Writes the place of the found 1, that of the moved beat, the changed places and the line feed, and answers the index
// after them.
fn found_text(found: u64, moved: u64, places: Places, out: &mut [u8], at: usize) -> usize
    requires { at + 126 ≤ length out.old }
    ensures { Written at (Decimal·decimal found ++ 32 ∷ Decimal·decimal moved
        ++ 32 ∷ places_text (places_of places) ++ 10 ∷ []) out.old out.new result }
{
    let past_found = field(found, out, at);
    let past_moved = field(moved, out, past_found);
    changed_text(places, out, past_moved)
}

// Writes the line of an explanation at the start of out, and answers its length. The case and its space want 2 bytes,
// each of six places 21 with the space or the line feed after it. [X9]
pub fn explained(reason: Reason, out: &mut [u8]) -> usize
    requires { 128 ≤ length out.old }
    ensures { Written 0 (explained_line (values_of reason)) out.old out.new result }
{
    match reason {
        Reason::OneForm => copying::copy(b"1 - - -\n", out),
        Reason::LastMoves(at, places) => {
            let past_found = copying::copy(b"2 - ", out);
            let past_moved = field(at, out, past_found);
            changed_text(places, out, past_moved)
        }
        Reason::NextMoves(at, next, places) => {
            let past_case = copying::copy(b"3 ", out);
            found_text(at, next, places, out, past_case)
        }
        Reason::FoundMoves(at, places) => {
            let past_case = copying::copy(b"4 ", out);
            found_text(at, at, places, out, past_case)
        }
    }
}

// The ones that were found, by those that were asked for and the surplus. [X11]
pub fn ones_found(asked: u64, surplus: i32) -> u64
    requires { (asked < 2 ^ 32) × ((n : ℕ) × (surplus +ℤ pos asked ≡ pos n)) }
    ensures { surplus +ℤ pos asked ≡ pos result }
{
    if surplus < 0 {
        return asked - magnitude(surplus);
    }
    asked + magnitude(surplus)
}

// Writes the line of a record that is refused 6 at the start of out, and answers its length: the text of the refusal
// wants 71 bytes, two numbers, their spaces and the line feed 43. [X11]
pub fn counted(why: Refusal, asked: u64, found: u64, out: &mut [u8]) -> usize
    requires { 114 ≤ length out.old }
    ensures { Written 0 (counted_line why asked found) out.old out.new result }
{
    let past_text = line::refused_text(why, out);
    let past_space = put(b' ', out, past_text);
    let past_asked = field(asked, out, past_space);
    let past_found = decimal(found, out, past_asked);
    put(b'\n', out, past_found)
}
