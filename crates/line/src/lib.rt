// The text of one line of the packing list: the manual, "The packing list". A line is written where
// it is to stand, with no copy. What it says of a refusal stands in the lines of every list. The contracts cite
// specs/Line, and specs/Written of the crate `text`. [P1]
#![tactic(auto)]

ghost use Rattle.std.specs.Prelude.{◌+◌, ◌≤◌, ◌<◌, length};
ghost use Rattle.text.specs.Written.{Written};
ghost use Rattle.line.specs.Line.{Beats, beat_text, accepted_line, refused_text, refused_line};

use refusal::Refusal;
use text::{field, put, signed};

// Writes the beats as digits, or - where there are none, and answers the index after them.
fn beat_text(beats: &[u8], out: &mut [u8], at: usize) -> usize
    requires { (at + length beats.now < length out.old) × Beats beats.now }
    ensures { Written at (beat_text beats.now) out.old out.new result }
{
    if beats.is_empty() {
        return put(b'-', out, at);
    }
    for (i, beat) in beats.iter().enumerate() {
        out[at + i] = b'0' + *beat;
    }
    at + beats.len()
}

// Writes the line of an accepted record at the start of out, and answers its length. Three numbers of at
// most 20 digits, three spaces and the line feed want 64 bytes, the beats one each, and - one.
pub fn accepted(t: u64, s: u64, number: u64, beats: &[u8], out: &mut [u8]) -> usize
    requires { (65 ≤ length out.old) × (64 + length beats.now ≤ length out.old) × Beats beats.now }
    ensures { Written 0 (accepted_line t s number beats.now) out.old out.new result }
{
    let past_t = field(t, out, 0);
    let past_s = field(s, out, past_t);
    let past_number = field(number, out, past_s);
    let past_beats = beat_text(beats, out, past_number);
    put(b'\n', out, past_beats)
}

// Writes what a line says of a refusal at the start of out, and answers its length. The word and its space want 8
// bytes, two numbers with their spaces 42, and an integer 21. [Q6]
pub fn refused_text(why: Refusal, out: &mut [u8]) -> usize
    requires { 71 ≤ length out.old }
    ensures written { Written 0 (refused_text why) out.old out.new result }
    ensures upper_bound { result ≤ 71 }
{
    let past_word = copying::copy(b"refused ", out);
    let past_number = field(why.number(), out, past_word);
    let past_place = field(why.place(), out, past_number);
    signed(why.surplus(), out, past_place)
}

// Writes the line of a refused record at the start of out, and answers its length. [Q6]
pub fn refused(why: Refusal, out: &mut [u8]) -> usize
    requires { 72 ≤ length out.old }
    ensures { Written 0 (refused_line why) out.old out.new result }
{
    let past_text = refused_text(why, out);
    put(b'\n', out, past_text)
}
