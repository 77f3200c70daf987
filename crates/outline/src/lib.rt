// The outline of a closed schedule: the manual, "The outline". The way back is the crate `outline_back`. The contracts
// of the public functions cite specs/Answers and specs/Text; proofs/Schedules says that closed schedules and outlines
// belong together one to one. [P1]
#![tactic(auto)]

ghost use Rattle.std.specs.Prelude.{[], ◌∷◌, ◌++◌, ◌≡◌, ℕ, ◌+◌, ◌*◌, ◌≤◌, ◌<◌, leb, length};
ghost use Rattle.refusal.specs.Rows.{judge};
ghost use Rattle.triangle.specs.Count.{largest};
ghost use Rattle.schedule.specs.Schedule.{Schedule};
ghost use Rattle.text.specs.Written.{Written};
ghost use Rattle.outline.specs.Text.{under, printed};
ghost use Rattle.outline.specs.Answers.{closed_rows, outline_rows, outline_answer, outline_left};
ghost use Rattle.outline.specs.Writing.{part, ListAt, ListWritten, HeadingAt, HeadingWritten};

use refusal::Refusal;
use text::{numeral, put};
use triangle::LARGEST;

// The bytes that the text of every outline fits into: the k-th line has at most 2k. [H8]
pub const LONGEST: usize = (LARGEST * (LARGEST + 1)) as usize;

// How far a schedule has been read, and its text written.
#[derive(Clone, Copy)]
struct Reached {
    beat: usize,
    byte: usize,
}

// Writes the `long` bytes from `from` on once more, from `to` on. The library's `copy_within` was tried and proves; a
// call of C then needs 6,504 bytes of stack, where the header promises 6,000.
fn repeat(text: &mut [u8], from: usize, long: usize, to: usize)
    requires { (from + long ≤ to) × (to + long ≤ length text.old) }
    ensures { Written to (part text.old from long) text.old text.new
        (to + long) }
{
    let mut i = 0;
    while i < long {
        text[to + i] = text[from + i];
        i += 1;
    }
}

// Writes the line of a heading: the number of its parent, which stands in the text before it, a dot, its place among
// its sisters and a line feed. The topmost headings have no parent. Answers the index after it. [H4]
fn line(text: &mut [u8], parent: usize, long: usize, place: u64, start: usize) -> usize
    requires { (parent + long ≤ start)
        × (start + length (under (part text.old parent long) place) < length text.old) }
    ensures { Written start (under (part text.old parent long) place ++ 10 ∷ [])
        text.old text.new result }
{
    if long == 0 {
        let end = numeral(place, text, start);
        return put(b'\n', text, end);
    }
    repeat(text, parent, long, start);
    let dot = put(b'.', text, start + long);
    let end = numeral(place, text, dot);
    put(b'\n', text, end)
}

// Writes the lines of a list of headings, under the number of the heading that carries it, which stands in the text
// before them. Calls `heading` for each, which calls this for the list that it carries. The loop goes by headings.
// Where a number stands, and how far was read, go in as numbers of their own: as structs they were tried, and a call
// of C needed 7,024 bytes of stack, where the header promises 6,000. [F6] [H15]
#[cycle(heading_list)]
fn list(
    beats: &[u8],
    first: usize,
    text: &mut [u8],
    parent: usize,
    long: usize,
    start: usize,
) -> Reached
    requires { ListAt beats.now first text.old parent long start }
    ensures { ListWritten beats.now first text.old parent long start text.new
        result }
{
    let mut beat = first;
    let mut byte = start;
    let mut place: u64 = 1;
    loop {
        if beats.len() <= beat {
            break;
        }
        if beats[beat] == 0 {
            break;
        }
        let past = heading(beats, beat, text, parent, long, place, byte);
        beat = past.beat;
        byte = past.byte;
        place += 1;
    }
    Reached { beat, byte }
}

// Writes the line of the heading that a 1 opens, and those of the list that it carries, up to the 0 that closes it.
// [F6] [H15]
#[cycle(heading_list)]
fn heading(
    beats: &[u8],
    first: usize,
    text: &mut [u8],
    parent: usize,
    long: usize,
    place: u64,
    start: usize,
) -> Reached
    requires { HeadingAt beats.now first text.old parent long place start }
    ensures { HeadingWritten beats.now first text.old parent long place start
        text.new result }
{
    let end = line(text, parent, long, place, start);
    let inner = list(beats, first + 1, text, start, end - 1 - start, end);
    Reached {
        beat: inner.beat + 1,
        byte: inner.byte,
    }
}

// Writes the text of a closed schedule's outline at the start of the lent text, and answers its length. [P12]
pub fn print(beats: &[u8], text: &mut [u8]) -> usize
    requires { ((n : ℕ) × Schedule n n beats.now) × (length (printed beats.now) ≤ length text.old) }
    ensures { Written 0 (printed beats.now) text.old text.new result }
{
    list(beats, 0, text, 0, 0, 0).byte
}

// Whether the text of a closed schedule's outline has room in that many bytes. Where not every outline of its size
// has, it is written once to see. [H7]
fn fits(beats: &[u8], room: usize) -> bool
    requires { (n : ℕ) × (n ≤ largest) × Schedule n n beats.now }
    ensures { result ≡ leb (length (printed beats.now)) room }
{
    let n = beats.len() / 2;
    if n * (n + 1) <= room {
        return true;
    }
    let mut text = [0u8; LONGEST];
    print(beats, &mut text) <= room
}

// The refusals of a schedule that is to be printed: 1 to 6, then 14. [P13] [H7]
pub fn closed(t: u64, s: u64, beats: &[u8]) -> Result<(), Refusal>
    ensures { result ≡ judge (closed_rows t s beats.now) }
{
    schedule::check(t, s, beats)?;
    if t != s {
        return Err(Refusal::NotClosed);
    }
    Ok(())
}

// The refusals of a schedule that is to be printed in so many bytes: 1 to 6, 14, then 12. Writes nothing. [P13] [H7]
pub fn printable(t: u64, s: u64, beats: &[u8], room: usize) -> Result<(), Refusal>
    ensures { result ≡ judge (outline_rows t s beats.now room) }
{
    closed(t, s, beats)?;
    if fits(beats, room) {
        return Ok(());
    }
    Err(Refusal::NoRoom)
}

// Writes the text of the outline of a closed schedule at the start of the lent text, and answers its length. Refuses 1
// to 6, then 14, 12; a refusal changes nothing. [D1a] [H6]
pub fn outline(t: u64, s: u64, beats: &[u8], text: &mut [u8]) -> Result<u64, Refusal>
    ensures value { result ≡ outline_answer t s beats.now text.old }
    ensures text_after { text.new ≡ outline_left t s beats.now text.old }
{
    printable(t, s, beats, text.len())?;
    Ok(print(beats, text) as u64)
}
