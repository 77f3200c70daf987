// The way back from the text of an outline: the manual, "The outline". The contract of the public functions cites
// specs/Back; proofs/Theorems says that this way and that of the crate `outline` undo each other. [P1]
#![tactic(auto)]

ghost use Rattle.std.specs.Prelude.{List, ◌≡◌, ℕ, ◌+◌, ◌^◌, ◌≤◌, ◌<◌, length, Ok};
ghost use Rattle.refusal.specs.Rows.{judge};
ghost use Rattle.outline.specs.Text.{stem, under};
ghost use Rattle.outline.specs.Writing.{part};
ghost use Rattle.outline_back.specs.Back.{back_rows, Back};
ghost use Rattle.outline_back.specs.Reading.{Stood, Lined, ListRead, HeadingRead, Found};

use refusal::Refusal;

// Where the number of a heading stands in the text: its first byte, and how long it is.
#[derive(Clone, Copy)]
struct Number {
    at: usize,
    long: usize,
}

// How far a text has been read and its schedule written, and how many lines are still to come. There is one for a whole
// text, which `list` and `heading` move on, and one room for the digits of a place: one for each call would take more
// of the stack. It is not the type of the same name in `outline`, which has no use for the lines: with them there, no
// function would be plainer.
#[derive(Clone, Copy)]
struct Reached {
    byte: usize,
    beat: usize,
    left: usize,
}

// Whether a piece stands in the text from `at` on. The library's `starts_with` was tried and proves; where a text has
// few lines, reading it then takes half as long again, since the pieces are short and the call is not inlined.
fn stands(text: &[u8], at: usize, piece: &[u8]) -> bool
    requires { at ≤ length text.now }
    ensures { Stood text.now at piece.now result }
{
    if text.len() - at < piece.len() {
        return false;
    }
    for i in 0..piece.len() {
        if text[at + i] != piece[i] {
            return false;
        }
    }
    true
}

// How long the beginning of a number is under a parent's number of that length: a dot comes after it. The topmost have
// no parent.
fn stem_length(long: usize) -> usize
    requires { long < 2 ^ 63 }
    ensures { (p : List ℕ) → length p ≡ long → result ≡ length (stem p) }
{
    if long == 0 {
        return 0;
    }
    long + 1
}

// Whether a line begins as those under a parent's number do.
fn under_it(text: &[u8], parent: Number, from: usize) -> bool
    requires { (parent.at + parent.long ≤ length text.now) × (from ≤ length text.now) }
    ensures { Stood text.now from (stem (part text.now parent.at parent.long)) result }
{
    if parent.long == 0 {
        return true;
    }
    if !stands(text, from, &text[parent.at..parent.at + parent.long]) {
        return false;
    }
    stands(text, from + parent.long, b".")
}

// Where the line of the heading at that place under a parent's number ends, if it stands in the text from `from` on.
// The place's digits are written into the lent room.
fn line_end(
    text: &[u8],
    parent: Number,
    place: u64,
    from: usize,
    digits: &mut [u8; 20],
) -> Option<usize>
    requires { (parent.at + parent.long ≤ length text.now) × (from ≤ length text.now) }
    ensures { Lined text.now from (under (part text.now parent.at parent.long) place) result }
{
    if !under_it(text, parent, from) {
        return None;
    }
    let number = from + stem_length(parent.long);
    let wide = text::decimal(place, digits, 0);
    if !stands(text, number, &digits[..wide]) {
        return None;
    }
    let feed = number + wide;
    if !stands(text, feed, b"\n") {
        return None;
    }
    Some(feed + 1)
}

// Reads the lines of a list of headings, under the number of the heading that carries it, writes their beats, and moves
// `reached` on past both. Calls `heading` for each, which calls this for the list that it carries. The loop goes by
// headings. [F6] [H15]
#[cycle(heading_list)]
fn list(text: &[u8], parent: Number, reached: &mut Reached, beats: &mut [u8], digits: &mut [u8; 20])
    requires { (parent.at + parent.long ≤ length text.now) × (reached.old.byte ≤ length text.now)
        × (reached.old.beat + (reached.old.left + reached.old.left) ≤ length beats.old) }
    ensures { ListRead text.now parent.at parent.long reached.old.byte reached.old.left reached.old.beat beats.old
        beats.new reached.new }
{
    let mut place: u64 = 1;
    while reached.left != 0 {
        let from = reached.byte;
        let Some(end) = line_end(text, parent, place, from, digits) else {
            break;
        };
        let number = Number {
            at: from,
            long: end - 1 - from,
        };
        reached.byte = end;
        reached.left -= 1;
        heading(text, number, reached, beats, digits);
        place += 1;
    }
}

// Writes the beats of a heading whose own line was read, and of the list that it carries, from the line after its own
// on: a 1, the list's, and a 0. [F6] [H15]
#[cycle(heading_list)]
fn heading(
    text: &[u8],
    number: Number,
    reached: &mut Reached,
    beats: &mut [u8],
    digits: &mut [u8; 20],
)
    requires { (number.at + number.long ≤ length text.now) × (reached.old.byte ≤ length text.now)
        × (reached.old.beat + (reached.old.left + reached.old.left) + 2 ≤ length beats.old) }
    ensures { HeadingRead text.now number.at number.long reached.old.byte reached.old.left reached.old.beat beats.old
        beats.new reached.new }
{
    beats[reached.beat] = 1;
    reached.beat += 1;
    list(text, number, reached, beats, digits);
    let end = reached.beat;
    beats[end] = 0;
    reached.beat = end + 1;
}

// Reads a whole text of n lines; the room takes the schedule of its outline.
fn read(n: usize, text: &[u8], room: &mut [u8]) -> Result<(), Refusal>
    requires { length room.old ≡ n + n }
    ensures { Found n text.now room.new result }
{
    let mut end = Reached {
        byte: 0,
        beat: 0,
        left: n,
    };
    let mut digits = [0u8; 20];
    list(text, Number { at: 0, long: 0 }, &mut end, room, &mut digits);
    if end.left == 0 {
        if end.byte == text.len() {
            return Ok(());
        }
    }
    let good = n - end.left;
    Err(Refusal::NoSuchOutline(good as u64))
}

// The refusals by size: 1, then 3.
fn sized(n: u64, room: usize) -> Result<(), Refusal>
    ensures { result ≡ judge (back_rows n room) }
{
    if triangle::LARGEST < n {
        return Err(Refusal::TooManyTasks);
    }
    if room as u64 != n + n {
        return Err(Refusal::WrongLength);
    }
    Ok(())
}

// Whether the text is the outline of n lines, to be read into beats of that length. Refuses 1, 3, then 15; writes
// nothing. [H10]
pub fn readable(n: u64, text: &[u8], out: &[u8]) -> Result<(), Refusal>
    ensures { (b : List ℕ) × Back n text.now out.now result b }
{
    sized(n, out.len())?;
    let long = out.len();
    let mut room = [0u8; triangle::BEATS];
    read(n as usize, text, &mut room[..long])
}

// The way back for sizes that fit; the room is as long as the schedule, and takes it until the text is known to have
// one.
fn rebuild(n: usize, text: &[u8], room: &mut [u8], out: &mut [u8]) -> Result<(), Refusal>
    requires { (judge (back_rows n (length out.old)) ≡ Ok tt)
        × (length room.old ≡ length out.old) }
    ensures { Back n text.now out.old result out.new }
{
    read(n, text, room)?;
    copying::copy(room, out);
    Ok(())
}

// Writes the schedule of 2n beats whose outline has exactly this text. Refuses 1, 3, then 15, with the first wrong,
// missing or surplus line; a refusal changes nothing. [D1a] [H9]
pub fn schedule_of_outline(n: u64, text: &[u8], out: &mut [u8]) -> Result<(), Refusal>
    ensures { Back n text.now out.old result out.new }
{
    sized(n, out.len())?;
    let long = out.len();
    let mut room = [0u8; triangle::BEATS];
    rebuild(n as usize, text, &mut room[..long], out)
}
