// The lists that the programs print of a stream of order records, some lines for each: the packing list, the
// explanations and the outlines, the manual, "The packing list", "The explanations" and "The list of outlines". They
// differ in the lines of a record alone, which are in specs/Listed; how a stream is listed, and that what is printed is
// the list of the whole input however it comes in pieces, is in the crate `stream`, whose specs/Pass and specs/Exchange
// the contracts cite too. [P1]
#![tactic(auto)]

ghost use Rattle.std.specs.Prelude.{◌≡◌, ◌+◌, ◌≤◌, length, Err};
ghost use Rattle.triangle.specs.Count.{largest, most_beats};
ghost use Rattle.schedule.specs.Schedule.{Schedule};
ghost use Rattle.text.specs.Written.{Written};
ghost use Rattle.stream.specs.Stream.{verdict_on};
ghost use Rattle.stream.specs.Exchange.{Inside};
ghost use Rattle.stream.specs.Pass.{Prints, Passes};
ghost use Rattle.lists.specs.declared.Which as of;
ghost use Rattle.lists.specs.Listed.{outlined_text, apart, accepted_text, refused_in, line_of, widest};
ghost use Rattle.lists.specs.Listed.{Buffers, Turned, ended_by, status_of};

use lookup::Table;
use refusal::Refusal;
use std::io::{Read, Write};
use stream::{Failure, Front, Pass, Printed, Stream};
use text::put;

// What a list says of its records: their forms, why a beat of them moves, or their outlines. An enum and no trait: the
// lists are closed, `line_of` of the definitions goes by the same three cases, and two functions alone look at them;
// three types with a method each for both would be no plainer.
#[derive(Clone, Copy, Debug, PartialEq, Eq)]
pub enum Which {
    Packing,
    Explaining,
    Outlining,
}

// The bytes that the lines of any record fit into: the longest outline and an empty line.
const WIDEST: usize = outline::LONGEST + 1;

// Writes the line of a refused record where outlines are listed, and an empty line. [I6]
fn set_apart(why: Refusal, out: &mut [u8]) -> usize
    requires { widest ≤ length out.old }
    ensures { Written 0 (apart why) out.old out.new result }
{
    let past_text = line::refused_text(why, out);
    let past_line = put(b'\n', out, past_text);
    put(b'\n', out, past_line)
}

// Writes the outline of a form, or the line of a 14 where it is not closed, and an empty line. [I6]
fn outlined(t: u64, s: u64, beats: &[u8], out: &mut [u8]) -> usize
    requires { Schedule t s beats.now × (t ≤ largest) × (widest ≤ length out.old) }
    ensures { Written 0 (outlined_text t s beats.now) out.old out.new result }
{
    if t != s {
        return set_apart(Refusal::NotClosed, out);
    }
    let past_outline = outline::print(beats, out);
    put(b'\n', out, past_outline)
}

// Writes the lines of an accepted record at the start of the lent bytes. [E4] [X9] [I6]
fn accepted(which: Which, t: u64, s: u64, number: u64, beats: &[u8], out: &mut [u8]) -> usize
    requires { Schedule t s beats.now × (t ≤ largest) × (64 + length beats.now ≤ length out.old)
        × (widest ≤ length out.old) }
    ensures { Written 0 (accepted_text which t s number beats.now) out.old out.new
        result }
{
    match which {
        Which::Packing => line::accepted(t, s, number, beats, out),
        Which::Explaining => reason_line::explained(reason::reason_of(beats), out),
        Which::Outlining => outlined(t, s, beats, out),
    }
}

// Writes the line of a refused record where beats are explained: for 6 with the ones asked for and found. It goes by
// the number, as its definition `refused_in` does. [X11]
fn miscounted(src: &[u8], why: Refusal, out: &mut [u8]) -> usize
    requires { (verdict_on src.now ≡ Err why) × (128 ≤ length out.old) }
    ensures { Written 0 (refused_in of.Which.Explaining src.now why) out.old
        out.new result }
{
    if why.number() == 6 {
        let asked = reader::asked(src);
        let found = reason_line::ones_found(asked, why.surplus());
        return reason_line::counted(why, asked, found, out);
    }
    line::refused(why, out)
}

// Writes the lines of a refused record at the start of the lent bytes. [E4] [X11] [I6]
fn refused(which: Which, src: &[u8], why: Refusal, out: &mut [u8]) -> usize
    requires { (verdict_on src.now ≡ Err why) × (widest ≤ length out.old) }
    ensures { Written 0 (refused_in which src.now why) out.old out.new result }
{
    match which {
        Which::Packing => line::refused(why, out),
        Which::Explaining => miscounted(src, why, out),
        Which::Outlining => set_apart(why, out),
    }
}

// Writes the lines of the record that a slice starts with at the start of the lent bytes, leaving the others. The
// room takes its beats. [E4]
fn list(which: Which, table: Table<'_>, src: &[u8], room: &mut [u8], out: &mut [u8]) -> Printed
    requires { (length room.old ≡ most_beats) × (widest ≤ length out.old) }
    ensures { Prints (line_of which) src.now out.old result out.new }
{
    match reader::read_by(table, src, room) {
        Ok(order) => {
            let n = (order.t + order.s) as usize;
            let bytes = accepted(which, order.t, order.s, order.number, &room[..n], out);
            Printed {
                consumed: order.consumed,
                bytes,
                last: false,
            }
        }
        Err(unread) => {
            let number = unread.why.number();
            let bytes = refused(which, src, unread.why, out);
            Printed {
                consumed: unread.consumed,
                bytes,
                last: number == 9, // `ending` of the crate `stream` goes by the number, as the manual does
            }
        }
    }
}

// Lists the records that a window starts with, one after the other, while their lines have room. The loop goes by
// records, whose lengths are read, and not by an index. What a list needs is lent one by one: a struct of the list, the
// table and three borrows would be made in each public function for one call, no plainer. [E16]
fn list_window(
    which: Which,
    table: Table<'_>,
    src: &[u8],
    ended: bool,
    room: &mut [u8],
    text: &mut [u8],
) -> Pass
    requires { length room.old ≡ most_beats }
    ensures { Passes (line_of which) widest ended src.now text.old result text.new }
{
    let mut at = 0;
    let mut put = 0;
    loop {
        let front = stream::at_front(&src[at..], ended);
        let Front::Record = front else {
            return Pass {
                consumed: at,
                bytes: put,
                front,
            };
        };
        if text.len() - put < WIDEST {
            return Pass {
                consumed: at,
                bytes: put,
                front: Front::Record,
            };
        }
        let printed = list(which, table, &src[at..], room, &mut text[put..]);
        if printed.last {
            return Pass {
                consumed: at,
                bytes: put + printed.bytes,
                front: Front::Over,
            };
        }
        at += printed.consumed as usize;
        put += printed.bytes;
    }
}

// Lists the records of the window, writes their lines out, and reads on where one waits for more input. [E16]
fn turn<R: Read, W: Write>(
    which: Which,
    table: Table<'_>,
    from: &mut R,
    to: &mut W,
    input: &mut [u8],
    room: &mut [u8],
    text: &mut [u8],
    state: Stream,
) -> Stream
    requires { Buffers input.old room.old × Inside input.old state }
    ensures { Turned which input.old text.old state input.new result }
{
    let at = state.at;
    let have = state.have;
    let pass = list_window(which, table, &input[at..have], state.ended, room, text);
    stream::exchange(from, to, input, text, state, pass)
}

// What a run answers: the end of its list, where that has come. A run that used up its turns has not read to the end.
fn ended(state: Stream) -> Result<(), Failure>
    ensures { result ≡ ended_by state.end }
{
    state.end.unwrap_or(Err(Failure::Unread))
}

// Turn after turn, to the end of the list. A `for` over the turns would leave `fewer`, and the wrong program that its
// contract refuses ("after a turn that goes on no turn is left", list_ends_too_early of `stream`), without a use. [E12]
fn run<R: Read, W: Write>(
    which: Which,
    table: Table<'_>,
    from: &mut R,
    to: &mut W,
    input: &mut [u8],
    room: &mut [u8],
    text: &mut [u8],
) -> Result<(), Failure>
    requires { Buffers input.old room.old }
    ensures { status_of result ≤ 2 }
{
    let mut state = stream::start();
    let mut turns = u64::MAX;
    while 0 < turns {
        state = turn(which, table, from, to, input, room, text, state);
        turns = stream::fewer(turns, state.end.is_none());
    }
    ended(state)
}

// What listing answered, as a number: 0 where all was listed, 1 where reading failed and 2 where writing failed. It is
// the status of the programs too.
pub fn status(listed: Result<(), Failure>) -> u64
    ensures { result ≡ status_of listed }
{
    match listed {
        Ok(()) => 0,
        Err(Failure::Unread) => 1,
        Err(Failure::Unwritten) => 2,
    }
}

// Lists the records that a window starts with, while their lines have room, where the rows of the table and the room
// for a record's beats are made for the call: for a host that reads and writes by itself. [E18]
pub fn list_part(which: Which, src: &[u8], ended: bool, text: &mut [u8]) -> Pass
    ensures { Passes (line_of which) widest ended src.now text.old result text.new }
{
    let mut room = [0u8; triangle::BEATS];
    let rows = triangle::rows();
    list_window(which, Table::lent(&rows), src, ended, &mut room, text)
}

// [E12] Lists the records of a reader to a writer, to the end of the input or after a 9, and answers whether all was
// listed, or whether reading or writing failed. [W2]
pub fn list_all<R: Read, W: Write>(which: Which, from: &mut R, to: &mut W) -> Result<(), Failure>
    ensures { status_of result ≤ 2 }
{
    let mut input = io::large_buffer();
    let mut room = [0u8; triangle::BEATS];
    let mut text = io::large_buffer();
    let rows = triangle::rows();
    run(
        which,
        Table::lent(&rows),
        from,
        to,
        &mut input,
        &mut room,
        &mut text,
    )
}
