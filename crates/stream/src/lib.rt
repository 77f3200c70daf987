// The stream of order records that a program lists: the manual, "The packing list". A program keeps the
// bytes that were read and not yet listed, its window, in one lent buffer, and the lines that it makes of them in
// another. It lists what stands in the window (`at_front` says what that is) and hands both buffers to `exchange`,
// which writes the lines and reads on. What a line says is the program's affair. What the whole list of an input
// is, and that it is the same however the input comes in pieces, is in specs/Stream, specs/Pass and
// proofs/Theorems. The contracts cite specs/Stream and specs/Exchange. [P1]
#![tactic(auto)]

ghost use Rattle.std.specs.Prelude.{◌≡◌, cond, ◌-◌};
ghost use Rattle.stream.specs.Stream.{front_of};
ghost use Rattle.stream.specs.Exchange.{begun};
ghost use Rattle.stream.specs.Stream as means;

use reader::LONGEST;
use record::little;

mod moving;

pub use moving::exchange;

// What stands at the front of the unread bytes: a record that can be listed, the start of one that waits for more
// input, or nothing more.
#[derive(Clone, Copy, Debug, PartialEq, Eq)]
pub enum Front {
    Record,
    Short,
    Over,
}

impl Front {
    // A number for each, for a C host: a method and no `From`, since the documents name `Front::number`. [E18]
    pub fn number(self) -> u64
        ensures { result ≡ means.front_number self }
    {
        match self {
            Front::Record => 0,
            Front::Short => 1,
            Front::Over => 2,
        }
    }
}

// What a program printed of a record: the bytes of the record and those of its line, and whether the list ends
// there.
#[derive(Clone, Copy)]
pub struct Printed {
    pub consumed: u64,
    pub bytes: usize,
    pub last: bool,
}

// What a pass over the window did: the bytes that it listed, the bytes of their lines, and what it stopped at: at
// a record where there was no room for its line.
#[derive(Clone, Copy)]
pub struct Pass {
    pub consumed: usize,
    pub bytes: usize,
    pub front: Front,
}

// How listing fails.
#[derive(Clone, Copy, Debug, PartialEq, Eq)]
pub enum Failure {
    Unread,
    Unwritten,
}

// Where a program stands: unread bytes from `at` up to `have` of its buffer, whether the input has ended after them,
// and the end of the list, where it has come. Two indices and no vector of bytes: a program has no heap (fixed memory),
// and the definition `window` is in these words.
#[derive(Clone, Copy)]
pub struct Stream {
    pub at: usize,
    pub have: usize,
    pub ended: bool,
    pub end: Option<Result<(), Failure>>,
}

// Whether the record that a slice starts with is judged the same whatever follows.
fn settled(src: &[u8]) -> bool
    ensures { result ≡ means.settled src.now }
{
    if src.len() < 2 {
        return false;
    }
    let long = little::value(&src[..2]);
    if LONGEST < long {
        return true;
    }
    2 + long <= src.len() as u64
}

// What stands at the front of the unread bytes, where the input has ended after them or not. [P13]
pub fn at_front(window: &[u8], ended: bool) -> Front
    ensures { result ≡ front_of ended window.now }
{
    if ended {
        if window.len() == 0 {
            return Front::Over;
        }
        return Front::Record;
    }
    if settled(window) {
        return Front::Record;
    }
    Front::Short
}

// Where a program stands before it has read anything.
pub fn start() -> Stream
    ensures { result ≡ begun }
{
    Stream {
        at: 0,
        have: 0,
        ended: false,
        end: None,
    }
}

// The turns that are left after one: none where a program does not go on. Nothing says that an input ends, so a
// program counts its turns down, from a number that no run uses up. [E12]
pub fn fewer(turns: u64, going: bool) -> u64
    ensures { result ≡ cond going (turns - 1) 0 }
{
    if going {
        if turns == 0 {
            return 0;
        }
        return turns - 1;
    }
    0
}
