// One call of either way, printed with its input. The bytes that are lent to be filled are 7 before the call,
// and the line has them as they are after it.
use record::{Order, Reading, Unread};
use show::{Answer, Beats, Verdict};
use std::{fmt, io};
use triangle::BEATS;

// The most places that are lent to read in: two more than the longest schedule takes.
pub const PLACES: usize = BEATS + 2;

// What reading answers, as it is printed: the verdict, t, s, the number and the bytes consumed, whatever the verdict
// is.
#[derive(Clone, Copy)]
struct Told(Result<Order, Unread>);

impl fmt::Display for Told {
    fn fmt<W: fmt::Write>(&self, f: &mut fmt::Formatter<W>) -> fmt::Result {
        let told = self.0;
        write!(
            f,
            "{} {} {} {} {}",
            Verdict(told.verdict()),
            told.t(),
            told.s(),
            told.number(),
            told.consumed()
        )
    }
}

// The record of a schedule, in lent bytes.
fn print_write(
    rt: &impl Print,
    kind: u64,
    t: u64,
    s: u64,
    beats: &[u8],
    out: &mut [u8],
) -> io::Result<()> {
    let told = Answer(record::write(kind, t, s, beats, out));
    let room = out.len();
    println!(rt;
        "write {kind} {t} {s} {} {room}: {told} {}",
        Beats(beats),
        Beats(out)
    )
}

// The record of a schedule, in so many bytes, at most 20.
pub fn write(
    rt: &impl Print,
    kind: u64,
    t: u64,
    s: u64,
    beats: &[u8],
    room: usize,
) -> io::Result<()> {
    let mut out = [7u8; 20];
    let Some(out) = out.get_mut(..room) else {
        return Ok(());
    };
    print_write(rt, kind, t, s, beats, out)
}

// What a record says, in so many places, at most PLACES.
pub fn read_in(rt: &impl Print, src: &[u8], room: usize) -> io::Result<()> {
    let mut out = [7u8; PLACES];
    let Some(out) = out.get_mut(..room) else {
        return Ok(());
    };
    let told = Told(reader::read(src, out));
    println!(rt; "read {} {room}: {told} {}", Beats(src), Beats(out))
}

// What a record says, in PLACES places.
pub fn read(rt: &impl Print, src: &[u8]) -> io::Result<()> {
    read_in(rt, src, PLACES)
}

// The record of a schedule, in so many bytes, at most 20, and what all of these say.
pub fn both(
    rt: &impl Print,
    kind: u64,
    t: u64,
    s: u64,
    beats: &[u8],
    room: usize,
) -> io::Result<()> {
    let mut out = [7u8; 20];
    let Some(out) = out.get_mut(..room) else {
        return Ok(());
    };
    print_write(rt, kind, t, s, beats, out)?;
    read(rt, out)
}

// What bytes say of which all after the first 8 are 0.
pub fn filled(rt: &impl Print, src: &[u8]) -> io::Result<()> {
    let Some(first) = src.get(..8) else {
        return Ok(());
    };
    let mut out = [7u8; PLACES];
    let told = Told(reader::read(src, &mut out));
    let length = src.len();
    println!(rt; "filled {} {length}: {told} {}", Beats(first), Beats(&out))
}
