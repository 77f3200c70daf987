// One call of either way, printed with its input. A text that is lent to be written is all # before the call, and
// beats are 7; the line has them as they are after it. In a line a line feed of a text is shown as /.
use show::{Answer, Beats, Verdict};
use std::{fmt, io};
use triangle::BEATS;

// The most bytes that are lent for a text: two more than the longest takes.
pub const ROOM: usize = outline::LONGEST + 2;

// And for a schedule.
const PLACES: usize = BEATS + 2;

// The bytes of a text as they are printed, and "-" where there is none.
#[derive(Clone, Copy)]
struct Text<'a>(&'a [u8]);

impl fmt::Display for Text<'_> {
    fn fmt<W: fmt::Write>(&self, f: &mut fmt::Formatter<W>) -> fmt::Result {
        if self.0.is_empty() {
            return write!(f, "-");
        }
        for &byte in self.0 {
            write_byte(f, byte)?;
        }
        Ok(())
    }
}

// A digit, a dot, or # for what was not written, as it is; a line feed as /; any other byte as its number in brackets.
fn write_byte<W: fmt::Write>(f: &mut fmt::Formatter<W>, byte: u8) -> fmt::Result {
    match byte {
        b'0'..=b'9' | b'.' | b'#' => write!(f, "{}", char::from(byte)),
        b'\n' => write!(f, "/"),
        _ => write!(f, "({byte})"),
    }
}

// The text of a schedule, in so many bytes, at most ROOM.
pub fn outline(rt: &impl Print, t: u64, s: u64, beats: &[u8], room: usize) -> io::Result<()> {
    let mut text = [b'#'; ROOM];
    let Some(text) = text.get_mut(..room) else {
        return Ok(());
    };
    let told = Answer(outline::outline(t, s, beats, text));
    println!(rt;
        "outline {t} {s} {} {room}: {told} {}",
        Beats(beats),
        Text(text)
    )
}

// The schedule of a text, in so many bytes, at most PLACES.
pub fn read(rt: &impl Print, n: u64, text: &[u8], length: usize) -> io::Result<()> {
    let mut out = [7u8; PLACES];
    let Some(out) = out.get_mut(..length) else {
        return Ok(());
    };
    let told = Verdict(outline_back::schedule_of_outline(n, text, out));
    println!(rt;
        "outline_read {n} {} {length}: {told} {}",
        Text(text),
        Beats(out)
    )
}

// The text of a closed schedule, in room that is long enough for it.
pub fn written<'a>(n: u64, beats: &[u8], room: &'a mut [u8]) -> Option<&'a mut [u8]> {
    let length = outline::outline(n, n, beats, room).ok()?;
    room.get_mut(..length as usize)
}

// The text of a schedule, where a byte more than it takes is lent, and the schedule of the text that it got.
pub fn both(rt: &impl Print, n: u64, beats: &[u8]) -> io::Result<()> {
    let mut room = [b'#'; ROOM];
    let Some(text) = written(n, beats, &mut room) else {
        return Ok(());
    };
    outline(rt, n, n, beats, text.len() + 1)?;
    read(rt, n, text, beats.len())
}
