// The parts of reading a record, and the reader of each layout. The contracts cite specs/Answers, and specs/Bytes
// and specs/Record of `record`; `numbered` and `beaten` require a whole record and room for the longest schedule.
ghost use Rattle.std.specs.Prelude.{◌≡◌, ◌++◌, ◌+◌, ◌≤◌, length, take, drop};
ghost use Rattle.form.specs.Answers.{number_rows};
ghost use Rattle.refusal.specs.Answer.{answer, left};
ghost use Rattle.refusal.specs.Rows.{judge};
ghost use Rattle.triangle.specs.Count.{N, most_beats};
ghost use Rattle.counts.specs.Counts.{Allowed, count_rows};
ghost use Rattle.number.specs.Number.{number_of};
ghost use Rattle.record.specs.Bytes.{bytes_for, value_of, unpacked};
ghost use Rattle.record.specs.Bytes as beats;
ghost use Rattle.record.specs.Record.{longest, ups_at, downs_at, cut, form_by, packed_rows, kind_rows};
ghost use Rattle.record.specs.Record as part;
ghost use Rattle.record.specs.declared.layout.Layout as of;
ghost use Rattle.record.specs.declared.layout.Numbering as by;
ghost use Rattle.reader.specs.Answers.{order_by, left_by, Whole};
ghost use Rattle.reader.specs.Answers as said;

use lookup::Table;
use record::layout::Numbering;
use record::{Order, layout, little, pack};
use refusal::Refusal;
use schedule::wide;

// The most bytes that a record has after its length.
pub const LONGEST: u64 = 1020;

// L, of a slice that has its two bytes.
pub fn long(src: &[u8]) -> u64
    requires { 2 ≤ length src.now }
    ensures { result ≡ part.long src.now }
{
    little::value(&src[..2])
}

// Whether a slice has no whole record, or its L is above the longest.
pub fn is_cut(src: &[u8]) -> bool
    ensures { result ≡ cut src.now }
{
    if src.len() < 2 {
        return true;
    }
    let long = long(src);
    if LONGEST < long {
        return true;
    }
    (src.len() as u64) < 2 + long
}

// The kind, of a slice that has its two bytes.
pub fn kind(src: &[u8]) -> u64
    requires { 4 ≤ length src.now }
    ensures { result ≡ value_of (take 2 (drop 2 src.now)) }
{
    little::value(&src[2..4])
}

// The counts of the form: t at its byte, and s in the next.
fn sizes(src: &[u8], at: usize) -> (u64, u64)
    requires { (at ≤ longest) × (at + 2 ≤ length src.now) }
    ensures ups { result.0 ≡ ups_at at src.now }
    ensures downs { result.1 ≡ downs_at at src.now }
{
    (wide(src[at]), wide(src[at + 1]))
}

// The number before a number, round the circle of all; a number that is not below all stays.
fn before(number: u64, all: u64) -> u64
    ensures { result ≡ said.catalogued by.Numbering.FromTop all number }
{
    if all <= number {
        return number;
    }
    if number == 0 { all - 1 } else { number - 1 }
}

// The number in the catalogue of the form that has a number by a numbering; a number that no form has stays such a one.
// [K4]
fn catalogued(table: Table<'_>, numbering: Numbering, t: u64, s: u64, number: u64) -> u64
    requires { Allowed t s }
    ensures { result ≡ said.catalogued numbering (N t s) number }
{
    match numbering {
        Numbering::Catalogue => number,
        Numbering::FromTop => before(number, table.look(t, s)),
    }
}

// Writes the form of a number by a numbering, where its counts are allowed and have it, and answers its number in the
// catalogue. [K4]
fn formed(
    table: Table<'_>,
    numbering: Numbering,
    t: u64,
    s: u64,
    number: u64,
    out: &mut [u8],
) -> Result<u64, Refusal>
    requires { (most_beats ≤ length out.old) }
    ensures value { result ≡ answer (judge (number_rows t s number)) (number_of t s (form_by numbering t s number)) }
    ensures out_after { out.new ≡ left (judge (number_rows t s number)) (form_by numbering t s number
        ++ drop (t + s) out.old) out.old }
{
    counts::allowed(t, s)?;
    let listed = catalogued(table, numbering, t, s, number);
    let n = (t + s) as usize;
    form::form_by(table, t, s, listed, &mut out[..n])?;
    Ok(listed)
}

// A record that holds the number of its form, by a numbering.
pub fn numbered(
    table: Table<'_>,
    at: usize,
    numbering: Numbering,
    src: &[u8],
    long: u64,
    out: &mut [u8],
) -> Result<Order, Refusal>
    requires { (at ≤ longest) × Whole src.now long out.old }
    ensures value { result ≡ order_by (of.Layout.Numbered at numbering) src.now
        (judge (kind_rows (of.Layout.Numbered at numbering) src.now)) }
    ensures out_after { out.new ≡ left_by (of.Layout.Numbered at numbering) src.now
        (judge (kind_rows (of.Layout.Numbered at numbering) src.now)) out.old }
{
    if long != (at + layout::NUMBER) as u64 {
        return Err(Refusal::WrongSize);
    }
    let from = at + 2;
    let number = little::value(&src[from..from + layout::NUMBER]);
    let (t, s) = sizes(src, at);
    let number = formed(table, numbering, t, s, number, out)?;
    Ok(Order {
        t,
        s,
        number,
        consumed: 2 + long,
    })
}

// Writes the beats that are packed, where no unused bit is set and they are a schedule, and answers its number; the
// room takes them until that is known.
fn spread(
    table: Table<'_>,
    t: u64,
    s: u64,
    packed: &[u8],
    room: &mut [u8],
    out: &mut [u8],
) -> Result<u64, Refusal>
    requires { Allowed t s
        × (length packed.now ≡ bytes_for (t + s)) × (length room.old ≡ t + s) × (length out.old ≡ t + s) }
    ensures value { result ≡ answer (judge (packed_rows t s packed.now))
        (number_of t s (unpacked (t + s) packed.now)) }
    ensures out_after { out.new ≡ left (judge (packed_rows t s packed.now))
        (unpacked (t + s) packed.now) out.old }
{
    if !pack::unpack(packed, room) {
        return Err(Refusal::WrongSize);
    }
    let number = number::number_by(table, t, s, room)?;
    out.copy_from_slice(room);
    Ok(number)
}

// Writes the packed beats of a form, where its counts are allowed and the bytes are as many as they need, and answers
// its number.
fn unpacked(table: Table<'_>, t: u64, s: u64, packed: &[u8], out: &mut [u8]) -> Result<u64, Refusal>
    requires { (most_beats ≤ length out.old) }
    ensures value { result ≡ answer (judge (count_rows t s ++ packed_rows t s packed.now))
        (number_of t s (beats.unpacked (t + s) packed.now)) }
    ensures out_after { out.new ≡ left (judge (count_rows t s
        ++ packed_rows t s packed.now)) (beats.unpacked (t + s) packed.now
        ++ drop (t + s) out.old) out.old }
{
    counts::allowed(t, s)?;
    let n = (t + s) as usize;
    if packed.len() != pack::bytes_for(n) {
        return Err(Refusal::WrongSize);
    }
    let mut room = [0u8; triangle::BEATS];
    spread(table, t, s, packed, &mut room[..n], &mut out[..n])
}

// A record that holds the packed beats.
pub fn beaten(
    table: Table<'_>,
    at: usize,
    src: &[u8],
    long: u64,
    out: &mut [u8],
) -> Result<Order, Refusal>
    requires { (at ≤ longest) × Whole src.now long out.old }
    ensures value { result ≡ order_by (of.Layout.Beaten at) src.now
        (judge (kind_rows (of.Layout.Beaten at) src.now)) }
    ensures out_after { out.new ≡ left_by (of.Layout.Beaten at) src.now
        (judge (kind_rows (of.Layout.Beaten at) src.now)) out.old }
{
    if long < at as u64 {
        return Err(Refusal::WrongSize);
    }
    let end = 2 + long as usize;
    let (t, s) = sizes(src, at);
    let number = unpacked(table, t, s, &src[at + 2..end], out)?;
    Ok(Order {
        t,
        s,
        number,
        consumed: 2 + long,
    })
}
