// Order records, read: the manual, "Order record", by the layout of their kind. The contracts cite specs/Answers,
// which says what reading answers and leaves by the definitions of `record`; proofs/Theorems says that what was
// written is read back, and that what is read is written again byte for byte. [P1]
#![tactic(auto)]

ghost use Rattle.std.specs.Prelude.{false, ◌≡◌, ◌≤◌, length};
ghost use Rattle.refusal.specs.Rows.{judge};
ghost use Rattle.triangle.specs.Count.{most_beats};
ghost use Rattle.record.specs.Record.{ups, cut};
ghost use Rattle.reader.specs.Answers.{first_rows, read_answer, read_left, read_order};

use lookup::Table;
use record::layout::Layout;
use record::{Order, Unread, layout};
use refusal::Refusal;
use schedule::wide;

mod reads;

pub use reads::LONGEST;

// Reads the record that a slice starts with, and writes its schedule into the first t+s places of the lent
// slice, leaving the others. Refuses 12, 9, 11 (L below 2), 10, 11 (L wrong for the kind), 1, 2, then 7, or 11
// (kind 2's exact L and unused bits), 5, 6; a refusal changes nothing. Kind 1 holds a number that counts from t ones
// then s zeros, and is refused 7 by that number; the number answered is the catalogue's for every kind. [W2] [D1a] [B2]
// [K4]
pub fn read(src: &[u8], out: &mut [u8]) -> Result<Order, Unread>
    ensures value { result ≡ read_answer src.now out.old }
    ensures out_after { out.new ≡ read_left src.now out.old }
{
    read_by(Table::none(), src, out)
}

// The ones that the record asks for that a slice starts with, which has its kind: t, as the layout of the kind says
// where it stands. [X11]
pub fn asked(src: &[u8]) -> u64
    requires { 4 ≤ length src.now }
    ensures value { result ≡ ups src.now }
    ensures upper_bound { result ≤ 255 }
{
    let layout = layout::of_kind(reads::kind(src));
    let at = layout.counts_at();
    if at < src.len() { wide(src[at]) } else { 0 }
}

// Whether there is room for any schedule, and the slice has its whole record. Refuses 12, then 9.
fn fits(src: &[u8], out: &[u8]) -> Result<(), Refusal>
    ensures { result ≡ judge (first_rows (length out.now) src.now) }
{
    if out.len() < triangle::BEATS {
        return Err(Refusal::NoRoom);
    }
    if reads::is_cut(src) {
        return Err(Refusal::CutShort);
    }
    Ok(())
}

// Reads a whole record, by the layout of its kind. Refuses 11 (L below 2), 10, and then as the layout does.
fn read_whole(table: Table<'_>, src: &[u8], out: &mut [u8]) -> Result<Order, Refusal>
    requires { (cut src.now ≡ false) × (most_beats ≤ length out.old) }
    ensures value { result ≡ read_order src.now out.old }
    ensures out_after { out.new ≡ read_left src.now out.old }
{
    let long = reads::long(src);
    if long < 2 {
        return Err(Refusal::WrongSize);
    }
    match layout::of_kind(reads::kind(src)) {
        Layout::Numbered(at, numbering) => reads::numbered(table, at, numbering, src, long, out),
        Layout::Beaten(at) => reads::beaten(table, at, src, long, out),
        Layout::Unknown => Err(Refusal::UnknownKind),
    }
}

// The same as read, by rows of the table that the caller keeps from call to call. [P13]
pub fn read_by(table: Table<'_>, src: &[u8], out: &mut [u8]) -> Result<Order, Unread>
    ensures value { result ≡ read_answer src.now out.old }
    ensures out_after { out.new ≡ read_left src.now out.old }
{
    fits(src, out).map_err(|why| Unread { why, consumed: 0 })?;
    let consumed = 2 + reads::long(src);
    read_whole(table, src, out).map_err(|why| Unread { why, consumed })
}
