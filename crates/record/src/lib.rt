// Order records, written: the manual, "Order record". How each kind is laid out is in layout, and what reading a
// record answers in reading; the crate `reader` reads, by layout, little and pack. The contracts cite specs/Record,
// which says what a record means to its reader too. [P1]
#![tactic(auto)]

ghost use Rattle.std.specs.Prelude.{◌≡◌};
ghost use Rattle.record.specs.Record.{write_answer, write_left};

use layout::{Layout, Numbering};
use refusal::Refusal;

pub mod layout;
pub mod little;
pub mod pack;
pub mod reading;
mod writes;

pub use reading::{Order, Reading, Unread};

// Writes the record of a schedule into the first 2+L bytes lent, leaving the others, and answers 2+L. Refuses
// 10, 1, 2, 3, 4, 5, 6, then 12; a refusal changes nothing. Kinds 2 and 3 are written; kind 1, which holds numbers
// that count from t ones then s zeros, is only read, and is refused 10. [D1a] [W2] [B2] [K3]
pub fn write(kind: u64, t: u64, s: u64, beats: &[u8], out: &mut [u8]) -> Result<u64, Refusal>
    ensures value { result ≡ write_answer kind t s beats.now out.old }
    ensures out_after { out.new ≡ write_left kind t s beats.now out.old }
{
    let layout = layout::of_kind(kind);
    match layout {
        Layout::Numbered(at, numbering) => match numbering {
            Numbering::Catalogue => writes::numbered(kind, at, t, s, beats, out),
            Numbering::FromTop => Err(Refusal::UnknownKind),
        },
        Layout::Beaten(at) => writes::beaten(kind, at, t, s, beats, out),
        Layout::Unknown => Err(Refusal::UnknownKind),
    }
}
