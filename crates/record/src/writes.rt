// Writing a record of each layout that is written. The contracts cite specs/Record. The counts of every kind stand at
// byte 4, right after L and the kind, and so nothing else is to be written before them.
ghost use Rattle.std.specs.Prelude.{◌∷◌, ◌++◌, ◌≡◌, ◌≤◌, ◌<◌, length, drop};
ghost use Rattle.record.specs.declared.layout.Layout as of;
ghost use Rattle.record.specs.declared.layout.Numbering as by;
ghost use Rattle.record.specs.Bytes.{low_first};
ghost use Rattle.record.specs.Record.{record_in, known_answer, known_left};

use crate::{layout, little, pack};
use refusal::Refusal;

// The two bytes of L, the two of the kind, and the counts.
fn head(long: u64, kind: u64, at: usize, t: u64, s: u64, out: &mut [u8])
    requires { (at ≡ 4) × (6 ≤ length out.old) × (t < 256) × (s < 256) }
    ensures { out.new ≡ low_first 2 long ++ (low_first 2 kind ++ (t ∷ (s ∷ drop 6 out.old))) }
{
    out[0] = (long % 256) as u8;
    out[1] = (long / 256 % 256) as u8;
    out[2] = (kind % 256) as u8;
    out[3] = (kind / 256 % 256) as u8;
    out[at] = t as u8;
    out[at + 1] = s as u8;
}

// A record that holds the number of the form in the catalogue. [K3]
pub fn numbered(
    kind: u64,
    at: usize,
    t: u64,
    s: u64,
    beats: &[u8],
    out: &mut [u8],
) -> Result<u64, Refusal>
    requires { at ≡ 4 }
    ensures value { result ≡ known_answer t s beats.now
        (record_in (of.Layout.Numbered at by.Numbering.Catalogue) kind t s beats.now) out.old }
    ensures out_after { out.new ≡ known_left t s beats.now
        (record_in (of.Layout.Numbered at by.Numbering.Catalogue) kind t s beats.now) out.old }
{
    let number = number::number(t, s, beats)?;
    let from = at + 2;
    let end = from + layout::NUMBER;
    if out.len() < end {
        return Err(Refusal::NoRoom);
    }
    head(end as u64 - 2, kind, at, t, s, out);
    little::spell(number, &mut out[from..end]);
    Ok(end as u64)
}

// A record that holds the packed beats.
pub fn beaten(
    kind: u64,
    at: usize,
    t: u64,
    s: u64,
    beats: &[u8],
    out: &mut [u8],
) -> Result<u64, Refusal>
    requires { at ≡ 4 }
    ensures value { result ≡ known_answer t s beats.now
        (record_in (of.Layout.Beaten at) kind t s beats.now) out.old }
    ensures out_after { out.new ≡ known_left t s beats.now
        (record_in (of.Layout.Beaten at) kind t s beats.now) out.old }
{
    schedule::check(t, s, beats)?;
    let from = at + 2;
    let past = from + pack::bytes_for(beats.len());
    if out.len() < past {
        return Err(Refusal::NoRoom);
    }
    head(past as u64 - 2, kind, at, t, s, out);
    pack::pack(beats, &mut out[from..past]);
    Ok(past as u64)
}
