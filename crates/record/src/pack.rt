// Beats eight to a byte, the first in the highest bit, for writing here and for the crate `reader`. The
// contracts cite specs/Bytes. [P1]
ghost use Rattle.std.specs.Prelude.{◌≡◌, ℕ, ◌≤◌, ◌<◌, ◌*◌, eqb, length, get_or, drop};
ghost use Rattle.record.specs.Bytes.{spell, bytes_for, packed, unpacked, unused, turned};

// The whole bytes that n beats need.
pub fn bytes_for(n: usize) -> usize
    requires { n ≤ 1000 }
    ensures { result ≡ bytes_for n }
{
    n.div_ceil(8)
}

// The beat at an index, and 0 where there is none.
fn beat(beats: &[u8], at: usize) -> u8
    ensures { result ≡ get_or beats.now at 0 }
{
    beats.get(at).copied().unwrap_or(0)
}

// The byte of the eight beats from `from` on; a beat that is not there is 0.
fn octet(beats: &[u8], from: usize) -> u8
    requires { (from ≤ 1000) × ((i : ℕ) → get_or beats.now i 0 ≤ 1) }
    ensures { result ≡ spell 8 (drop from beats.now) }
{
    let mut byte: u8 = 0;
    for at in 0..8 {
        byte = byte * 2 + beat(beats, from + at);
    }
    byte
}

// Fills the bytes with the beats packed.
pub fn pack(beats: &[u8], out: &mut [u8])
    requires { (length beats.now ≤ 1000) × ((i : ℕ) → get_or beats.now i 0 ≤ 1)
        × (length out.old ≡ bytes_for (length beats.now)) }
    ensures { out.new ≡ packed beats.now }
{
    for (at, byte) in out.iter_mut().enumerate() {
        *byte = octet(beats, 8 * at);
    }
}

// The byte whose highest bit comes next: at every eighth beat another of the packed ones.
fn current(src: &[u8], at: usize, byte: u8) -> u8
    requires { at < 8 * length src.now }
    ensures { result ≡ turned src.now at byte }
{
    if at % 8 == 0 { src[at / 8] } else { byte }
}

// Writes the beats that are packed in the bytes, as many as there is room for, and answers whether the bits
// left over are 0. [P13]
pub fn unpack(src: &[u8], out: &mut [u8]) -> bool
    requires { length src.now ≡ bytes_for (length out.old) }
    ensures value { result ≡ eqb (unused (length out.old) src.now) 0 }
    ensures out_after { out.new ≡ unpacked (length out.old) src.now }
{
    let mut byte: u8 = 0;
    for (at, beat) in out.iter_mut().enumerate() {
        let from = current(src, at, byte);
        *beat = from / 128;
        byte = from % 128 * 2;
    }
    byte == 0
}
