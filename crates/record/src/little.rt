// Numbers as bytes, the low one first, for writing here and for the crate `reader`. The contracts cite
// specs/Bytes. [P1]
ghost use Rattle.std.specs.Prelude.{◌≡◌, ◌≤◌, length};
ghost use Rattle.record.specs.Bytes.{value_of, low_first};

// The number whose bytes these are.
pub fn value(src: &[u8]) -> u64
    requires { length src.now ≤ 8 }
    ensures { result ≡ value_of src.now }
{
    let mut number: u64 = 0;
    for byte in src.iter().rev() {
        number = number * 256 + u64::from(*byte);
    }
    number
}

// Fills the bytes with those of the number. [P13]
pub fn spell(number: u64, out: &mut [u8])
    ensures { out.new ≡ low_first (length out.old) number }
{
    let mut rest = number;
    for byte in out.iter_mut() {
        *byte = (rest % 256) as u8;
        rest /= 256;
    }
}
