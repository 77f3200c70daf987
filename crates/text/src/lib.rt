// The text that any line is made of: a byte, a number and an integer in decimal, each written where it is to stand,
// with no copy. The contracts cite specs/Decimal and specs/Written; proofs/Theorems says what a decimal is. The lent
// bytes and the index stay two parameters, here and in the crates of lines: a struct of both was tried and proves, but
// each of twelve contracts then says besides that the struct still holds the bytes that were lent, no plainer. Nor are
// numbers written by `write!`: it may fail, and as every caller has proved that there is room, each call would have an
// error that never comes. [P1]
#![tactic(auto)]

ghost use Rattle.std.specs.Prelude.{[], ◌∷◌, ◌++◌, ◌≡◌, ◌+◌, ◌≤◌, ◌<◌, nat_abs, length};
ghost use Rattle.text.specs.Decimal.{decimal as Decimal·decimal};
ghost use Rattle.text.specs.Decimal.{signed as Decimal·signed};
ghost use Rattle.text.specs.Written.{Written};

// Writes one byte, and answers the index after it.
pub fn put(byte: u8, out: &mut [u8], at: usize) -> usize
    requires { at < length out.old }
    ensures { Written at (byte ∷ []) out.old out.new result }
{
    out[at] = byte;
    at + 1
}

// How many digits n has. 10^19 is the largest power of ten below 2^64, so the count ends with 20.
// The logarithm of the library, `n.max(1).ilog10()`, and a `for` from the last place back in `numeral` were tried and
// prove; `gv_outline` then takes a fifth more instructions, and misses its goal at (8,8) and above (bench/RESULTS.md).
fn width(n: u64) -> usize
    ensures { result ≡ length (Decimal·decimal n) }
{
    let mut digits: usize = 1;
    let mut power: u64 = 10;
    while power <= n {
        if digits == 19 {
            return 20;
        }
        power *= 10;
        digits += 1;
    }
    digits
}

// Writes n in decimal where its digits have room, from its last digit to its first, and answers the index after it.
pub fn numeral(n: u64, out: &mut [u8], at: usize) -> usize
    requires { at + length (Decimal·decimal n) ≤ length out.old }
    ensures { Written at (Decimal·decimal n) out.old out.new result }
{
    let end = at + width(n);
    let mut last = end - 1;
    let mut rest = n;
    while 10 <= rest {
        out[last] = b'0' + (rest % 10) as u8;
        rest /= 10;
        last -= 1;
    }
    out[last] = b'0' + rest as u8;
    end
}

// Writes n in decimal where any number has room, and answers the index after it.
pub fn decimal(n: u64, out: &mut [u8], at: usize) -> usize
    requires { at + 20 ≤ length out.old }
    ensures written { Written at (Decimal·decimal n) out.old out.new result }
    ensures upper_bound { result ≤ at + 20 }
{
    numeral(n, out, at)
}

// Writes n in decimal and a space after it, and answers the index after both.
pub fn field(n: u64, out: &mut [u8], at: usize) -> usize
    requires { at + 21 ≤ length out.old }
    ensures written { Written at (Decimal·decimal n ++ 32 ∷ []) out.old out.new result }
    ensures upper_bound { result ≤ at + 21 }
{
    let end = decimal(n, out, at);
    put(b' ', out, end)
}

// How far n is from 0, which fits its type for the least one too. [Q6]
pub fn magnitude(n: i32) -> u64
    ensures { result ≡ nat_abs n }
{
    u64::from(n.unsigned_abs())
}

// Writes n in decimal, after a - where it is below 0, and answers the index after it. [Q6]
pub fn signed(n: i32, out: &mut [u8], at: usize) -> usize
    requires { at + 21 ≤ length out.old }
    ensures { Written at (Decimal·signed n) out.old out.new result }
{
    if n < 0 {
        let digits = put(b'-', out, at);
        return decimal(magnitude(n), out, digits);
    }
    decimal(magnitude(n), out, at)
}
