// Bytes copied over the start of others. The contract says what stands there then, and that the rest stays.
#![tactic(auto)]

ghost use Rattle.std.specs.Prelude.{◌≡◌, ◌≤◌, ◌++◌, length, drop};

// Copies all of one list over the start of another, and answers how many bytes that were.
pub fn copy(from: &[u8], to: &mut [u8]) -> usize
    requires { length from.now ≤ length to.old }
    ensures size { result ≡ length from.now }
    ensures text { to.new ≡ from.now ++ drop (length from.now) to.old }
{
    let size = from.len();
    to[..size].copy_from_slice(from);
    size
}
