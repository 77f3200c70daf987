// The counts N(t, s) of the manual, "How many forms" (Table 1 of source 000, the Catalan triangle):
// the table that holds them, and its look-up. A crate of its own, since its check takes long. The
// contracts cite specs/Count. [P1]
#![tactic(auto)]

ghost use Rattle.std.specs.Prelude.{◌≡◌, ◌≤◌};
ghost use Rattle.triangle.specs.Count.{N, largest, counted};
ghost use Rattle.triangle.specs.Table.{table};

mod table;

// The largest number of tasks that a schedule takes up.
pub const LARGEST: u64 = table::LARGEST;

// The rows of the table, and the counts of a row: one for each number of tasks.
pub const SIDE: usize = LARGEST as usize + 1;

// The beats of the longest schedule.
pub const BEATS: usize = 2 * LARGEST as usize;

// The table of counts, a row for each t, for a program that makes it once and lends it on.
pub fn rows() -> [[u64; SIDE]; SIDE]
    ensures { result ≡ table }
{
    table::rows()
}

// How many forms take up t tasks and set down s: N(t, s), and 0 for t above LARGEST. [N7] [P13]
pub fn forms(t: u64, s: u64) -> u64
    ensures { result ≡ counted t s }
{
    table::entry(t, s)
}

// The same of allowed counts, which it does not test. [P13]
pub fn inside(t: u64, s: u64) -> u64
    requires { (t ≤ largest) × (s ≤ t) }
    ensures { result ≡ N t s }
{
    table::inside(t, s)
}
