// The tree table of a closed schedule: the manual, "Tree table". The way back is the crate `tree_back`. The
// contracts of the public functions cite specs/Table; proofs/Theorems says that a schedule has one tree. [P1]
#![tactic(auto)]

ghost use Rattle.std.specs.Prelude.{◌≡◌, ◌+◌, ◌≤◌, ◌<◌, length, set};
ghost use Rattle.refusal.specs.Rows.{judge};
ghost use Rattle.triangle.specs.Count.{largest};
ghost use Rattle.schedule.specs.Schedule.{Schedule};
ghost use Rattle.tree.specs.Table.{Has, fits, size_rows, Treed};
ghost use Rattle.tree.specs.Planting.{adopted};

use refusal::Refusal;
use stack::Stack;

pub mod stack;

// Makes the node the parent of a child; 0 is a leaf, and has none.
fn adopt(parent: &mut [u8], child: u8, node: u8)
    requires { child ≤ length parent.old }
    ensures { parent.new ≡ adopted child node parent.old }
{
    if child != 0 {
        parent[child as usize - 1] = node;
    }
}

// Writes the row of a node with its two children, and makes it their parent; its own is not known yet. The three
// tables stay three parameters: a caller of `tree` lends them one by one, and a struct of them would be made for two
// calls alone.
fn plant(left: &mut [u8], right: &mut [u8], parent: &mut [u8], row: usize, first: u8, second: u8)
    requires { (row < length left.old) × (row < length right.old) × (row < length parent.old)
        × (row < largest) × (first ≤ length parent.old) × (second ≤ length parent.old) }
    ensures { (left.new ≡ set left.old row first)
        × (right.new ≡ set right.old row second)
        × (parent.new ≡ adopted second (row + 1)
        (adopted first (row + 1) (set parent.old row 0))) }
{
    let node = row as u8 + 1;
    left[row] = first;
    right[row] = second;
    parent[row] = 0;
    adopt(parent, first, node);
    adopt(parent, second, node);
}

// Fills the tables of a closed schedule, from its last beat to its first. The stack has the roots of the
// trees after the beat, the nearest on top; at first the one leaf that the schedule leaves out.
fn fill(beats: &[u8], left: &mut [u8], right: &mut [u8], parent: &mut [u8])
    requires { (length left.old ≤ largest) × (length right.old ≡ length left.old)
        × (length parent.old ≡ length left.old) × Schedule (length left.old) (length left.old) beats.now }
    ensures { Has (length left.old) beats.now left.new right.new
        parent.new }
{
    let mut places = [0u8; triangle::SIDE];
    let mut stack = Stack::over(&mut places);
    stack.push(0);
    let mut row = left.len();
    for beat in beats.iter().rev() {
        if *beat == 0 {
            stack.push(0);
        } else {
            row -= 1;
            let first = stack.pop().unwrap();
            let second = stack.pop().unwrap();
            plant(left, right, parent, row, first, second);
            stack.push(row as u8 + 1);
        }
    }
}

// Whether a schedule and three tables, by their lengths, are those of n nodes.
fn fit(n: usize, beats: usize, left: usize, right: usize, parent: usize) -> bool
    requires { n ≤ largest }
    ensures { result ≡ fits n beats left right parent }
{
    beats == n + n && left == n && right == n && parent == n
}

// The refusals by size, of both ways: 1, then 3. [P13]
pub fn sized(n: u64, beats: usize, left: usize, right: usize, parent: usize) -> Result<(), Refusal>
    ensures { result ≡ judge (size_rows n beats left right parent) }
{
    if triangle::LARGEST < n {
        return Err(Refusal::TooManyTasks);
    }
    if fit(n as usize, beats, left, right, parent) {
        Ok(())
    } else {
        Err(Refusal::WrongLength)
    }
}

// Fills the tables of the tree of a closed schedule of n tasks. Refuses 1, 3, then 4 over all beats, 5, 6; a
// refusal changes nothing. [W5] [T4] [D1a]
pub fn tree(
    n: u64,
    beats: &[u8],
    left: &mut [u8],
    right: &mut [u8],
    parent: &mut [u8],
) -> Result<(), Refusal>
    ensures { Treed n beats.now left.old right.old parent.old result
        left.new right.new parent.new }
{
    sized(n, beats.len(), left.len(), right.len(), parent.len())?;
    schedule::check(n, n, beats)?;
    fill(beats, left, right, parent);
    Ok(())
}
