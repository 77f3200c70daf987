// The way back from the tree tables of a closed schedule: the manual, "Tree table". The contract of the public
// function cites specs/Back; proofs/Theorems says that this way and that of the crate `tree` undo each other. [P1]
#![tactic(auto)]

ghost use Rattle.std.specs.Prelude.{◌≡◌, ◌+◌, ◌≤◌, length, Ok};
ghost use Rattle.refusal.specs.Rows.{judge};
ghost use Rattle.triangle.specs.Count.{largest};
ghost use Rattle.tree.specs.Table.{lent_rows};
ghost use Rattle.tree_back.specs.Back.{Untreed};
ghost use Rattle.tree_back.specs.Tracing.{root_number, is_next, Traced};

use refusal::Refusal;
use tree::stack::Stack;

// The root of a tree of n nodes, 0 where there is none.
fn root(n: usize) -> u8
    ensures { result ≡ root_number n }
{
    if n == 0 { 0 } else { 1 }
}

// Whether a child is the node of that row, the next in preorder, and the node it hangs on is its parent.
fn next(parent: &[u8], row: usize, child: u8, own: u8) -> bool
    ensures { result ≡ is_next parent.now row child own }
{
    row < parent.len() && child as usize == row + 1 && parent[row] == own
}

// Reads the tables in preorder from the root on, and writes a 1 for each node and a 0 for each leaf but the
// last. The stack has the nodes whose right children are still to come. Answers whether the tables are those
// of the beats written. The three tables stay three parameters, as in the crate `tree`.
fn trace(left: &[u8], right: &[u8], parent: &[u8], beats: &mut [u8]) -> bool
    requires { (length left.now ≤ largest) × (length right.now ≡ length left.now)
        × (length parent.now ≡ length left.now) × (length beats.old
        ≡ length left.now + length left.now) }
    ensures { Traced (length left.now) left.now right.now
        parent.now beats.new result }
{
    let mut places = [0u8; triangle::SIDE];
    let mut stack = Stack::over(&mut places);
    let mut row: usize = 0;
    let mut own: u8 = 0;
    let mut child = root(left.len());
    for beat in beats.iter_mut() {
        if child == 0 {
            let Some(node) = stack.pop() else {
                return false;
            };
            *beat = 0;
            own = node;
            child = right[own as usize - 1];
        } else {
            if !next(parent, row, child, own) {
                return false;
            }
            *beat = 1;
            stack.push(child);
            own = child;
            child = left[row];
            row += 1;
        }
    }
    child == 0
}

// The way back for sizes that fit; the room is as long as the schedule, and takes it until the tables are
// known to have one.
fn rebuild(
    left: &[u8],
    right: &[u8],
    parent: &[u8],
    room: &mut [u8],
    out: &mut [u8],
) -> Result<(), Refusal>
    requires { (judge (lent_rows (length left.now) out.old left.now right.now parent.now)
        ≡ Ok tt) × (length room.old ≡ length out.old) }
    ensures { Untreed (length left.now) left.now right.now
        parent.now out.old result out.new }
{
    if trace(left, right, parent, room) {
        copying::copy(room, out);
        Ok(())
    } else {
        Err(Refusal::NoSuchTables)
    }
}

// Writes the schedule of 2n beats that has these tables. Refuses 1, 3, then 8, exactly if no schedule has
// them; a refusal changes nothing. [W5] [T3] [D1a]
pub fn schedule_of_tree(
    n: u64,
    left: &[u8],
    right: &[u8],
    parent: &[u8],
    out: &mut [u8],
) -> Result<(), Refusal>
    ensures { Untreed n left.now right.now parent.now out.old result
        out.new }
{
    tree::sized(n, out.len(), left.len(), right.len(), parent.len())?;
    let long = out.len();
    let mut room = [0u8; triangle::BEATS];
    rebuild(left, right, parent, &mut room[..long], out)
}
