// One call of either way, printed with its input. The bytes that are lent to be filled are 7 before the call,
// and the line has them as they are after it.
use crate::tables::Tables;
use show::{Beats, Verdict};
use std::io;
use triangle::{BEATS, LARGEST, SIDE};

// The most bytes that are lent for a schedule: two more than the longest takes.
pub const ROOM: usize = BEATS + 2;

// The tables of a schedule, in three lent ones.
fn print_tree(
    rt: &impl Print,
    n: u64,
    beats: &[u8],
    left: &mut [u8],
    right: &mut [u8],
    parent: &mut [u8],
) -> io::Result<()> {
    let told = Verdict(tree::tree(n, beats, left, right, parent));
    let (l, r, p) = (left.len(), right.len(), parent.len());
    let tables = Tables {
        left,
        right,
        parent,
    };
    println!(rt; "tree {n} {} {l} {r} {p}: {told} {tables}", Beats(beats))
}

// The tables of a schedule, in tables of so many bytes, each at most SIDE.
pub fn tree(rt: &impl Print, n: u64, beats: &[u8], lengths: [usize; 3]) -> io::Result<()> {
    let [l, r, p] = lengths;
    let mut left = [7u8; SIDE];
    let mut right = [7u8; SIDE];
    let mut parent = [7u8; SIDE];
    let Some(left) = left.get_mut(..l) else {
        return Ok(());
    };
    let Some(right) = right.get_mut(..r) else {
        return Ok(());
    };
    let Some(parent) = parent.get_mut(..p) else {
        return Ok(());
    };
    print_tree(rt, n, beats, left, right, parent)
}

// The schedule of three tables, in so many bytes, at most ROOM.
pub fn back(rt: &impl Print, n: u64, tables: Tables, length: usize) -> io::Result<()> {
    let mut out = [7u8; ROOM];
    let Some(out) = out.get_mut(..length) else {
        return Ok(());
    };
    let Tables {
        left,
        right,
        parent,
    } = tables;
    let told = Verdict(tree_back::schedule_of_tree(n, left, right, parent, out));
    println!(rt; "back {n} {tables} {length}: {told} {}", Beats(out))
}

// The tables of a schedule, and the schedule of the tables that it got.
pub fn both(rt: &impl Print, n: u64, beats: &[u8]) -> io::Result<()> {
    if LARGEST < n {
        return Ok(());
    }
    let k = n as usize;
    let mut left = [7u8; LARGEST as usize];
    let mut right = [7u8; LARGEST as usize];
    let mut parent = [7u8; LARGEST as usize];
    let (left, right, parent) = (&mut left[..k], &mut right[..k], &mut parent[..k]);
    print_tree(rt, n, beats, left, right, parent)?;
    back(
        rt,
        n,
        Tables {
            left,
            right,
            parent,
        },
        beats.len(),
    )
}
