// The refusals of the schedule of three tables, with what stands beside them, and their order.
use crate::asks;
use crate::tables::Tables;
use std::io;
use triangle::{BEATS, LARGEST, SIDE};

// Tables of these lengths, at most SIDE: those of 1100, and zeros after them.
fn cut(rt: &impl Print, n: u64, lengths: [usize; 3], length: usize) -> io::Result<()> {
    let [l, r, p] = lengths;
    if SIDE < l || SIDE < r || SIDE < p {
        return Ok(());
    }
    let mut left = [0u8; SIDE];
    left[0] = 2;
    let right = [0u8; SIDE];
    let mut parent = [0u8; SIDE];
    parent[1] = 1;
    let tables = Tables {
        left: &left[..l],
        right: &right[..r],
        parent: &parent[..p],
    };
    asks::back(rt, n, tables, length)
}

// Refusal 1, and the tables of no tasks.
pub fn sizes(rt: &impl Print) -> io::Result<()> {
    cut(rt, 0, [0, 0, 0], 0)?;
    cut(rt, LARGEST + 1, [SIDE, SIDE, SIDE], asks::ROOM)?;
    cut(rt, 200, [1, 0, 2], 0)?;
    cut(rt, 256, [0, 0, 0], 0)?;
    cut(rt, 257, [1, 1, 1], 2)?;
    cut(rt, 9223372036854775808, [0, 0, 0], 0)?;
    cut(rt, 18446744073709551615, [1, 1, 1], 2)
}

// Refusal 3 for the schedule.
pub fn lengths(rt: &impl Print) -> io::Result<()> {
    cut(rt, 2, [2, 2, 2], 4)?;
    cut(rt, 2, [2, 2, 2], 3)?;
    cut(rt, 2, [2, 2, 2], 5)?;
    cut(rt, 2, [2, 2, 2], 2)?;
    cut(rt, 2, [2, 2, 2], 0)?;
    cut(rt, 0, [0, 0, 0], 1)?;
    cut(rt, 0, [0, 0, 0], 2)
}

// Refusal 3 for each table.
pub fn table_lengths(rt: &impl Print) -> io::Result<()> {
    cut(rt, 2, [1, 2, 2], 4)?;
    cut(rt, 2, [3, 2, 2], 4)?;
    cut(rt, 2, [2, 1, 2], 4)?;
    cut(rt, 2, [2, 3, 2], 4)?;
    cut(rt, 2, [2, 2, 1], 4)?;
    cut(rt, 2, [2, 2, 3], 4)?;
    cut(rt, 2, [1, 3, 2], 4)?;
    cut(rt, 2, [0, 0, 0], 4)?;
    cut(rt, 0, [1, 0, 0], 0)?;
    cut(rt, 0, [0, 1, 0], 0)?;
    cut(rt, 0, [0, 0, 1], 0)
}

// Refusal 8, and 3 before it.
pub fn first_refusals(rt: &impl Print) -> io::Result<()> {
    cut(rt, 1, [1, 1, 1], 2)?;
    cut(rt, 1, [1, 1, 1], 1)?;
    cut(rt, 3, [3, 3, 3], 6)?;
    cut(rt, 3, [3, 3, 3], 7)?;
    cut(rt, 3, [3, 2, 3], 6)?;
    let most = LARGEST as usize;
    cut(rt, LARGEST, [most, most, most], BEATS)?;
    cut(rt, LARGEST, [most, most, most], BEATS - 1)?;
    cut(rt, LARGEST, [most, most, SIDE], BEATS)
}

// Three tables for N tasks: the left, the right and the parents.
fn ask<const N: usize>(rt: &impl Print, tables: [[u8; N]; 3]) -> io::Result<()> {
    let [left, right, parent] = &tables;
    asks::back(
        rt,
        N as u64,
        Tables {
            left,
            right,
            parent,
        },
        N.saturating_add(N),
    )
}

// Refusal 8: the manual's tables 0, 0, 1, and entries above n.
pub fn entries(rt: &impl Print) -> io::Result<()> {
    ask(rt, [[0], [0], [0]])?;
    ask(rt, [[0], [0], [1]])?;
    ask(rt, [[2], [0], [0]])?;
    ask(rt, [[0], [2], [0]])?;
    ask(rt, [[0], [0], [2]])?;
    ask(rt, [[2, 3], [0, 0], [0, 1]])?;
    ask(rt, [[2, 0], [0, 255], [0, 1]])?;
    ask(rt, [[0, 0], [2, 0], [0, 200]])
}

// Refusal 8: a circle, a node that is its own child, a node with two parents.
pub fn children(rt: &impl Print) -> io::Result<()> {
    ask(rt, [[2, 1], [0, 0], [0, 1]])?;
    ask(rt, [[2, 1], [0, 0], [2, 1]])?;
    ask(rt, [[2, 0], [0, 1], [0, 1]])?;
    ask(rt, [[1], [0], [0]])?;
    ask(rt, [[0], [1], [1]])?;
    ask(rt, [[2, 2], [0, 0], [0, 1]])?;
    ask(rt, [[2, 0], [2, 0], [0, 1]])?;
    ask(rt, [[2, 3, 0], [3, 0, 0], [0, 1, 1]])?;
    ask(rt, [[2, 3, 0], [3, 0, 0], [0, 1, 2]])
}

// Refusal 8: a parent that is not the one, and a parent of the root.
pub fn parents(rt: &impl Print) -> io::Result<()> {
    ask(rt, [[2, 0, 0], [3, 0, 0], [0, 1, 1]])?;
    ask(rt, [[2, 0, 0], [3, 0, 0], [0, 1, 2]])?;
    ask(rt, [[2, 0, 0], [3, 0, 0], [0, 3, 1]])?;
    ask(rt, [[2, 0, 0], [3, 0, 0], [0, 0, 1]])?;
    ask(rt, [[2, 0, 0], [3, 0, 0], [1, 1, 1]])?;
    ask(rt, [[2, 0, 0], [3, 0, 0], [3, 1, 1]])?;
    ask(rt, [[2, 0, 0], [3, 0, 0], [255, 1, 1]])
}

// Refusal 8: trees whose nodes are not numbered in preorder; the last one is.
pub fn orders(rt: &impl Print) -> io::Result<()> {
    ask(rt, [[3, 0, 0], [2, 0, 0], [0, 1, 1]])?;
    ask(rt, [[3, 0, 2], [0, 0, 0], [0, 3, 1]])?;
    ask(rt, [[0, 0, 2], [3, 0, 0], [0, 3, 1]])?;
    ask(rt, [[0, 1], [0, 0], [2, 0]])?;
    ask(rt, [[2, 4, 0, 0], [3, 0, 0, 0], [0, 1, 1, 2]])?;
    ask(rt, [[2, 3, 0, 0], [4, 0, 0, 0], [0, 1, 2, 1]])
}

// Refusal 8: a node that the root does not lead to.
pub fn unreached(rt: &impl Print) -> io::Result<()> {
    ask(rt, [[0, 0], [0, 0], [0, 0]])?;
    ask(rt, [[0, 0], [0, 0], [0, 1]])?;
    ask(rt, [[2, 0, 0], [0, 0, 0], [0, 1, 1]])?;
    ask(rt, [[0, 3, 0], [0, 0, 0], [0, 0, 2]])?;
    ask(rt, [[0, 3, 2], [0, 0, 0], [0, 3, 2]])?;
    ask(rt, [[0, 2, 0], [3, 0, 0], [0, 2, 1]])
}

// Refusal 8: the most nodes, and only 0, the root, the last node or the number past it.
pub fn limits(rt: &impl Print) -> io::Result<()> {
    ask(rt, [[0; LARGEST as usize]; 3])?;
    ask(rt, [[1; LARGEST as usize]; 3])?;
    ask(rt, [[LARGEST as u8; LARGEST as usize]; 3])?;
    ask(rt, [[LARGEST as u8 + 1; LARGEST as usize]; 3])
}
