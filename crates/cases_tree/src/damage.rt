// The way back of tables for the most tasks in which one entry is changed: each entry of the tables of a
// schedule, to each of seven values. A line for each schedule, which first goes there and back unchanged.
use crate::asks;
use crate::folds::Tally;
use crate::tables::Tables;
use show::Beats;
use std::io;
use triangle::{BEATS, LARGEST};

// The nodes, one for each task, and so the entries of a table.
const NODES: usize = LARGEST as usize;

// The number past the last node.
const PAST: u8 = LARGEST as u8 + 1;

// The values for the entry of a node: none, the next and the last number, the node itself, one from the other
// end, the number past the last node, and the largest byte.
fn others(entry: u8, node: u8) -> [u8; 7] {
    [
        0,
        entry.wrapping_add(1),
        entry.wrapping_sub(1),
        node,
        PAST.wrapping_sub(node),
        PAST,
        255,
    ]
}

// Asks with the entry at a place of one of the tables, the left, the right and the parents, as each other value,
// and then puts it back; a value that is the entry is no change.
fn ask(tally: &mut Tally, tables: &mut [[u8; NODES]; 3], table: usize, at: usize) {
    if 3 <= table || NODES <= at {
        return;
    }
    let old = tables[table][at];
    for new in others(old, at as u8 + 1) {
        if new != old {
            tables[table][at] = new;
            let [left, right, parent] = &*tables;
            tally.back(
                LARGEST,
                Tables {
                    left,
                    right,
                    parent,
                },
            );
        }
    }
    tables[table][at] = old;
}

// Of every entry of every table.
fn ask_all(tables: &mut [[u8; NODES]; 3]) -> Tally {
    let mut tally = Tally::default();
    for place in 0..3 * NODES {
        ask(&mut tally, tables, place / NODES, place % NODES);
    }
    tally
}

// A schedule there and back, and with its tables damaged.
fn print_form(rt: &impl Print, beats: &[u8]) -> io::Result<()> {
    asks::both(rt, LARGEST, beats)?;
    let mut left = [7u8; NODES];
    let mut right = [7u8; NODES];
    let mut parent = [7u8; NODES];
    // `both` has printed what it answers.
    let _ = tree::tree(LARGEST, beats, &mut left, &mut right, &mut parent);
    let tally = ask_all(&mut [left, right, parent]);
    println!(rt; "damage {}: {tally}", Beats(beats))
}

// Ones and zeros in turn. An own one, as in two other programs: in `show` it would be public, with a definition,
// a contract and wrong programs, for five lines.
fn alternate(beats: &mut [u8]) {
    for (at, beat) in beats.iter_mut().enumerate() {
        *beat = u8::from(at % 2 == 0);
    }
}

// Ten forms whose numbers are the multiples of a large odd number modulo 2^64, which are scattered. Not one with
// that of `cases_outline`: another call is asked of each, and `show`, which both use, makes no forms.
fn print_scattered(rt: &impl Print, forms: u64) -> io::Result<()> {
    if forms == 0 {
        return Ok(());
    }
    let mut beats = [7u8; BEATS];
    let mut seed = 0u64;
    for _ in 0..10 {
        seed = seed.wrapping_add(11400714819323198485);
        if form::form(LARGEST, LARGEST, seed % forms, &mut beats).is_ok() {
            print_form(rt, &beats)?;
        }
    }
    Ok(())
}

// The path along left children, the one along right ones, and scattered forms.
pub fn print_forms(rt: &impl Print) -> io::Result<()> {
    let mut beats = [0u8; BEATS];
    show::raise(&mut beats, NODES);
    print_form(rt, &beats)?;
    alternate(&mut beats);
    print_form(rt, &beats)?;
    print_scattered(rt, refusal::value(counts::count(LARGEST, LARGEST)))
}
