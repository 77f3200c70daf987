// The way back of every three tables for 1 and for 2 tasks whose entries are 0, 1, 2, 3 or 255. A line for
// each combination that is accepted, and one for all of them.
use crate::asks;
use crate::folds::Tally;
use crate::tables::Tables;
use std::io;

const ENTRIES: [u8; 5] = [0, 1, 2, 3, 255];

// Entries by the digits of a number to the base 5, the lowest first. Answers what is left of the number.
fn spell(word: u64, table: &mut [u8]) -> u64 {
    let mut rest = word;
    for entry in table {
        *entry = ENTRIES[(rest % 5) as usize];
        rest /= 5;
    }
    rest
}

// Spells a number in three tables, the left one first and that of the parents last, and asks for their schedule.
fn ask<const N: usize>(
    rt: &impl Print,
    tally: &mut Tally,
    tables: &mut [[u8; N]; 3],
    word: u64,
) -> io::Result<()> {
    let mut rest = word;
    for table in tables.iter_mut() {
        rest = spell(rest, table);
    }
    let [left, right, parent] = &*tables;
    let tables = Tables {
        left,
        right,
        parent,
    };
    if tally.back(N as u64, tables) {
        asks::back(rt, N as u64, tables, N.saturating_add(N))?;
    }
    Ok(())
}

// The tables of all numbers below `words`, in three lent ones.
fn print_words<const N: usize>(
    rt: &impl Print,
    mut tables: [[u8; N]; 3],
    words: u64,
) -> io::Result<()> {
    let mut tally = Tally::default();
    for word in 0..words {
        ask(rt, &mut tally, &mut tables, word)?;
    }
    println!(rt; "combinations {N}: {tally}")
}

pub fn print_all(rt: &impl Print) -> io::Result<()> {
    print_words(rt, [[0; 1]; 3], 125)?;
    print_words(rt, [[0; 2]; 3], 15625)
}
