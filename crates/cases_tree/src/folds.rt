// What many calls answered and left, for the lines that stand for many calls.
use crate::tables::Tables;
use refusal::Refusal;
use std::fmt;
use triangle::{BEATS, LARGEST};

// How many calls of the way back were accepted and how many were refused 8, and the digest of every call's
// verdict and of all bytes that were lent to it, as they are after it.
// Each program has a tally of its own: its methods are that program's calls, which a type of `show` could not have.
#[derive(Clone, Copy, Default)]
pub struct Tally {
    accepted: u64,
    refused: u64,
    sum: u64,
}

// The end of a line.
impl fmt::Display for Tally {
    fn fmt<W: fmt::Write>(&self, f: &mut fmt::Formatter<W>) -> fmt::Result {
        write!(f, "{} {} {}", self.accepted, self.refused, self.sum)
    }
}

impl Tally {
    // The digest of a verdict, three tables and the beats.
    fn fold(&mut self, told: Result<(), Refusal>, tables: Tables, beats: &[u8]) {
        let verdict = show::fold_verdict(self.sum, told);
        let left = show::digest(verdict, tables.left);
        let right = show::digest(left, tables.right);
        self.sum = show::digest(show::digest(right, tables.parent), beats);
    }

    // One call of the way back more.
    fn count(&mut self, told: Result<(), Refusal>) {
        match told {
            Ok(()) => self.accepted = self.accepted.wrapping_add(1),
            Err(Refusal::NoSuchTables) => self.refused = self.refused.wrapping_add(1),
            Err(_) => {}
        }
    }

    // Asks for the schedule of three tables, in 2n bytes that are 7; for n up to LARGEST. Answers whether there is one.
    pub fn back(&mut self, n: u64, tables: Tables) -> bool {
        if LARGEST < n {
            return false;
        }
        let mut out = [7u8; BEATS];
        let out = &mut out[..(n + n) as usize];
        let told = tree_back::schedule_of_tree(n, tables.left, tables.right, tables.parent, out);
        self.fold(told, tables, out);
        self.count(told);
        told.is_ok()
    }

    // Asks for the tables of a schedule, in tables that are 7, and for the schedule of these; for n up to LARGEST.
    pub fn both(&mut self, n: u64, beats: &[u8]) {
        if LARGEST < n {
            return;
        }
        let k = n as usize;
        let mut left = [7u8; LARGEST as usize];
        let mut right = [7u8; LARGEST as usize];
        let mut parent = [7u8; LARGEST as usize];
        let (left, right, parent) = (&mut left[..k], &mut right[..k], &mut parent[..k]);
        let told = tree::tree(n, beats, left, right, parent);
        let tables = Tables {
            left,
            right,
            parent,
        };
        self.fold(told, tables, beats);
        self.back(n, tables);
    }
}
