// What many calls answered and left, for the lines that stand for many calls.
use crate::asks;
use crate::asks::ROOM;
use refusal::Refusal;
use std::fmt;
use triangle::{BEATS, LARGEST};

// How many calls of the way back were accepted and how many were refused 15, and the digest of every call's verdict
// and of the bytes that were lent to it, as they are after it.
// Each program has a tally of its own: its methods are that program's calls, which a type of `show` could not have.
#[derive(Clone, Copy, Default)]
pub struct Tally {
    accepted: u64,
    refused: u64,
    sum: u64,
}

// The end of a line.
impl fmt::Display for Tally {
    fn fmt<W: fmt::Write>(&self, f: &mut fmt::Formatter<W>) -> fmt::Result {
        write!(f, "{} {} {}", self.accepted, self.refused, self.sum)
    }
}

impl Tally {
    // One call of the way back more.
    fn count(&mut self, told: Result<(), Refusal>) {
        match told {
            Ok(()) => self.accepted = self.accepted.wrapping_add(1),
            Err(Refusal::NoSuchOutline(_)) => self.refused = self.refused.wrapping_add(1),
            Err(_) => {}
        }
    }

    // Asks for the schedule of a text, in 2n bytes that are 7; for n up to LARGEST.
    pub fn read(&mut self, n: u64, text: &[u8]) {
        if LARGEST < n {
            return;
        }
        let mut out = [7u8; BEATS];
        let out = &mut out[..(n + n) as usize];
        let told = outline_back::schedule_of_outline(n, text, out);
        let sum = show::digest(show::fold_verdict(self.sum, told), text);
        self.sum = show::digest(sum, out);
        self.count(told);
    }

    // What is answered and left where so many bytes, at most ROOM, are lent for the text.
    fn write(&mut self, n: u64, beats: &[u8], room: usize) {
        let mut text = [b'#'; ROOM];
        let Some(text) = text.get_mut(..room) else {
            return;
        };
        let told = outline::outline(n, n, beats, text);
        let sum = show::fold_verdict(self.sum, told.map(|_| ()));
        self.sum = show::digest(show::fold(sum, refusal::value(told)), text);
    }

    // Asks for the text of a schedule, in one byte more than it takes, in as many and in one less, and for the
    // schedule of the text.
    pub fn both(&mut self, n: u64, beats: &[u8]) {
        let mut room = [b'#'; ROOM];
        let Some(text) = asks::written(n, beats, &mut room) else {
            return;
        };
        self.write(n, beats, text.len() + 1);
        self.write(n, beats, text.len());
        if let Some(less) = text.len().checked_sub(1) {
            self.write(n, beats, less);
        }
        self.read(n, text);
    }
}
