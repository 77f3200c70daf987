// Writes the outlines of closed schedules and reads them back: the manual, "The outline". All schedules of the small
// counts and some of the largest go there and back, in as much room as they need and in less; texts that differ a
// little from an outline's are read; and both ways are asked on both sides of every refusal. The file stdout says what
// it must print; each line of it is worked out again by host/oracle.py, without this code. [H4] [H6] [H7] [H8] [H10]
// [H11] [H12] [H13] [H16]
#![tactic(auto)]

mod asks;
mod built;
mod edits;
mod folds;
mod longest;
mod reads;
mod rows;
mod ways;
mod writes;

use std::io;

fn print_sizes(rt: &impl Print) -> io::Result<()> {
    ways::print_full(rt, 4)?;
    ways::print_sizes(rt, "outlines", 9, |tally, n, beats| tally.both(n, beats))?;
    ways::print_sizes(rt, "outline_bytes", 5, edits::each)?;
    ways::print_sizes(rt, "outline_rows", 5, rows::each)?;
    longest::print_forms(rt)
}

fn print_writes(rt: &impl Print) -> io::Result<()> {
    writes::sizes(rt)?;
    writes::lengths(rt)?;
    writes::beats(rt)?;
    writes::open_ones(rt)?;
    writes::rooms(rt)?;
    writes::other_rooms(rt)?;
    writes::first_counts(rt)?;
    writes::first_lengths(rt)?;
    writes::first_beats(rt)?;
    writes::first_open_ones(rt)?;
    writes::limits(rt)
}

fn main(rt: HostRuntime) -> io::Result<()> {
    let rt = &rt;
    print_sizes(rt)?;
    print_writes(rt)?;
    reads::sizes(rt)?;
    reads::lengths(rt)?;
    reads::first_refusals(rt)?;
    reads::nothing(rt)?;
    reads::missing(rt)?;
    reads::surplus(rt)?;
    reads::odd_numbers(rt)?;
    reads::odd_bytes(rt)?;
    reads::odd_dots(rt)?;
    reads::turns(rt)?;
    reads::large_numbers(rt)
}
