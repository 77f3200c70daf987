// Writes order records and reads them: the manual, "Order record". Some forms are written in kinds 2 and 3, read
// back, and read in kind 1, whose bytes are put together here since it is not written: in full, and all forms of the
// small counts and some of every larger pair in digests. Both ways are asked on both sides of every refusal. The file
// stdout says what it must print; each line of it is worked out again by host/oracle.py and host/packing.py, without
// this code. [D1e] [D1c] [B3] [R13] [R20] [R19] [K3] [K4]
#![tactic(auto)]

mod asks;
mod backs;
mod changes;
mod folds;
mod forms;
mod held;
mod known;
mod orders;
mod reads;
mod spelled;
mod writes;

use std::io;

fn print_forms(rt: &impl Print) -> io::Result<()> {
    forms::small(rt)?;
    forms::middle(rt)?;
    forms::large(rt)?;
    backs::print_sizes(rt, 8)?;
    backs::print_scattered(rt, 8, triangle::LARGEST + 1)?;
    changes::print_all(rt)
}

fn print_writes(rt: &impl Print) -> io::Result<()> {
    writes::kinds(rt)?;
    writes::sizes(rt)?;
    writes::lengths(rt)?;
    writes::beats(rt)?;
    writes::rooms(rt)?;
    writes::first_refusals(rt)
}

fn print_reads(rt: &impl Print) -> io::Result<()> {
    reads::rooms(rt)?;
    reads::cuts(rt)?;
    reads::short(rt)?;
    reads::kinds(rt)?;
    reads::numbered_lengths(rt)?;
    reads::packed_lengths(rt)?;
    reads::sizes(rt)?;
    reads::exact_lengths(rt)?;
    reads::unused_bits(rt)?;
    reads::numbers(rt)?;
    reads::empty_hands(rt)?;
    reads::take_ups(rt)?;
    reads::long(rt)
}

fn main(rt: HostRuntime) -> io::Result<()> {
    let rt = &rt;
    print_forms(rt)?;
    print_writes(rt)?;
    print_reads(rt)?;
    orders::no_room(rt)?;
    orders::cut_short(rt)?;
    orders::of_kinds(rt)?;
    orders::of_sizes(rt)?;
    orders::of_lengths(rt)?;
    orders::of_beats(rt)?;
    orders::long(rt)
}
