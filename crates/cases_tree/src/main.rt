// Turns closed schedules into tree tables and tables into schedules: the manual, "Tree table". All schedules
// of the small counts and some of the largest go there and back, all small tables and many large ones with one
// entry changed go back, and both ways are asked on both sides of every refusal. The file stdout says what it
// must print; each line of it is worked out again by host/oracle.py, without this code. [T2] [T3] [R18] [R17] [E9]
// [E10]
#![tactic(auto)]

mod asks;
mod backs;
mod combinations;
mod damage;
mod folds;
mod tables;
mod trees;
mod ways;

use std::io;

fn main(rt: HostRuntime) -> io::Result<()> {
    let rt = &rt;
    ways::example(rt)?;
    ways::print_each(rt, 4)?;
    ways::print_digests(rt, 8)?;
    combinations::print_all(rt)?;
    damage::print_forms(rt)?;
    trees::sizes(rt)?;
    trees::lengths(rt)?;
    trees::table_lengths(rt)?;
    trees::beats(rt)?;
    trees::first_refusals(rt)?;
    trees::limits(rt)?;
    backs::sizes(rt)?;
    backs::lengths(rt)?;
    backs::table_lengths(rt)?;
    backs::first_refusals(rt)?;
    backs::entries(rt)?;
    backs::children(rt)?;
    backs::parents(rt)?;
    backs::orders(rt)?;
    backs::unreached(rt)?;
    backs::limits(rt)
}
