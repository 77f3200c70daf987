// Numbers forms and makes the forms of numbers: every number of the small counts, some of every count,
// and the examples of the manual, "The number", "Onto the sheet" and "Easy to get wrong". The file stdout
// says what it must print; each line of it is worked out again by host/oracle.py, without this code. [D1e] [O3] [R14]
// [R15] [R16] [E7b]
#![tactic(auto)]

mod asks;
mod numbers;
mod ways;

use std::io;

fn main(rt: HostRuntime) -> io::Result<()> {
    ways::all(&rt)?;
    ways::some(&rt)?;
    numbers::rounds(&rt)?;
    numbers::largest(&rt)?;
    numbers::refusals(&rt)?;
    numbers::first_refusals(&rt)?;
    asks::forms(&rt)?;
    asks::longest(&rt)?;
    asks::form_refusals(&rt)?;
    asks::sheets(&rt)?;
    asks::empty_forms(&rt)?;
    asks::sheet_refusals(&rt)
}
