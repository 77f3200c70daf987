// Runs the count and the check on the examples of the manual, on Table 1 of source 000 and on both
// sides of every refusal that they can give. The file stdout says what it must print; each line of it
// is worked out again by host/oracle.py, without this code. [A4] [A7] [N8] [O1c] [R9] [R10] [P8] [E2] [Q7]
#![tactic(auto)]

mod checks;
mod offs;
mod tables;

use std::io;

fn main(rt: HostRuntime) -> io::Result<()> {
    tables::counts(&rt)?;
    tables::lists(&rt)?;
    checks::counts(&rt)?;
    checks::sizes(&rt)?;
    checks::lengths(&rt)?;
    checks::bad_beats(&rt)?;
    checks::empty_hands(&rt)?;
    checks::wrong_take_ups(&rt)?;
    checks::limits(&rt)?;
    checks::extremes(&rt)?;
    offs::lists(&rt)
}
