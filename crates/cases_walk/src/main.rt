// Walks the circles of small counts on and back, explains their steps, and runs the examples of the manual, "The
// step", "The step back", "Why a beat moves" and "Easy to get wrong", and the fourteen words of Figure 2.3 of source
// 001, which stand there as they are walked from t ones then s zeros. The file stdout says what it must print; each
// line of it is worked out again by host/oracle.py, without this code. [A6] [S6] [R6] [P9] [E6] [E5] [V15] [X14]
#![tactic(auto)]

mod circles;
mod reasons;
mod runs;
mod way;

use std::io;
use way::{Back, On};

fn main(rt: HostRuntime) -> io::Result<()> {
    circles::orders(&rt, &On)?;
    circles::orders(&rt, &Back)?;
    circles::rounds(&rt, &On)?;
    circles::rounds(&rt, &Back)?;
    runs::steps(&rt)?;
    runs::refusals(&rt)?;
    runs::lengths(&rt)?;
    runs::long(&rt)?;
    runs::backs(&rt)?;
    reasons::examples(&rt)?;
    reasons::refusals(&rt)?;
    reasons::first_refusals(&rt)?;
    reasons::largest(&rt)?;
    reasons::rounds(&rt)
}
