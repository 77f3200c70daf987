// The list of outlines as a program of its own, thin over `program`. [I3]
#![tactic(auto)]

use lists::Which;
use std::process::ExitCode;

fn main(rt: HostRuntime) -> ExitCode {
    program::list_input(
        &rt,
        Which::Outlining,
        "outline_list: cannot read standard input",
        "outline_list: cannot write standard output",
    )
}
