// The list of explanations as a program of its own, thin over `program`. [X10]
#![tactic(auto)]

use lists::Which;
use std::process::ExitCode;

fn main(rt: HostRuntime) -> ExitCode {
    program::list_input(
        &rt,
        Which::Explaining,
        "explain: cannot read standard input",
        "explain: cannot write standard output",
    )
}
