// The packing list as a program of its own, thin over `program`. [E4]
#![tactic(auto)]

use lists::Which;
use std::process::ExitCode;

// [W2]
fn main(rt: HostRuntime) -> ExitCode {
    program::list_input(
        &rt,
        Which::Packing,
        "packing_list: cannot read standard input",
        "packing_list: cannot write standard output",
    )
}
