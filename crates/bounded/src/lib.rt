// No code: tests over the numbers below a bound, which several crates' definitions use, and their laws.
#![tactic(auto)]
