// Which counts are allowed, and how many forms they have: the manual, "A schedule" (sizes) and
// "How many forms". The contracts cite specs/Counts. Here and in every call t and s are two numbers, and no type of
// allowed counts: a host gives any two, the C functions take them so, and the refusals 1 and 2 are of those that are
// not allowed.
#![tactic(auto)]

ghost use Rattle.std.specs.Prelude.{◌≡◌};
ghost use Rattle.refusal.specs.Rows.{judge};
ghost use Rattle.counts.specs.Counts.{count_rows, counting};

use refusal::Refusal;

// Whether a schedule may take up t tasks and set down s. Refuses 1, then 2. [P13]
pub fn allowed(t: u64, s: u64) -> Result<(), Refusal>
    ensures { result ≡ judge (count_rows t s) }
{
    if triangle::LARGEST < t {
        return Err(Refusal::TooManyTasks);
    }
    if t < s {
        return Err(Refusal::MoreDownThanUp);
    }
    Ok(())
}

// How many forms there are of t tasks taken up and s set down. Refuses 1, then 2. [D1a] [W1] [P1] [P2]
pub fn count(t: u64, s: u64) -> Result<u64, Refusal>
    ensures { result ≡ counting t s }
{
    allowed(t, s)?;
    Ok(triangle::forms(t, s))
}
