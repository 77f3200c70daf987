// The form of a number, alone or on a sheet: the manual, "The number" and "Onto the sheet". It is written
// from the number and the table of counts, and not by walking the circle [M8]. The contracts of the public
// functions cite specs/Answers. [P1]
#![tactic(auto)]

ghost use Rattle.std.specs.Prelude.{cond, ◌++◌, ◌≡◌, ◌+◌, ◌-◌, ◌≤◌, ◌<◌, length, drop};
ghost use Rattle.form.specs.Answers.{number_rows, form_verdict, form_left, sheet_verdict, sheet_left};
ghost use Rattle.refusal.specs.Rows.{judge};
ghost use Rattle.triangle.specs.Count.{N, largest};
ghost use Rattle.circle.specs.Step.{top};
ghost use Rattle.number.specs.Number.{form_of};
ghost use Rattle.form.specs.Place.{floor_of};

use lookup::Table;
use refusal::Refusal;

// N(p, q−1), and 0 for q = 0: the forms of p, q before that place end in a 0.
#[tactic(auto, unfolding(crate::specs::Place::floor_of))]
fn floor(table: Table<'_>, p: u64, q: u64) -> u64
    requires { (p ≤ largest) × (q ≤ p) }
    ensures { result ≡ floor_of p q }
{
    if q == 0 { 0 } else { table.look(p, q - 1) }
}

// One of two values, by a test of a beat. It compiles to no jump, which could not be predicted.
fn pick(test: bool, then: u64, other: u64) -> u64
    ensures { result ≡ cond test then other }
{
    if test { then } else { other }
}

// Writes p ones and then zeros before a place.
fn front(p: usize, until: usize, out: &mut [u8])
    requires { (p ≤ until) × (until ≤ length out.old) }
    ensures { out.new ≡ top p (until - p) ++ drop until out.old }
{
    out[..p].fill(1);
    out[p..until].fill(0);
}

// Writes the form of a number, from its last beat to its first. At a turn the beats before at, p of them
// ones, stand at place k, from 1 on, of all the places of their list S, and end in a 0 exactly if k is below low.
// The next low is one of two counts that add up to low, and one of these is looked up before the beat is
// known, so that no beat waits for a look-up. [M8] [F3]
// The loop stays a `while`: it ends by the place k, and what is left of the beats is written after it. A `for` over the
// beats would need a test of k with a break, and a last turn that never comes: no plainer.
fn write(table: Table<'_>, t: u64, s: u64, number: u64, out: &mut [u8])
    requires { (t ≤ largest) × (s ≤ t) × (length out.old ≡ t + s) × (number < N t s) }
    ensures { out.new ≡ form_of t s number }
{
    let mut at = out.len();
    let mut p = t;
    let mut all = table.look(t, s);
    let mut low = floor(table, t, s);
    let mut k = number + 1;
    while k != all {
        at -= 1;
        let next = table.look(p - 1, at as u64 - p);
        let down = k < low;
        out[at] = !down as u8;
        k -= pick(down, 0, low - 1);
        all = pick(down, low, all - low);
        low = pick(down, low - next, next);
        p -= !down as u64;
    }
    front(p as usize, at, out);
}

// Whether the counts have a form of that number. Refuses 1, 2, then 7.
fn judge_number(table: Table<'_>, t: u64, s: u64, number: u64) -> Result<(), Refusal>
    ensures { result ≡ judge (number_rows t s number) }
{
    counts::allowed(t, s)?;
    if number < table.look(t, s) {
        Ok(())
    } else {
        Err(Refusal::NoSuchNumber)
    }
}

// Writes the form of that number into the t+s lent bytes. Refuses 1, 2, 7, then 3; a refusal changes
// nothing. [W4] [D1e] [D1a] [O3]
pub fn form(t: u64, s: u64, number: u64, out: &mut [u8]) -> Result<(), Refusal>
    ensures value { result ≡ form_verdict t s number out.old }
    ensures out_after { out.new ≡ form_left t s number out.old }
{
    form_by(Table::none(), t, s, number, out)
}

// The same, by rows of the table that the caller keeps from call to call. [P13]
pub fn form_by(table: Table<'_>, t: u64, s: u64, number: u64, out: &mut [u8]) -> Result<(), Refusal>
    ensures value { result ≡ form_verdict t s number out.old }
    ensures out_after { out.new ≡ form_left t s number out.old }
{
    judge_number(table, t, s, number)?;
    if out.len() as u64 != t + s {
        return Err(Refusal::WrongLength);
    }
    write(table, t, s, number, out);
    Ok(())
}

// Writes the form of that number onto the lent sheet, from the column on. Refuses 1, 2, 7, then 12; every
// byte before and after the form stays, and a refusal changes nothing. No sum of the column can wrap. [W4] [F3] [D1a]
// [D1e] [O3]
pub fn form_on_sheet(
    t: u64,
    s: u64,
    number: u64,
    sheet: &mut [u8],
    column: u64,
) -> Result<(), Refusal>
    ensures value { result ≡ sheet_verdict t s number sheet.old column }
    ensures sheet_after { sheet.new ≡ sheet_left t s number sheet.old column }
{
    let none = Table::none();
    judge_number(none, t, s, number)?;
    let room = sheet.len() as u64;
    let long = t + s;
    if room < long || room - long < column {
        return Err(Refusal::NoRoom);
    }
    let from = column as usize;
    let end = from + long as usize;
    write(none, t, s, number, &mut sheet[from..end]);
    Ok(())
}
