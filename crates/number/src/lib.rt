// The number of a form: the manual, "The number". It works from the beats and the table of counts, and not
// by walking the circle [M8]. The contracts of the public functions cite specs/Answers, which has those of
// the crate `form` too; proofs/Theorems says what a number is. [P1]
#![tactic(auto)]

ghost use Rattle.std.specs.Prelude.{true, false, ◌≡◌, ◌+◌, ◌-◌, ◌*◌, ◌≤◌, IfSome, IfNone};
ghost use Rattle.triangle.specs.Count.{N, largest, most_beats};
ghost use Rattle.number.specs.Answers.{number_answer};
ghost use Rattle.number.specs.Ranking.{is_sized, is_level, goes_on, Ranks};

use lookup::Table;
use refusal::Refusal;
use schedule::wide;

// What a beat after ups ones and downs zeros adds to the number, where they are not all ones before all zeros: a 0
// nothing; a 1 the forms that end in a 0, but for the closing one, since these are listed before it. No branch goes by
// the beat, which could not be predicted.
#[tactic(auto, using(crate::proofs::Counting::count_some))]
fn growth(table: Table<'_>, ups: u64, downs: u64, beat: u64) -> u64
    requires { (ups + beat ≤ largest) × (1 ≤ downs) × (downs ≤ ups) × (beat ≤ 1) }
    ensures { result ≡ beat * (N (ups + beat) (downs - 1) - 1) }
{
    beat * (table.look(ups + beat, downs - 1) - 1)
}

// Whether the counts are allowed and the beats are as many as they say.
fn sized(t: u64, s: u64, beats: &[u8]) -> bool
    ensures { result ≡ is_sized t s beats.now }
{
    t <= triangle::LARGEST && s <= t && beats.len() as u64 == t + s
}

// Whether ups ones and then downs zeros may begin a schedule of t ones.
fn level(t: u64, ups: u64, downs: u64) -> bool
    ensures { result ≡ is_level t ups downs }
{
    ups <= t && downs <= ups
}

// Whether a beat may stand after ups ones and downs zeros of a schedule of t ones.
fn fits(t: u64, ups: u64, downs: u64, beat: u64) -> bool
    requires { ups ≤ most_beats }
    ensures { result ≡ goes_on t ups downs beat }
{
    beat <= 1 && ups + beat <= t && downs < ups + beat
}

// The number of a schedule, its place in list S: the leading ones and zeros close their own list, and each beat after
// them adds its growth. Beats that are no schedule of allowed counts have none. The beats are tested as they are read.
// [M8]
fn rank(table: Table<'_>, t: u64, s: u64, beats: &[u8]) -> Option<u64>
    ensures some { IfSome result (λ n. Ranks t s beats.now true n) }
    ensures none { IfNone result (Ranks t s beats.now false 0) }
{
    if !sized(t, s, beats) {
        return None;
    }
    let up = schedule::skip(beats, 0, 1);
    let rise = schedule::skip(beats, up, 0);
    let mut ups = up as u64;
    let mut downs = (rise - up) as u64;
    if !level(t, ups, downs) {
        return None;
    }
    let mut number = table.look(ups, downs) - 1;
    for &next in &beats[rise..] {
        let beat = wide(next);
        if !fits(t, ups, downs, beat) {
            return None;
        }
        number += growth(table, ups, downs, beat);
        ups += beat;
        downs += 1 - beat;
    }
    if ups == t { Some(number) } else { None }
}

// The number of the lent schedule. Refuses 1 to 6 as the check does. [W4] [D1a]
pub fn number(t: u64, s: u64, beats: &[u8]) -> Result<u64, Refusal>
    ensures { result ≡ number_answer t s beats.now }
{
    number_by(Table::none(), t, s, beats)
}

// The same, by rows of the table that the caller keeps from call to call. [P13]
pub fn number_by(table: Table<'_>, t: u64, s: u64, beats: &[u8]) -> Result<u64, Refusal>
    ensures { result ≡ number_answer t s beats.now }
{
    if let Some(number) = rank(table, t, s, beats) {
        return Ok(number);
    }
    schedule::check(t, s, beats)?;
    unreachable!() // no schedule comes here
}
