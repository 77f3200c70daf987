// The demands of the letter and the examples of the manual that are marked P, as theorems about the definitions of
// the crates above. The definitions are in specs/, the theorems in proofs/. The functions here only hand a call on:
// each has the words of `Gives` for its contract, so that these are proved of the functions and not only read.
// [D1g]
#![tactic(auto)]

ghost use Rattle.std.specs.Prelude.{[], ◌∷◌};
ghost use Rattle.refusal.specs.Answer.{verdict, value};
ghost use Rattle.reason.specs.Answers.{numbers};
ghost use Rattle.reason.specs.Answers as told;
ghost use Rattle.record.specs.Parts as said;
ghost use Rattle.demands.specs.Calls as call;
ghost use Rattle.demands.specs.Calls.{Gives};

use reason::Reason;
use record::{Order, Unread};
use refusal::Refusal;

fn count(t: u64, s: u64) -> Result<u64, Refusal>
    ensures { Gives (call.count t s) (verdict result) (value result ∷ []) [] }
{
    counts::count(t, s)
}

fn check(t: u64, s: u64, beats: &[u8]) -> Result<(), Refusal>
    ensures { Gives (call.check t s beats.now) result [] (beats.exit.now ∷ []) }
{
    schedule::check(t, s, beats)
}

fn next(t: u64, s: u64, beats: &mut [u8]) -> Result<u64, Refusal>
    ensures { Gives (call.move call.next t s beats.old) (verdict result) (value result ∷ [])
        (beats.new ∷ []) }
{
    circle::next(t, s, beats)
}

fn changed(t: u64, s: u64, beats: &[u8]) -> Result<u64, Refusal>
    ensures { Gives (call.changed call.next t s beats.now) (verdict result) (value result ∷ [])
        (beats.exit.now ∷ []) }
{
    circle::changed(t, s, beats)
}

fn run(t: u64, s: u64, beats: &mut [u8], k: u64) -> Result<u64, Refusal>
    ensures { Gives (call.move (call.run k) t s beats.old) (verdict result) (value result ∷ [])
        (beats.new ∷ []) }
{
    circle::run(t, s, beats, k)
}

fn run_changed(t: u64, s: u64, beats: &[u8], k: u64) -> Result<u64, Refusal>
    ensures { Gives (call.changed (call.run k) t s beats.now) (verdict result) (value result ∷ [])
        (beats.exit.now ∷ []) }
{
    circle::run_changed(t, s, beats, k)
}

fn previous(t: u64, s: u64, beats: &mut [u8]) -> Result<u64, Refusal>
    ensures { Gives (call.move call.previous t s beats.old) (verdict result) (value result ∷ [])
        (beats.new ∷ []) }
{
    circle_back::previous(t, s, beats)
}

fn previous_changed(t: u64, s: u64, beats: &[u8]) -> Result<u64, Refusal>
    ensures { Gives (call.changed call.previous t s beats.now) (verdict result) (value result ∷ [])
        (beats.exit.now ∷ []) }
{
    circle_back::previous_changed(t, s, beats)
}

fn run_back(t: u64, s: u64, beats: &mut [u8], k: u64) -> Result<u64, Refusal>
    ensures { Gives (call.move (call.run-back k) t s beats.old) (verdict result) (value result ∷ [])
        (beats.new ∷ []) }
{
    circle_back::run_back(t, s, beats, k)
}

fn run_back_changed(t: u64, s: u64, beats: &[u8], k: u64) -> Result<u64, Refusal>
    ensures { Gives (call.changed (call.run-back k) t s beats.now) (verdict result) (value result ∷ [])
        (beats.exit.now ∷ []) }
{
    circle_back::run_back_changed(t, s, beats, k)
}

fn explain(t: u64, s: u64, beats: &[u8]) -> Result<Reason, Refusal>
    ensures { Gives (call.explain t s beats.now) (told.verdict result) (numbers (told.values result))
        (beats.exit.now ∷ []) }
{
    reason::explain(t, s, beats)
}

fn number(t: u64, s: u64, beats: &[u8]) -> Result<u64, Refusal>
    ensures { Gives (call.number t s beats.now) (verdict result) (value result ∷ [])
        (beats.exit.now ∷ []) }
{
    number::number(t, s, beats)
}

fn form(t: u64, s: u64, n: u64, out: &mut [u8]) -> Result<(), Refusal>
    ensures { Gives (call.form t s n out.old) result [] (out.new ∷ []) }
{
    form::form(t, s, n, out)
}

fn form_on_sheet(t: u64, s: u64, n: u64, sheet: &mut [u8], column: u64) -> Result<(), Refusal>
    ensures { Gives (call.form-on-sheet t s n sheet.old column) result [] (sheet.new ∷ []) }
{
    form::form_on_sheet(t, s, n, sheet, column)
}

fn tree(
    n: u64,
    beats: &[u8],
    left: &mut [u8],
    right: &mut [u8],
    parent: &mut [u8],
) -> Result<(), Refusal>
    ensures { Gives (call.tree n beats.now left.old right.old parent.old) result []
        (beats.exit.now ∷ left.new ∷ right.new ∷ parent.new ∷ []) }
{
    tree::tree(n, beats, left, right, parent)
}

fn schedule_of_tree(
    n: u64,
    left: &[u8],
    right: &[u8],
    parent: &[u8],
    out: &mut [u8],
) -> Result<(), Refusal>
    ensures { Gives (call.schedule-of-tree n left.now right.now parent.now out.old) result []
        (left.exit.now ∷ right.exit.now ∷ parent.exit.now ∷ out.new ∷ []) }
{
    tree_back::schedule_of_tree(n, left, right, parent, out)
}

fn outline(t: u64, s: u64, beats: &[u8], text: &mut [u8]) -> Result<u64, Refusal>
    ensures { Gives (call.outline t s beats.now text.old) (verdict result) (value result ∷ [])
        (beats.exit.now ∷ text.new ∷ []) }
{
    outline::outline(t, s, beats, text)
}

fn schedule_of_outline(n: u64, text: &[u8], out: &mut [u8]) -> Result<(), Refusal>
    ensures { Gives (call.schedule-of-outline n text.now out.old) result []
        (text.exit.now ∷ out.new ∷ []) }
{
    outline_back::schedule_of_outline(n, text, out)
}

fn read(src: &[u8], out: &mut [u8]) -> Result<Order, Unread>
    ensures { Gives (call.read src.now out.old) (said.verdict result) (said.t result ∷ said.s result
        ∷ said.number result ∷ said.consumed result ∷ []) (src.exit.now ∷ out.new ∷ []) }
{
    reader::read(src, out)
}

fn write(kind: u64, t: u64, s: u64, beats: &[u8], out: &mut [u8]) -> Result<u64, Refusal>
    ensures { Gives (call.write kind t s beats.now out.old) (verdict result) (value result
        ∷ []) (beats.exit.now ∷ out.new ∷ []) }
{
    record::write(kind, t, s, beats, out)
}
