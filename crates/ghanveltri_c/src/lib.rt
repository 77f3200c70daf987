// The library for C: a thin static library over `ghanveltri`. Each function `gv_` is a C function on 64-bit numbers and
// lent bytes, a slice being its pointer and then its length. It calls the function of its name there, which says what
// it does, and states its clauses again. The lists from one descriptor to another are C, host/lists.c, since nothing
// that a static library may call reads or writes a descriptor and tells what failed. Their passes are here,
// `list_packing`, `list_explaining` and `list_outlining`: each tells what a pass over a window did, and its contract is
// that of a pass. Each is an own function for each C name, since C knows no other. [W3] [P13] [D1a] [P1]
#![tactic(auto)]

ghost use Rattle.std.specs.Prelude.{List, ◌≡◌, ℕ, get_or};
ghost use Rattle.refusal.specs.Answer.{Verdict};
ghost use Rattle.form.specs.Answers.{form_verdict, form_left};
ghost use Rattle.refusal.specs.Answer.{refusal, place, surplus, verdict, value};
ghost use Rattle.counts.specs.Counts.{counting};
ghost use Rattle.schedule.specs.Check.{checked};
ghost use Rattle.circle.specs.Answers.{next_answer, next_left, run_answer, run_left};
ghost use Rattle.circle_back.specs.Answers.{previous_answer, previous_left, run_back_answer, run_back_left};
ghost use Rattle.reason.specs.Explanation.{no_place};
ghost use Rattle.reason.specs.Answers.{explained};
ghost use Rattle.number.specs.Answers.{number_answer};
ghost use Rattle.outline.specs.Answers.{outline_answer, outline_left};
ghost use Rattle.outline_back.specs.Back.{Back};
ghost use Rattle.stream.specs.declared.Pass.{Pass};
ghost use Rattle.stream.specs.Pass.{Passes};
ghost use Rattle.lists.specs.declared.Which as of;
ghost use Rattle.lists.specs.Listed.{line_of, widest};
ghost use Rattle.ghanveltri_c.specs.Passed.{told};

use lists::Which;

#[unsafe(no_mangle)]
pub extern "C" fn gv_version() -> u64
    ensures { result ≡ 2001000 }
{
    ghanveltri::gv_version()
}

#[unsafe(no_mangle)]
// [F4]
pub extern "C" fn gv_check_refusal(t: u64, s: u64, beats: &[u8]) -> u64
    ensures { result ≡ refusal (checked t s beats.now) }
{
    ghanveltri::gv_check_refusal(t, s, beats)
}

#[unsafe(no_mangle)]
pub extern "C" fn gv_check_place(t: u64, s: u64, beats: &[u8]) -> u64
    ensures { result ≡ place (checked t s beats.now) }
{
    ghanveltri::gv_check_place(t, s, beats)
}

#[unsafe(no_mangle)]
pub extern "C" fn gv_check_surplus(t: u64, s: u64, beats: &[u8]) -> i32
    ensures { result ≡ surplus (checked t s beats.now) }
{
    ghanveltri::gv_check_surplus(t, s, beats)
}

#[unsafe(no_mangle)]
pub extern "C" fn gv_count_refusal(t: u64, s: u64) -> u64
    ensures { result ≡ refusal (verdict (counting t s)) }
{
    ghanveltri::gv_count_refusal(t, s)
}

#[unsafe(no_mangle)]
pub extern "C" fn gv_count_place(t: u64, s: u64) -> u64
    ensures { result ≡ place (verdict (counting t s)) }
{
    ghanveltri::gv_count_place(t, s)
}

#[unsafe(no_mangle)]
// [F4]
pub extern "C" fn gv_count(t: u64, s: u64) -> u64
    ensures { result ≡ value (counting t s) }
{
    ghanveltri::gv_count(t, s)
}

#[unsafe(no_mangle)]
pub extern "C" fn gv_number_refusal(t: u64, s: u64, beats: &[u8]) -> u64
    ensures { result ≡ refusal (verdict (number_answer t s beats.now)) }
{
    ghanveltri::gv_number_refusal(t, s, beats)
}

#[unsafe(no_mangle)]
pub extern "C" fn gv_number_place(t: u64, s: u64, beats: &[u8]) -> u64
    ensures { result ≡ place (verdict (number_answer t s beats.now)) }
{
    ghanveltri::gv_number_place(t, s, beats)
}

#[unsafe(no_mangle)]
pub extern "C" fn gv_number_surplus(t: u64, s: u64, beats: &[u8]) -> i32
    ensures { result ≡ surplus (verdict (number_answer t s beats.now)) }
{
    ghanveltri::gv_number_surplus(t, s, beats)
}

#[unsafe(no_mangle)]
// [F4]
pub extern "C" fn gv_number(t: u64, s: u64, beats: &[u8]) -> u64
    ensures { result ≡ value (number_answer t s beats.now) }
{
    ghanveltri::gv_number(t, s, beats)
}

#[unsafe(no_mangle)]
// [F4]
pub extern "C" fn gv_form(t: u64, s: u64, number: u64, out: &mut [u8]) -> u64
    ensures value { result ≡ refusal (form_verdict t s number out.old) }
    ensures out_after { out.new ≡ form_left t s number out.old }
{
    ghanveltri::gv_form(t, s, number, out)
}

#[unsafe(no_mangle)]
// [F4]
pub extern "C" fn gv_next(t: u64, s: u64, beats: &mut [u8]) -> u64
    ensures value { result ≡ refusal (verdict (next_answer t s beats.old)) }
    ensures beats_after { beats.new ≡ next_left t s beats.old }
{
    ghanveltri::gv_next(t, s, beats)
}

#[unsafe(no_mangle)]
pub extern "C" fn gv_next_changed(t: u64, s: u64, beats: &[u8]) -> u64
    ensures { result ≡ value (next_answer t s beats.now) }
{
    ghanveltri::gv_next_changed(t, s, beats)
}

#[unsafe(no_mangle)]
pub extern "C" fn gv_run(t: u64, s: u64, beats: &mut [u8], steps: u64) -> u64
    ensures value { result ≡ refusal (verdict (run_answer t s beats.old steps)) }
    ensures beats_after { beats.new ≡ run_left t s beats.old steps }
{
    ghanveltri::gv_run(t, s, beats, steps)
}

#[unsafe(no_mangle)]
pub extern "C" fn gv_run_changed(t: u64, s: u64, beats: &[u8], steps: u64) -> u64
    ensures { result ≡ value (run_answer t s beats.now steps) }
{
    ghanveltri::gv_run_changed(t, s, beats, steps)
}

#[unsafe(no_mangle)]
pub extern "C" fn gv_previous(t: u64, s: u64, beats: &mut [u8]) -> u64
    ensures value { result ≡ refusal (verdict (previous_answer t s beats.old)) }
    ensures beats_after { beats.new ≡ previous_left t s beats.old }
{
    ghanveltri::gv_previous(t, s, beats)
}

#[unsafe(no_mangle)]
pub extern "C" fn gv_previous_changed(t: u64, s: u64, beats: &[u8]) -> u64
    ensures { result ≡ value (previous_answer t s beats.now) }
{
    ghanveltri::gv_previous_changed(t, s, beats)
}

#[unsafe(no_mangle)]
pub extern "C" fn gv_run_back(t: u64, s: u64, beats: &mut [u8], steps: u64) -> u64
    ensures value { result ≡ refusal (verdict (run_back_answer t s beats.old steps)) }
    ensures beats_after { beats.new ≡ run_back_left t s beats.old steps }
{
    ghanveltri::gv_run_back(t, s, beats, steps)
}

#[unsafe(no_mangle)]
pub extern "C" fn gv_run_back_changed(t: u64, s: u64, beats: &[u8], steps: u64) -> u64
    ensures { result ≡ value (run_back_answer t s beats.now steps) }
{
    ghanveltri::gv_run_back_changed(t, s, beats, steps)
}

#[unsafe(no_mangle)]
pub extern "C" fn gv_explain_case(t: u64, s: u64, beats: &[u8]) -> u64
    ensures { result ≡ (explained t s beats.now).case }
{
    ghanveltri::gv_explain_case(t, s, beats)
}

#[unsafe(no_mangle)]
pub extern "C" fn gv_explain_found(t: u64, s: u64, beats: &[u8]) -> u64
    ensures { result ≡ get_or (explained t s beats.now).found 0 no_place }
{
    ghanveltri::gv_explain_found(t, s, beats)
}

#[unsafe(no_mangle)]
pub extern "C" fn gv_explain_moved(t: u64, s: u64, beats: &[u8]) -> u64
    ensures { result ≡ get_or (explained t s beats.now).moved 0 no_place }
{
    ghanveltri::gv_explain_moved(t, s, beats)
}

#[unsafe(no_mangle)]
pub extern "C" fn gv_explain_changed_place(t: u64, s: u64, beats: &[u8], which: u64) -> u64
    ensures { result ≡ get_or (explained t s beats.now).changed which no_place }
{
    ghanveltri::gv_explain_changed_place(t, s, beats, which)
}

#[unsafe(no_mangle)]
pub extern "C" fn gv_outline_refusal(t: u64, s: u64, beats: &[u8], text: &[u8]) -> u64
    ensures { result ≡ refusal (verdict (outline_answer t s beats.now text.now)) }
{
    ghanveltri::gv_outline_refusal(t, s, beats, text)
}

#[unsafe(no_mangle)]
pub extern "C" fn gv_outline_place(t: u64, s: u64, beats: &[u8], text: &[u8]) -> u64
    ensures { result ≡ place (verdict (outline_answer t s beats.now text.now)) }
{
    ghanveltri::gv_outline_place(t, s, beats, text)
}

#[unsafe(no_mangle)]
pub extern "C" fn gv_outline_surplus(t: u64, s: u64, beats: &[u8], text: &[u8]) -> i32
    ensures { result ≡ surplus (verdict (outline_answer t s beats.now text.now)) }
{
    ghanveltri::gv_outline_surplus(t, s, beats, text)
}

#[unsafe(no_mangle)]
pub extern "C" fn gv_outline(t: u64, s: u64, beats: &[u8], text: &mut [u8]) -> u64
    ensures value { result ≡ value (outline_answer t s beats.now text.old) }
    ensures text_after { text.new ≡ outline_left t s beats.now text.old }
{
    ghanveltri::gv_outline(t, s, beats, text)
}

#[unsafe(no_mangle)]
pub extern "C" fn gv_outline_read(n: u64, text: &[u8], out: &mut [u8]) -> u64
    ensures { (v : Verdict) × Back n text.now out.old v out.new
        × (result ≡ refusal v) }
{
    ghanveltri::gv_outline_read(n, text, out)
}

#[unsafe(no_mangle)]
pub extern "C" fn gv_outline_read_place(n: u64, text: &[u8], out: &[u8]) -> u64
    ensures { (v : Verdict) × (b : List ℕ) × Back n text.now out.now v b
        × (result ≡ place v) }
{
    ghanveltri::gv_outline_read_place(n, text, out)
}

// What a pass over a window did: the bytes that it listed, the bytes of their lines, and what it stopped at: 0 at a
// record where there was no room for its lines, 1 at the start of one that waits for more input, 2 at the end.
#[repr(C)]
#[derive(Clone, Copy)]
pub struct Passed {
    pub consumed: u64,
    pub bytes: u64,
    pub front: u64,
}

// Lists the records that a window starts with, and tells what the pass did.
fn list(which: Which, src: &[u8], ended: bool, text: &mut [u8], passed: &mut Passed)
    ensures { (p : Pass) × Passes (line_of which) widest ended src.now text.old p text.new
        × (passed.new ≡ told p) }
{
    let pass = lists::list_part(which, src, ended, text);
    *passed = Passed {
        consumed: pass.consumed as u64,
        bytes: pass.bytes as u64,
        front: pass.front.number(),
    };
}

// Lists the order records that a window starts with as the packing list does, while their lines have room. The C of
// this library that reads and writes, host/lists.c, makes gv_packing_list of it. [E18]
#[unsafe(no_mangle)]
pub extern "C" fn list_packing(src: &[u8], ended: bool, text: &mut [u8], passed: &mut Passed)
    ensures { (p : Pass) × Passes (line_of of.Which.Packing) widest ended src.now text.old p text.new
        × (passed.new ≡ told p) }
{
    list(Which::Packing, src, ended, text, passed)
}

// The same of the list that explains each record. [X10]
#[unsafe(no_mangle)]
pub extern "C" fn list_explaining(src: &[u8], ended: bool, text: &mut [u8], passed: &mut Passed)
    ensures { (p : Pass) × Passes (line_of of.Which.Explaining) widest ended src.now text.old p text.new
        × (passed.new ≡ told p) }
{
    list(Which::Explaining, src, ended, text, passed)
}

// The same of the list of outlines. [I3]
#[unsafe(no_mangle)]
pub extern "C" fn list_outlining(src: &[u8], ended: bool, text: &mut [u8], passed: &mut Passed)
    ensures { (p : Pass) × Passes (line_of of.Which.Outlining) widest ended src.now text.old p text.new
        × (passed.new ≡ told p) }
{
    list(Which::Outlining, src, ended, text, passed)
}
