// Records of some forms, of each kind: with a byte too little room, with exactly enough, and with three bytes
// more. What is written is read back, alone and with those three bytes after it. A record of kind 1 is only read.
use crate::known::Form;
use crate::{asks, held};
use std::io;
use triangle::{BEATS, LARGEST};

// A record of so many bytes, 1 to 17.
fn print_rooms(rt: &impl Print, kind: u64, form: Form, size: usize) -> io::Result<()> {
    if size == 0 || 17 < size {
        return Ok(());
    }
    let Form { t, s, beats, .. } = form;
    asks::write(rt, kind, t, s, beats, size - 1)?;
    asks::both(rt, kind, t, s, beats, size)?;
    asks::both(rt, kind, t, s, beats, size + 3)
}

// A form in all kinds.
fn print_kinds(rt: &impl Print, form: Form) -> io::Result<()> {
    let Form { t, s, beats, .. } = form;
    asks::write(rt, 1, t, s, beats, 14)?;
    held::read(rt, 14, 12, 1, t, s, held::from_top(form))?;
    print_rooms(rt, 2, form, 6 + beats.len().div_ceil(8))?;
    print_rooms(rt, 3, form, 14)
}

// The form of a number, for t and s up to LARGEST.
fn print_form(rt: &impl Print, t: u64, s: u64, number: u64) -> io::Result<()> {
    let mut room = [7u8; BEATS];
    let Some(form) = Form::new(t, s, number, &mut room) else {
        return Ok(());
    };
    print_kinds(rt, form)
}

// The forms of the examples of the manual; those of (3,2) all.
pub fn small(rt: &impl Print) -> io::Result<()> {
    print_form(rt, 0, 0, 0)?;
    print_form(rt, 1, 1, 0)?;
    print_form(rt, 3, 2, 0)?;
    print_form(rt, 3, 2, 1)?;
    print_form(rt, 3, 2, 2)?;
    print_form(rt, 3, 2, 3)?;
    print_form(rt, 3, 2, 4)?;
    print_form(rt, 4, 0, 0)
}

// Beats of eight, of nine, of thirteen and of sixteen, and the last form of (8,5).
pub fn middle(rt: &impl Print) -> io::Result<()> {
    print_form(rt, 4, 4, 12)?;
    print_form(rt, 5, 4, 19)?;
    print_form(rt, 8, 5, 0)?;
    print_form(rt, 8, 5, 1)?;
    print_form(rt, 8, 5, 286)?;
    print_form(rt, 8, 5, 571)?;
    print_form(rt, 8, 8, 1000)
}

// The largest counts: the first forms, one in the middle, and the last two.
pub fn large(rt: &impl Print) -> io::Result<()> {
    let forms = refusal::value(counts::count(LARGEST, LARGEST));
    print_form(rt, LARGEST, 0, 0)?;
    print_form(rt, LARGEST, LARGEST - 1, 12345678901234567)?;
    print_form(rt, LARGEST, LARGEST, 0)?;
    print_form(rt, LARGEST, LARGEST, 1)?;
    print_form(rt, LARGEST, LARGEST, forms / 2)?;
    print_form(rt, LARGEST, LARGEST, forms.wrapping_sub(2))?;
    print_form(rt, LARGEST, LARGEST, forms.wrapping_sub(1))
}
