// The circles, from t ones then s zeros, on and back: the forms in their order for t up to 4, and for t up to 8
// the steps of a round, the beats that they change, and a digest of the forms in their order.
use crate::way::Way;
use show::{Beats, Pairs};
use std::io;

// The forms of t and s in their order, and after the last the first again; for up to 16 beats.
fn order<W: Way>(rt: &impl Print, way: &W, t: u64, s: u64) -> io::Result<()> {
    let mut room = [0u8; 16];
    let Some(beats) = show::top(t, s, &mut room) else {
        return Ok(());
    };
    print!(rt; "order{} {t} {s}:", W::SUFFIX)?;
    for _ in 0..refusal::value(counts::count(t, s)) {
        print!(rt; " {}", Beats(beats))?;
        let _ = way.step(t, s, beats);
    }
    println!(rt; " {}", Beats(beats))
}

// The circles of t up to 4, form by form.
pub fn orders(rt: &impl Print, way: &impl Way) -> io::Result<()> {
    for (t, s) in Pairs::below(5) {
        order(rt, way, t, s)?;
    }
    Ok(())
}

// How many steps a round of t and s takes, the changed beats that they answer, the digest, and where it ends; for up
// to 16 beats.
fn round<W: Way>(rt: &impl Print, way: &W, t: u64, s: u64) -> io::Result<()> {
    let mut room = [0u8; 16];
    let Some(beats) = show::top(t, s, &mut room) else {
        return Ok(());
    };
    let forms = refusal::value(counts::count(t, s));
    let mut changed: u64 = 0;
    let mut sum: u64 = 0;
    for _ in 0..forms {
        sum = show::digest(sum, beats);
        changed = changed.wrapping_add(refusal::value(way.step(t, s, beats)));
    }
    println!(rt;
        "round{} {t} {s}: {forms} {changed} {sum} {}",
        W::SUFFIX,
        Beats(beats)
    )
}

// The rounds of t up to 8.
pub fn rounds(rt: &impl Print, way: &impl Way) -> io::Result<()> {
    for (t, s) in Pairs::below(9) {
        round(rt, way, t, s)?;
    }
    Ok(())
}
