// What many calls answered and left, for the lines that stand for many calls.
use crate::asks::PLACES;
use crate::held;
use crate::known::Form;
use record::{Order, Reading, Unread};
use refusal::Refusal;
use std::fmt;

// How many calls were as wished, and the digest of every call's answer and of all bytes that were lent to it
// to be filled, as they are after it.
#[derive(Clone, Copy, Default)]
pub struct Tally {
    good: u64,
    sum: u64,
}

// The end of a line.
impl fmt::Display for Tally {
    fn fmt<W: fmt::Write>(&self, f: &mut fmt::Formatter<W>) -> fmt::Result {
        write!(f, "{} {}", self.good, self.sum)
    }
}

impl Tally {
    // One call more that was as wished, or was not.
    fn count(&mut self, good: bool) {
        self.good = self.good.wrapping_add(u64::from(good));
    }

    // What writing answers and leaves.
    fn fold_writing(&mut self, told: Result<u64, Refusal>, out: &[u8]) {
        let verdict = show::fold_verdict(self.sum, told.map(|_| ()));
        self.sum = show::digest(show::fold(verdict, refusal::value(told)), out);
    }

    // What reading answers and leaves.
    fn fold_reading(&mut self, told: Result<Order, Unread>, out: &[u8]) {
        let verdict = show::fold_verdict(self.sum, told.verdict());
        let counts = show::fold(show::fold(verdict, told.t()), told.s());
        let sum = show::fold(show::fold(counts, told.number()), told.consumed());
        self.sum = show::digest(sum, out);
    }

    // Reads a record in PLACES places that are 7; as wished if it is accepted.
    pub fn read(&mut self, src: &[u8]) {
        let mut out = [7u8; PLACES];
        let told = reader::read(src, &mut out);
        self.fold_reading(told, &out);
        self.count(told.is_ok());
    }

    // Reads a record of so many bytes in PLACES places that are 7; as wished if it says the form.
    fn read_back(&mut self, form: Form, consumed: u64, bytes: &[u8]) {
        let mut out = [7u8; PLACES];
        let told = reader::read(bytes, &mut out);
        self.fold_reading(told, &out);
        let Form {
            t,
            s,
            number,
            beats,
        } = form;
        let order = Order {
            t,
            s,
            number,
            consumed,
        };
        self.count(told == Ok(order) && out.starts_with(beats));
    }

    // Writes the record of a form into 16 bytes that are 7 and reads it; as wished if the form came back.
    fn both(&mut self, kind: u64, form: Form) {
        let mut bytes = [7u8; 16];
        let told = record::write(kind, form.t, form.s, form.beats, &mut bytes);
        self.fold_writing(told, &bytes);
        self.read_back(form, refusal::value(told), &bytes);
    }

    // Reads the record of kind 1, which is not written, of a form; as wished if the form came back.
    fn earlier(&mut self, form: Form) {
        let mut bytes = [7u8; 14];
        held::put(12, 1, form.t, form.s, held::from_top(form), &mut bytes);
        self.read_back(form, 14, &bytes);
    }

    // A form there and back in each kind that is written, and read in kind 1.
    pub fn each_kind(&mut self, form: Form) {
        self.both(2, form);
        self.both(3, form);
        self.earlier(form);
    }
}
