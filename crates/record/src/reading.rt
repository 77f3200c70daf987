// What reading a record answers: the manual, "Order record" and "Refusal numbers". The contracts cite
// specs/Parts. [P1]
ghost use Rattle.std.specs.Prelude.{◌≡◌};
ghost use Rattle.refusal.specs.Answer.{surplus};
ghost use Rattle.record.specs.Parts as said;

use refusal::{Refusal, Told};

// What a record says: the counts and the number of its form, and how many bytes it takes.
#[derive(Clone, Copy, Debug, PartialEq, Eq)]
pub struct Order {
    pub t: u64,
    pub s: u64,
    pub number: u64,
    pub consumed: u64,
}

// Why a record is refused, and how many bytes to pass over.
#[derive(Clone, Copy, Debug, PartialEq, Eq)]
pub struct Unread {
    pub why: Refusal,
    pub consumed: u64,
}

// The parts of the answer of reading a record: what it says; or why it is refused, and how many bytes to pass over.
pub trait Reading {
    ghost answer: { Self → said.Reading };

    // [P13]
    fn verdict(self) -> Result<(), Refusal>
        ensures { result ≡ said.verdict (answer self) };

    // [Q3]
    fn surplus(self) -> i32
        ensures { result ≡ surplus (said.verdict (answer self)) };

    // [R22]
    fn t(self) -> u64
        ensures { result ≡ said.t (answer self) };

    // [R22]
    fn s(self) -> u64
        ensures { result ≡ said.s (answer self) };

    // [R22]
    fn number(self) -> u64
        ensures { result ≡ said.number (answer self) };

    // The bytes that the record takes, refused or not; 0 after 9 and after 12.
    fn consumed(self) -> u64
        ensures { result ≡ said.consumed (answer self) };
}

impl Reading for Result<Order, Unread> {
    ghost answer = { λ r. r };

    fn verdict(self) -> Result<(), Refusal> {
        match self {
            Ok(_) => Ok(()),
            Err(unread) => Err(unread.why),
        }
    }

    fn surplus(self) -> i32 {
        self.verdict().surplus()
    }

    fn t(self) -> u64 {
        match self {
            Ok(order) => order.t,
            Err(_) => 0,
        }
    }

    fn s(self) -> u64 {
        match self {
            Ok(order) => order.s,
            Err(_) => 0,
        }
    }

    fn number(self) -> u64 {
        match self {
            Ok(order) => order.number,
            Err(_) => 0,
        }
    }

    fn consumed(self) -> u64 {
        match self {
            Ok(order) => order.consumed,
            Err(unread) => unread.consumed,
        }
    }
}
