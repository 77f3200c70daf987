// The refusals of the manual, "Refusal numbers", one named case for each row of its table. Every function of the
// library that can refuse answers a `Result` whose error is a refusal, or to a C host its number, and passes a refusal
// on as it got it; only a record that cannot be read has more to say, `Unread` of the crate `record`. `Told` is what
// any such answer says in numbers. The contracts cite specs/Refusal and specs/Answer. [P1] [P13]
#![tactic(auto)]

ghost use Rattle.std.specs.Prelude.{◌≡◌};
ghost use Rattle.refusal.specs.Refusal.{refusal_number, refusal_place, refusal_surplus};
ghost use Rattle.refusal.specs.Answer as answer;
ghost use Rattle.refusal.specs.Answer.{Verdict};

// Why a call was refused. A case that holds a number names the beat or the line at fault, counted from 0; but 6 holds
// how many ones there are beyond those that were named, below 0 where some are missing. [R1] [Q1] [F7]
#[derive(Clone, Copy, Debug, PartialEq, Eq)]
pub enum Refusal {
    // 1: more tasks than a schedule may have
    TooManyTasks,
    // 2: more tasks set down than taken up
    MoreDownThanUp,
    // 3: a lent schedule or tree table of the wrong length
    WrongLength,
    // 4: a beat that is neither 0 nor 1, the first one
    BadBeat(u64),
    // 5: a set-down with nothing in hand, the first one
    EmptyHand(u64),
    // 6: the ones are not as many as were named
    WrongTakeUps(i32),
    // 7: a number beyond the last form
    NoSuchNumber,
    // 8: tree tables that no schedule has
    NoSuchTables,
    // 9: a record cut short, or one that says it is longer than any
    CutShort,
    // 10: a record of an unknown kind
    UnknownKind,
    // 11: a record's length is wrong for its kind, or its unused bits are not 0
    WrongSize,
    // 12: not enough room lent
    NoRoom,
    // 13: a run of more steps than allowed
    RunTooLong,
    // 14: a schedule that does not set down all that it takes up
    NotClosed,
    // 15: a text that is no outline, its first wrong, missing or surplus line
    NoSuchOutline(u64),
}

impl Refusal {
    // The number of the row: a method and no `From`, since a refusal has three numbers.
    pub fn number(self) -> u64
        ensures { result ≡ refusal_number self }
    {
        match self {
            Refusal::TooManyTasks => 1,
            Refusal::MoreDownThanUp => 2,
            Refusal::WrongLength => 3,
            Refusal::BadBeat(_) => 4,
            Refusal::EmptyHand(_) => 5,
            Refusal::WrongTakeUps(_) => 6,
            Refusal::NoSuchNumber => 7,
            Refusal::NoSuchTables => 8,
            Refusal::CutShort => 9,
            Refusal::UnknownKind => 10,
            Refusal::WrongSize => 11,
            Refusal::NoRoom => 12,
            Refusal::RunTooLong => 13,
            Refusal::NotClosed => 14,
            Refusal::NoSuchOutline(_) => 15,
        }
    }

    // The beat or the line at fault, and 0 for a refusal that names none.
    pub fn place(self) -> u64
        ensures { result ≡ refusal_place self }
    {
        match self {
            Refusal::TooManyTasks => 0,
            Refusal::MoreDownThanUp => 0,
            Refusal::WrongLength => 0,
            Refusal::BadBeat(at) => at,
            Refusal::EmptyHand(at) => at,
            Refusal::WrongTakeUps(_) => 0,
            Refusal::NoSuchNumber => 0,
            Refusal::NoSuchTables => 0,
            Refusal::CutShort => 0,
            Refusal::UnknownKind => 0,
            Refusal::WrongSize => 0,
            Refusal::NoRoom => 0,
            Refusal::RunTooLong => 0,
            Refusal::NotClosed => 0,
            Refusal::NoSuchOutline(line) => line,
        }
    }

    // How many ones there are beyond those that were named, and 0 for a refusal that says nothing of them.
    pub fn surplus(self) -> i32
        ensures { result ≡ refusal_surplus self }
    {
        match self {
            Refusal::WrongTakeUps(surplus) => surplus,
            _ => 0,
        }
    }
}

// What a call says in numbers, whatever it gives where it is not refused: it answers a `Result` of that and its
// refusal.
pub trait Told {
    ghost said: { Self → Verdict };

    // The number of the refusal, and 0 of an accepted call.
    fn refusal(self) -> u64
        ensures { result ≡ answer.refusal (said self) };

    // The beat or the line at fault, and 0 where the refusal names none and of an accepted call.
    fn place(self) -> u64
        ensures { result ≡ answer.place (said self) };

    // How many ones there are beyond those that were named, and 0 of a call that says nothing of them. [Q3]
    fn surplus(self) -> i32
        ensures { result ≡ answer.surplus (said self) };
}

impl<T: Drop> Told for Result<T, Refusal> {
    ghost said = { answer.verdict };

    fn refusal(self) -> u64 {
        match self {
            Ok(_) => 0,
            Err(why) => why.number(),
        }
    }

    fn place(self) -> u64 {
        match self {
            Ok(_) => 0,
            Err(why) => why.place(),
        }
    }

    fn surplus(self) -> i32 {
        match self {
            Ok(_) => 0,
            Err(why) => why.surplus(),
        }
    }
}

// The number that a call gave, and 0 after a refusal. [R7]
pub fn value(told: Result<u64, Refusal>) -> u64
    ensures { result ≡ answer.value told }
{
    told.unwrap_or(0)
}
