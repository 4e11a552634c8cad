// Why a call is refused: the questions put to a call, each by the answer "no", and their numbers.
#![tactic(auto)]

ghost use Rattle.std.specs.Prelude.{◌≡◌};
ghost use Rattle.refusals.specs.Refusals.{number_of, needed_of, answer_number, answer_value};

// A variant for each question. That of 13 has the length that is needed.
#[derive(Clone, Copy, Debug, PartialEq, Eq)]
pub enum Refusal {
    UnknownCommand,
    MisplacedCommand,
    MissingOperands,
    BadSettings,
    ShortTable,
    NoOpening,
    OutOfRange,
    NoSuchPage,
    PageState,
    BadLength,
    BadSymbol,
    NoRoom,
    ShortOutput(u32),
    Unsound,
    Blank,
}

impl Refusal {
    // The number of the question that says no.
    pub fn number(self) -> u32
        ensures { result ≡ number_of self }
    {
        match self {
            Refusal::UnknownCommand => 1,
            Refusal::MisplacedCommand => 2,
            Refusal::MissingOperands => 3,
            Refusal::BadSettings => 4,
            Refusal::ShortTable => 5,
            Refusal::NoOpening => 6,
            Refusal::OutOfRange => 7,
            Refusal::NoSuchPage => 8,
            Refusal::PageState => 9,
            Refusal::BadLength => 10,
            Refusal::BadSymbol => 11,
            Refusal::NoRoom => 12,
            Refusal::ShortOutput(_) => 13,
            Refusal::Unsound => 14,
            Refusal::Blank => 15,
        }
    }

    // The length that is needed; 0 of any refusal but 13.
    pub fn needed(self) -> u32
        ensures { result ≡ needed_of self }
    {
        match self {
            Refusal::ShortOutput(needed) => needed,
            _ => 0,
        }
    }
}

// The number of the refusal, or 0: an answer without a value, for C.
pub fn answer_number(answer: Result<(), Refusal>) -> u32
    ensures { result ≡ answer_number answer }
{
    match answer {
        Ok(()) => 0,
        Err(refusal) => refusal.number(),
    }
}

// An answer with a value, for C: the number of the refusal, or 0; and the value, or the length that is needed.
pub fn number_and_value(answer: Result<u32, Refusal>) -> (u32, u32)
    ensures number { result.0 ≡ answer_number answer }
    ensures value { result.1 ≡ answer_value answer }
{
    match answer {
        Ok(value) => (0, value),
        Err(refusal) => (refusal.number(), refusal.needed()),
    }
}
