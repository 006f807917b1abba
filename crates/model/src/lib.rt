// The types that the calls share, and the row of the class table. What they mean is in specs/, each
// definition under the sentence of the scope document that it renders; the laws of those definitions
// are in proofs/.
#![tactic(auto)]

ghost use Rattle.std.specs.Prelude.{◌≡◌};
ghost use Rattle.model.specs.Refusals.{number_of, answered};

// Why a call is refused, in the order in which the tests are made. `number_of` of specs/Refusals.antt
// has the number of each.
#[derive(Clone, Copy)]
pub enum Refusal {
    BadBuffers,
    Damaged,
    WrongPhase,
    BadStack,
    BadSlot,
    BadSize,
    NilSlot,
    BadField,
    NoRoom,
    Unfinished,
}

impl Refusal {
    // The number by which callers know it.
    pub fn number(self) -> u64
        ensures { result ≡ number_of self }
    {
        match self {
            Refusal::BadBuffers => 1,
            Refusal::Damaged => 12,
            Refusal::WrongPhase => 2,
            Refusal::BadStack => 3,
            Refusal::BadSlot => 4,
            Refusal::BadSize => 5,
            Refusal::NilSlot => 6,
            Refusal::BadField => 7,
            Refusal::NoRoom => 9,
            Refusal::Unfinished => 10,
        }
    }
}

// What an accepted call tells: nothing, one value, or what a sweep step did, that is start page + 1,
// elements freed and pages returned.
#[derive(Clone, Copy)]
pub enum Accepted {
    Done,
    Value(u64),
    Swept(u64, u64, u64),
}

// What a call answers, with a refusal by its number, as the definitions have it. `numbers` of
// specs/Answers.antt lists the number and the values of each case.
#[derive(Clone, Copy)]
pub enum Answer {
    // A refusal, by its number.
    Refused(u64),
    // Accepted, with nothing to tell.
    Done,
    // Accepted, with one value.
    Value(u64),
    // A sweep step: start page + 1, elements freed, pages returned.
    Swept(u64, u64, u64),
}

impl From<Result<Accepted, Refusal>> for Answer {
    ghost from_gives = { λ given answer. answer ≡ answered given };

    fn from(given: Result<Accepted, Refusal>) -> Answer {
        match given {
            Err(refusal) => Answer::Refused(refusal.number()),
            Ok(Accepted::Done) => Answer::Done,
            Ok(Accepted::Value(v)) => Answer::Value(v),
            Ok(Accepted::Swept(start, freed, returned)) => Answer::Swept(start, freed, returned),
        }
    }
}

// What is asked of a heap, with the call's numbers in the order of the trace line. What each call does
// is `does` of specs/Calls.antt.
#[derive(Clone, Copy)]
pub enum Call {
    Setup,
    Audit,
    Open(u64),
    Close(u64),
    Allocate(u64, u64, u64, u64),
    Copy(u64, u64, u64),
    Clear(u64, u64),
    Load(u64, u64, u64, u64),
    Store(u64, u64, u64, u64),
    Put(u64, u64, u64, u64),
    Get(u64, u64, u64),
    LoadGlobal(u64, u64, u64),
    StoreGlobal(u64, u64, u64),
    Start,
    ScanStack(u64),
    ScanGlobals,
    MarkStep,
    Finish,
    SweepStep,
}

// One row of the size class table: the bytes of an element and of a span.
#[derive(Clone, Copy)]
pub struct ClassRow {
    pub element: u64,
    pub span: u64,
}
