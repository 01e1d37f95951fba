// Why a fragment, a paper or another input is refused: the verdict numbers with their figures.

#![tactic(auto)]

ghost use Rattle.std.specs.Prelude.{◌≡◌, ℕ};
ghost use Rattle.definition.specs.Refusals.{refused_at};
ghost use Rattle.refusals.specs.View.{refusal_of, answer_in, numbers_of};

/// A reason to refuse, with those of its figures that are not fixed.
#[derive(Clone, Copy, Debug, PartialEq, Eq)]
pub enum Refusal {
    LongFragment { length: usize },
    StartTooLarge { sum: u64, limit: u32 },
    Malformed,
    ShortLog { needed: u64, lent: usize },
    Nesting,
    StacksFull { wanted: u32, limit: u32 },
    MainDry { needed: u64, had: u32 },
    AltDry,
    BadIndex,
    BadTag,
    Unmodelled { opcode: u8 },
    ArmsDiffer,
    StrayElse,
    SecondElse,
    StrayEndif,
    OpenIf,
    OpcodeCount { count: u64 },
    ScriptSize { length: usize },
    BadHeader,
    DispatchTooLarge { sum: u32, limit: u32 },
    LongPaper { length: usize },
    TallyFull,
    BadSitting,
    CrookedNumber,
    NegativeIndex,
    StrangeWord,
    OutputShort,
    BadMap,
    BadLimit,
    LongElement { size: usize },
}

impl Refusal {
    /// The verdict number.
    pub fn number(self) -> u32
        ensures { (at : ℕ) → (refused_at at (refusal_of self)).number ≡ result }
    {
        match self {
            Refusal::LongFragment { .. } => 1,
            Refusal::StartTooLarge { .. } => 2,
            Refusal::Malformed => 3,
            Refusal::ShortLog { .. } => 4,
            Refusal::Nesting => 5,
            Refusal::StacksFull { .. } => 6,
            Refusal::MainDry { .. } => 7,
            Refusal::AltDry => 8,
            Refusal::BadIndex => 9,
            Refusal::BadTag => 10,
            Refusal::Unmodelled { .. } => 11,
            Refusal::ArmsDiffer => 12,
            Refusal::StrayElse => 13,
            Refusal::SecondElse => 14,
            Refusal::StrayEndif => 15,
            Refusal::OpenIf => 16,
            Refusal::OpcodeCount { .. } => 17,
            Refusal::ScriptSize { .. } => 18,
            Refusal::BadHeader => 19,
            Refusal::DispatchTooLarge { .. } => 20,
            Refusal::LongPaper { .. } => 21,
            Refusal::TallyFull => 22,
            Refusal::BadSitting => 23,
            Refusal::CrookedNumber => 24,
            Refusal::NegativeIndex => 25,
            Refusal::StrangeWord => 26,
            Refusal::OutputShort => 27,
            Refusal::BadMap => 28,
            Refusal::BadLimit => 29,
            Refusal::LongElement { .. } => 30,
        }
    }

    /// The first figure, 0 where the number has none.
    pub fn first(self) -> u64
        ensures { (at : ℕ) → (refused_at at (refusal_of self)).first ≡ result }
    {
        match self {
            Refusal::LongFragment { length } => length as u64,
            Refusal::StartTooLarge { sum, .. } => sum,
            Refusal::ShortLog { needed, .. } => needed,
            Refusal::Nesting => 24,
            Refusal::StacksFull { wanted, .. } => u64::from(wanted),
            Refusal::MainDry { needed, .. } => needed,
            Refusal::Unmodelled { opcode } => u64::from(opcode),
            Refusal::OpcodeCount { count } => count,
            Refusal::ScriptSize { length } => length as u64,
            Refusal::DispatchTooLarge { sum, .. } => u64::from(sum),
            Refusal::LongPaper { length } => length as u64,
            Refusal::LongElement { size } => size as u64,
            _ => 0,
        }
    }

    /// The second figure, 0 where the number has none.
    pub fn second(self) -> u64
        ensures { (at : ℕ) → (refused_at at (refusal_of self)).second ≡ result }
    {
        match self {
            Refusal::LongFragment { .. } => 10000,
            Refusal::StartTooLarge { limit, .. } => u64::from(limit),
            Refusal::ShortLog { lent, .. } => lent as u64,
            Refusal::Nesting => 24,
            Refusal::StacksFull { limit, .. } => u64::from(limit),
            Refusal::MainDry { had, .. } => u64::from(had),
            Refusal::OpcodeCount { .. } => 201,
            Refusal::ScriptSize { .. } => 10000,
            Refusal::DispatchTooLarge { limit, .. } => u64::from(limit),
            Refusal::LongPaper { .. } => 8000,
            Refusal::LongElement { .. } => 520,
            _ => 0,
        }
    }
}

/// A refusal, and the offset of the instruction that it is about: 0 where it is about none.
#[derive(Clone, Copy, Debug, PartialEq, Eq)]
pub struct Refused {
    pub offset: usize,
    pub refusal: Refusal,
}

impl From<Refusal> for Refused {
    ghost from_gives = { λ refusal refused. refused ≡ record { offset = 0; refusal = refusal } };

    fn from(refusal: Refusal) -> Refused {
        Refused { offset: 0, refusal }
    }
}

/// An answer in numbers: the verdict number, the offset and the two figures, all 0 where nothing is refused.
// Numbers, and no `Result`: it is what C callers read, and what is printed.
#[derive(Clone, Copy, Debug, PartialEq, Eq)]
pub struct Answer {
    pub number: u32,
    pub offset: usize,
    pub first: u64,
    pub second: u64,
}

impl From<Result<(), Refused>> for Answer {
    ghost from_gives = { λ outcome answer. numbers_of answer ≡ answer_in outcome };

    fn from(outcome: Result<(), Refused>) -> Answer {
        match outcome {
            Ok(()) => Answer {
                number: 0,
                offset: 0,
                first: 0,
                second: 0,
            },
            Err(Refused { offset, refusal }) => Answer {
                number: refusal.number(),
                offset,
                first: refusal.first(),
                second: refusal.second(),
            },
        }
    }
}
