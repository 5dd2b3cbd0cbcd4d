// Reading items at positions of a file: the reasons to turn a call down, and each item with its tests.
#![tactic(auto)]

ghost use Rattle.std.specs.Prelude.{◌≡◌};
ghost use Rattle.reading.specs.Reasons.{number_of};

pub mod item;

// Why a call is turned down. The rules' number of each is in specs/Reasons.antt.
#[derive(Clone, Copy, Debug, PartialEq, Eq)]
pub enum Reason {
    WrongKind,
    EndsEarly,
    OverLimit,
    ForbiddenBit,
    EmptyField,
    AbsentMember,
    LongName,
    TrailingBytes,
    OutOfRange,
    ShortBuffer,
    FalsePartition,
    LiveOutsideFile,
    BadGoal,
    NoSelection,
    NoPlan,
    NameNotFound,
    HighRate,
    OrderOutsideFile,
}

// A reason, and the place that the rules give it.
#[derive(Clone, Copy, Debug, PartialEq, Eq)]
pub struct Refusal {
    pub reason: Reason,
    pub place: usize,
}

impl Reason {
    // A refusal for this reason.
    pub fn at(self, place: usize) -> Refusal
        ensures { result ≡ record { reason = self; place = place } }
    {
        Refusal {
            reason: self,
            place,
        }
    }
}

// Where the bytes of a name are in a file: 0 and 0 if there is none.
#[derive(Clone, Copy)]
pub struct Spot {
    pub start: usize,
    pub len: usize,
}

// The rules' number of a reason.
impl From<Reason> for u32 {
    ghost from_gives = { λ reason number. number ≡ number_of reason };

    fn from(reason: Reason) -> u32 {
        match reason {
            Reason::WrongKind => 1,
            Reason::EndsEarly => 2,
            Reason::OverLimit => 3,
            Reason::ForbiddenBit => 4,
            Reason::EmptyField => 5,
            Reason::AbsentMember => 6,
            Reason::LongName => 7,
            Reason::TrailingBytes => 8,
            Reason::OutOfRange => 9,
            Reason::ShortBuffer => 10,
            Reason::FalsePartition => 11,
            Reason::LiveOutsideFile => 12,
            Reason::BadGoal => 13,
            Reason::NoSelection => 14,
            Reason::NoPlan => 15,
            Reason::NameNotFound => 16,
            Reason::HighRate => 17,
            Reason::OrderOutsideFile => 18,
        }
    }
}
