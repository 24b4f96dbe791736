// The documents' refusals with their numbers, and which of them comes first: each is looked at only when the earlier ones don't apply.
#![tactic(auto)]

ghost use Rattle.std.specs.Prelude.{◌≡◌};
ghost use Rattle.refusals.specs.Numbers.{number_of, first_number};
ghost use Rattle.refusals.specs.Order.{first_reading, first_executing};

// Document 01's refusals of reading, then of writing and executing; then those of document 02's requests.
#[derive(Clone, Copy)]
pub enum Refusal {
    LineTooLong,
    NoShape,
    NoOpcode,
    NoRow,
    NoFit,
    OutOfFile,
    SamePair,
    NotLegal,
    TooShort,
    WrongSizes,
    WrongPreds,
    // T-07
    TargetTooOld,
    // T-09
    AgainstItself,
    // T-13
    LowerPass,
    TallyFull,
    NotTally,
    // T-11
    ListingTooLong,
}

impl Refusal {
    // The documents' number.
    pub fn number(self) -> u8
        ensures { result ≡ number_of self }
    {
        match self {
            Refusal::LineTooLong => 1,
            Refusal::NoShape => 2,
            Refusal::NoOpcode => 3,
            Refusal::NoRow => 4,
            Refusal::NoFit => 5,
            Refusal::OutOfFile => 6,
            Refusal::SamePair => 7,
            Refusal::NotLegal => 8,
            Refusal::TooShort => 9,
            Refusal::WrongSizes => 10,
            Refusal::WrongPreds => 11,
            Refusal::TargetTooOld => 12,
            Refusal::AgainstItself => 15,
            Refusal::LowerPass => 19,
            Refusal::TallyFull => 20,
            Refusal::ListingTooLong => 22,
            Refusal::NotTally => 23,
        }
    }
}

// The first refusal of reading that applies.
pub fn reading(
    too_long: bool,
    no_shape: bool,
    no_opcode: bool,
    no_row: bool,
    no_fit: bool,
    out_of_file: bool,
    same_pair: bool,
    too_old: bool,
    against_itself: bool,
) -> Option<Refusal>
    ensures { first_number result ≡ first_reading too_long no_shape no_opcode no_row no_fit out_of_file same_pair too_old against_itself }
{
    if too_long {
        Some(Refusal::LineTooLong)
    } else if no_shape {
        Some(Refusal::NoShape)
    } else if no_opcode {
        Some(Refusal::NoOpcode)
    } else if no_row {
        Some(Refusal::NoRow)
    } else if no_fit {
        Some(Refusal::NoFit)
    } else if out_of_file {
        Some(Refusal::OutOfFile)
    } else if same_pair {
        Some(Refusal::SamePair)
    } else if too_old {
        Some(Refusal::TargetTooOld)
    } else if against_itself {
        Some(Refusal::AgainstItself)
    } else {
        None
    }
}

// The first refusal of executing that applies.
pub fn executing(
    illegal: bool,
    not_allowed: bool,
    wrong_sizes: bool,
    wrong_preds: bool,
) -> Option<Refusal>
    ensures { first_number result ≡ first_executing illegal not_allowed wrong_sizes wrong_preds }
{
    if illegal {
        Some(Refusal::NotLegal)
    } else if not_allowed {
        Some(Refusal::TargetTooOld)
    } else if wrong_sizes {
        Some(Refusal::WrongSizes)
    } else if wrong_preds {
        Some(Refusal::WrongPreds)
    } else {
        None
    }
}
