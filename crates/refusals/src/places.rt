ghost use Rattle.std.specs.Prelude.{◌≡◌};
ghost use Rattle.refusals.specs.Places.{step_place_number, power_place_number};
ghost use Rattle.refusals.specs.Places.{format_place_number, row_place_number};

/// Where a book's step refuses (14), in the order of its tests.
#[derive(Clone, Copy, PartialEq, Eq, Debug)]
pub enum StepPlace {
    /// A procedure without a word, or item numbers that the procedure does not take.
    Items = 1,
    /// The amount is not from 1 to the ceiling.
    Amount = 2,
    /// A value before or after lies outside what the book allows.
    Values = 3,
}

/// The place that people see of refusal 14: the discriminant.
impl From<StepPlace> for u64 {
    ghost from_gives = { λ p n. n ≡ step_place_number p };

    fn from(place: StepPlace) -> u64 {
        place as u64
    }
}

/// Where power was lost (7), but for a change: places 1 to 3 are those that the journal gives.
#[derive(Clone, Copy, PartialEq, Eq, Debug)]
pub enum PowerPlace {
    /// The monitor was dark already: it lost power in an earlier call.
    Dark = 0,
    /// In format or attach.
    Starting = 4,
}

/// The place that people see of refusal 7: the discriminant.
impl From<PowerPlace> for u64 {
    ghost from_gives = { λ p n. n ≡ power_place_number p };

    fn from(place: PowerPlace) -> u64 {
        place as u64
    }
}

/// Which argument of format is at fault (16).
#[derive(Clone, Copy, PartialEq, Eq, Debug)]
pub enum FormatPlace {
    /// The house number is 0, or four bytes do not hold it.
    House = 1,
    /// The roll is not 128 bytes.
    Roll = 2,
    /// The opening is not 64 codes.
    Opening = 3,
}

/// The place that people see of refusal 16: the discriminant.
impl From<FormatPlace> for u64 {
    ghost from_gives = { λ p n. n ≡ format_place_number p };

    fn from(place: FormatPlace) -> u64 {
        place as u64
    }
}

/// Which argument of certify or strike is at fault (23), in the order of the tests.
#[derive(Clone, Copy, PartialEq, Eq, Debug)]
pub enum RowPlace {
    /// The row is above 31.
    Row = 1,
    /// The user is not from 1 to 15.
    User = 2,
    /// The procedure has no word.
    Procedure = 3,
    /// The role is neither 1 nor 2.
    Role = 4,
    /// The mask is 0.
    Mask = 5,
}

/// The place that people see of refusal 23: the discriminant.
impl From<RowPlace> for u64 {
    ghost from_gives = { λ p n. n ≡ row_place_number p };

    fn from(place: RowPlace) -> u64 {
        place as u64
    }
}
