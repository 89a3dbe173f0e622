ghost use Rattle.std.specs.Prelude.{◌≡◌};
ghost use Rattle.journals.specs.Reported.{place_number};

/// Where a change lost power. Each case's discriminant is the place that people see of refusal 7.
/// What it says of the change is said of a journal that was ready before.
#[derive(Clone, Copy, PartialEq, Eq, Debug)]
pub enum CutPlace {
    /// Steps 1 and 2: while the slots were filled. The change never stands.
    Staging = 1,
    /// Steps 3 and 4: while the commit block was written. The change stands or not.
    Committing = 2,
    /// Steps 5 to 8: while the change was installed, which is to write the home blocks and then to
    /// zero the commit block. The change stands.
    Installing = 3,
}

/// The place that people see of a change that lost power: 1, 2 or 3.
impl From<CutPlace> for u64 {
    ghost from_gives = { λ p n. n ≡ place_number p };

    fn from(place: CutPlace) -> u64 {
        place as u64
    }
}
