ghost use Rattle.day.specs.Days.{DaysAreLawful};

/// A theorem: days one after another on one drive, however many, each on what the one before it
/// left, are one history, and the law holds of it at every moment.
pub fn days_are_lawful() -> bool
    ensures holds { DaysAreLawful }
{
    true
}
