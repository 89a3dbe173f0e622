ghost use Rattle.std.specs.Prelude.{◌≡◌};
ghost use Rattle.std.specs.Option.{option_map};
ghost use Rattle.script.specs.Misfit.{slots_value, slots_behind, command_slots};

use crate::slot::Slot;
use registry::BookName;

/// The slots of a form behind its first word.
#[derive(Clone, Copy)]
pub(crate) enum Slots {
    /// One word for each slot.
    InOrder(&'static [Slot]),
    /// Any number of words for one slot.
    Repeated(Slot),
}

/// The slots of the command of this name.
fn command_slots(name: &[u8]) -> Option<Slots>
    ensures value { option_map slots_value result ≡ command_slots name.now }
{
    use Slot::{Name, Number, Procedure};
    let slots: &'static [Slot] = if name == b"note".as_slice() {
        &[Procedure, Number, Number, Number]
    } else if name == b"enter".as_slice() {
        &[Name, Number, Name, Procedure, Number, Number, Number]
    } else if name == b"countersign".as_slice() {
        &[Name, Number, Name]
    } else if name == b"withdraw".as_slice() {
        &[Name]
    } else if name == b"certify".as_slice() {
        &[Name, Number, Number, Procedure, Number, Number]
    } else if name == b"strike".as_slice() {
        &[Name, Number]
    } else if name == b"item".as_slice()
        || name == b"record".as_slice()
        || name == b"format".as_slice()
    {
        &[Number]
    } else if name == b"attach".as_slice() {
        &[]
    } else {
        return None;
    };
    Some(Slots::InOrder(slots))
}

impl Slots {
    /// The slots of the form whose first word this is, under the book that is chosen above the
    /// line; none where it is the first word of no form. A command needs a book.
    pub(crate) fn behind(book: Option<BookName>, name: &[u8]) -> Option<Slots>
        ensures value { option_map slots_value result ≡ slots_behind book name.now }
    {
        if name == b"book".as_slice() {
            Some(Slots::InOrder(&[Slot::Book]))
        } else if name == b"house".as_slice() {
            Some(Slots::InOrder(&[Slot::Number]))
        } else if name == b"roll".as_slice() {
            Some(Slots::Repeated(Slot::Name))
        } else if name == b"opening".as_slice() {
            Some(Slots::Repeated(Slot::Number))
        } else if name == b"cuts".as_slice() {
            Some(Slots::Repeated(Slot::Cut))
        } else if book.is_some() {
            command_slots(name)
        } else {
            None
        }
    }

    ghost use Rattle.script.specs.Misfit.{next_slot, slot_and_rest};

    /// The slot of the next word, and the slots behind it; none where no word may follow.
    pub(crate) fn next_slot(self) -> Option<(Slot, Slots)>
        ensures value { option_map slot_and_rest result ≡ next_slot (slots_value self) }
    {
        match self {
            Slots::InOrder(slots) => {
                let (first, rest) = slots.split_first()?;
                Some((*first, Slots::InOrder(rest)))
            }
            Slots::Repeated(slot) => Some((slot, self)),
        }
    }
}
