ghost use Rattle.std.specs.Prelude.{◌≡◌, OnOk};
ghost use Rattle.refusals.specs.declared.reason.Reason.TheVariants.{BadRow};
ghost use Rattle.refusals.specs.Places.{row_place_number};
ghost use Rattle.applying.specs.Rows.{checked_row, InBytes};

use books::{Book, has_procedure};
use records::Certification;
use refusals::{Reason, Refusal, RowPlace};
use rights::{Role, Row};

/// What a certification is typed as: the row to fill, and what it is to hold, each any number of 64
/// bits.
#[derive(Clone, Copy, PartialEq, Eq, Debug)]
pub struct RowDraft {
    pub row: u64,
    pub user: u64,
    pub procedure: u64,
    pub role: u64,
    pub mask: u64,
}

/// What the row of a certification was typed as.
impl From<Certification> for RowDraft {
    ghost use Rattle.std.specs.Prelude.{◌≡◌};
    ghost use Rattle.applying.specs.Rows.{row_draft_of};

    ghost from_gives = { λ c d. d ≡ row_draft_of c };

    fn from(certification: Certification) -> RowDraft {
        RowDraft {
            row: u64::from(certification.row),
            user: u64::from(certification.user),
            procedure: u64::from(certification.procedure),
            role: u64::from(certification.role),
            mask: certification.mask,
        }
    }
}

/// A row that cannot be certified or struck, by what is at fault with it.
pub(crate) fn bad_row(place: RowPlace) -> Refusal
    ensures reason { result.reason ≡ BadRow }
    ensures place { result.place ≡ row_place_number place }
{
    Refusal::at(Reason::BadRow, place.into())
}

/// The row that a certification asks for, or what is at fault with it (refusal 23). The tests, in
/// this order: the row is at most 31, the user from 1 to 15, the book has the procedure, the role
/// is 1 or 2, and the mask is not 0.
pub fn check_row<B: Book>(book: &B, draft: RowDraft) -> Result<Row, Refusal>
    ensures value { result ≡ checked_row B.meaning draft }
    ensures in_bytes { OnOk result (InBytes draft) }
{
    if draft.row > 31 {
        return Err(bad_row(RowPlace::Row));
    }
    if !(1..=15).contains(&draft.user) {
        return Err(bad_row(RowPlace::User));
    }
    if !has_procedure(book, draft.procedure) {
        return Err(bad_row(RowPlace::Procedure));
    }
    let role = Role::try_from(draft.role).map_err(|_| bad_row(RowPlace::Role))?;
    if draft.mask == 0 {
        return Err(bad_row(RowPlace::Mask));
    }
    Ok(Row {
        user: draft.user as u8,
        procedure: draft.procedure as u8,
        role: role.into(),
        mask: draft.mask,
    })
}
