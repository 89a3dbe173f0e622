ghost use Rattle.std.specs.Prelude.{◌≡◌};
ghost use Rattle.notes.specs.Notes.{IsNote, noted};

use crate::note_numbers::NoteNumbers;
use books::{Book, Draft, has_procedure};
use refusals::{Reason, Refusal};
use std::marker::Model;

/// A note: a draft that passed its tests. It is entered once, and is no more than its numbers until
/// then.
#[derive(Drop)]
pub struct Note {
    kind: u8,
    procedure: u8,
    a: u8,
    b: u8,
    amount: u64,
}

impl Model for Note {
    ghost use Rattle.notes.specs.declared.note_numbers.NoteNumbers.{NoteNumbers};

    ghost Value = { NoteNumbers };

    ghost use Rattle.notes.specs.Notes.{IsNote, numbers_of};

    ghost view = { numbers_of };

    ghost invariant = { λ n. IsNote (numbers_of n) };
}

impl Note {
    /// The numbers of the note: two different items from 0 to 63, and an amount from 1 to
    /// 1,000,000,000.
    pub fn numbers(&self) -> NoteNumbers
        ensures value { result ≡ self.now }
        ensures is_note { IsNote result }
    {
        NoteNumbers {
            kind: self.kind,
            procedure: self.procedure,
            a: self.a,
            b: self.b,
            amount: self.amount,
        }
    }
}

/// Makes a note of a draft, or says which of its numbers is at fault. The tests, in this order: the
/// book has the procedure (else refusal 1), items a and b are at most 63 (2), they differ (3), and
/// the amount is from 1 to the book's ceiling (4). The place of the refusal is the number at fault.
pub fn make_note<B: Book>(book: &B, draft: Draft) -> Result<Note, Refusal>
    ensures value { result ≡ noted B.meaning draft }
{
    if !has_procedure(book, draft.procedure) {
        return Err(Refusal::at(Reason::NoSuchProcedure, draft.procedure));
    }
    if draft.a > 63 {
        return Err(Refusal::at(Reason::NoSuchNoteItem, draft.a));
    }
    if draft.b > 63 {
        return Err(Refusal::at(Reason::NoSuchNoteItem, draft.b));
    }
    if draft.b == draft.a {
        return Err(Refusal::at(Reason::SameItem, draft.b));
    }
    if !(1..=B::CEILING).contains(&draft.amount) {
        return Err(Refusal::at(Reason::BadAmount, draft.amount));
    }
    Ok(Note {
        kind: B::KIND,
        procedure: draft.procedure as u8,
        a: draft.a as u8,
        b: draft.b as u8,
        amount: draft.amount,
    })
}
