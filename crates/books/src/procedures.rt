ghost use Rattle.std.specs.Prelude.{◌≡◌};
ghost use Rattle.books.specs.Meaning.{has_procedure as in_meaning};
ghost use Rattle.books.specs.Words.{word_of, is_word, procedure_of_word};

use crate::book::Book;

/// Whether a book has a word for a procedure.
pub fn has_procedure<B: Book>(book: &B, procedure: u64) -> bool
    ensures value { result ≡ in_meaning B.meaning procedure }
{
    (1..=book.procedures()).contains(&procedure)
}

/// Whether this is the word of a procedure.
fn is_word_of<B: Book>(book: &B, procedure: u64, word: &[u8]) -> bool
    ensures value { result ≡ is_word (word_of B.meaning.words procedure) word.now }
{
    book.word(procedure)
        .is_some_and(|name| name.as_bytes() == word)
}

/// The procedure that a word names in a book, if it names one.
pub fn procedure_named<B: Book>(book: &B, word: &[u8]) -> Option<u64>
    ensures value { result ≡ procedure_of_word B.meaning.words word.now }
{
    // Not `1..=`: the check does not find what a `find` over such a range gives.
    (1..book.procedures() + 1).find(|procedure| is_word_of(book, *procedure, word))
}
