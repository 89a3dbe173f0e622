ghost use Rattle.std.specs.Prelude.{◌≡◌, [], option_map, unwrap_or};
ghost use Rattle.reports.specs.Texts.{kind_name, procedure_of, word_in};

use records::Record;
use registry::BookName;

/// The name of a record's kind.
pub(crate) fn kind_of(entry: Record) -> &'static str
    ensures value { result.now ≡ kind_name entry }
{
    match entry {
        Record::Posting(_) => "posting",
        Record::Certification(_) => "certification",
        Record::Strike { .. } => "strike",
    }
}

/// The procedure of a record, if it has one.
pub(crate) fn procedure_in(entry: Record) -> Option<u64>
    ensures value { result ≡ procedure_of entry }
{
    match entry {
        Record::Posting(posting) => Some(posting.procedure.into()),
        Record::Certification(certification) => Some(certification.procedure.into()),
        Record::Strike { .. } => None,
    }
}

/// The word of a record's procedure in a book, if it has one.
pub(crate) fn word_of(book: BookName, entry: Record) -> Option<&'static str>
    ensures value { option_map (λ x. x.now) result ≡ word_in book entry }
{
    book.word(procedure_in(entry)?)
}

/// The same word, or nothing where it has none.
pub(crate) fn word_or_nothing(book: BookName, entry: Record) -> &'static str
    ensures value { result.now ≡ unwrap_or (word_in book entry) [] }
{
    word_of(book, entry).unwrap_or("")
}
