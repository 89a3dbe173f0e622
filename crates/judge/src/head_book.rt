ghost use Rattle.std.specs.Prelude.{◌≡◌, Some};
ghost use Rattle.judge.specs.HeadBook.{book_by_head};

use image::HEAD;
use layout::read_head;
use registry::BookName;
use std::fmt;

/// Why the head of an image names no book.
#[derive(Clone, Copy, PartialEq, Eq, Debug)]
pub(crate) enum NoBook {
    /// The image ends before the head's block, or in it.
    TooSmall,
    /// The head's block is no head.
    NoHead,
    /// No book has the kind that the head names.
    NoSuchKind(u8),
}

/// Where the head's block begins, in bytes.
const START: usize = HEAD as usize * 64;

/// The book whose kind the head of an image names, by the bytes of the image as they stand.
pub(crate) fn book_in_head(bytes: &[u8]) -> Result<BookName, NoBook>
    ensures value { result ≡ book_by_head bytes.now }
{
    if bytes.len() < START + 64 {
        return Err(NoBook::TooSmall);
    }
    let mut block = [0; 64];
    block.copy_from_slice(&bytes[START..START + 64]);
    let Some(head) = read_head(&block) else {
        return Err(NoBook::NoHead);
    };
    BookName::of_kind(head.kind).ok_or(NoBook::NoSuchKind(head.kind))
}

/// Why it names none, in words.
impl fmt::Display for NoBook {
    ghost use Rattle.judge.specs.HeadBook.{no_book_text};

    ghost output = { λ x. Some (no_book_text x) };

    fn fmt<W: fmt::Write>(&self, f: &mut fmt::Formatter<W>) -> fmt::Result {
        match *self {
            NoBook::TooSmall => f.write_str("it has no block 7, where the head stands"),
            NoBook::NoHead => f.write_str("block 7 is no head"),
            NoBook::NoSuchKind(kind) => write!(f, "no book is of kind {kind}, as its head says"),
        }
    }
}
