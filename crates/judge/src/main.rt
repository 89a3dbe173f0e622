// `judge`: takes images of drives as files, finishes each in memory, and prints the verdict:
// accepted, with its count and its audit, or the refusal with number, layer and place. The files
// are only read.
#![tactic(auto)]

ghost use Rattle.std.specs.Prelude.{⊤};

mod head_book;

use books::Book;
use clap::{Arg, ArgAction, Command};
use files::{Arguments, read_file};
use head_book::book_in_head;
use image::{inspect, record_block};
use journals::Journal;
use records::{Record, decode};
use registry::{BookName, BookVisitor};
use reports::AuditTable;
use std::alloc::{AllocError, Global};
use std::process::ExitCode;
use trial::TrialDrive;

/// What stands behind the options in the help.
const MORE: &str =
    "A WORD is a file; `ledger` or `stock` is no file, but the book of the files behind
it. Of a file with no such word before it the image's own head names the book.
Nothing is written back. docs/IMAGE.md has the form of an image.

Status: 0 when every image was accepted; 1 when one was refused or could not be
read; 2 when the options are wrong.";

/// The command line of the program.
fn command<'a>(heap: Global) -> Result<Command<'a>, AllocError> {
    let words = Arg::new(heap, "word")
        .value_name("WORD")
        .action(ArgAction::Append)
        .num_args(1..)
        .required(true)
        .help("The image of a drive in a file, or the name of a book");
    Command::new(heap, "judge")
        .version("0.2.0")
        .about("Judges images of drives: accepted, with the audit, or refused, and why")
        .after_help(MORE)
        .arg(words)
}

/// The records of an image that was accepted, which are so many. One that cannot be read is left
/// out.
fn read_records(
    heap: Global,
    journal: &Journal<TrialDrive>,
    count: u64,
) -> anyhow::Result<Vec<Record>> {
    let mut records = Vec::new(heap);
    for number in 1..=u32::try_from(count)? {
        let Ok(block) = journal.read(record_block(number)) else {
            continue;
        };
        if let Some(record) = decode(&block, number) {
            records.push(record)?;
        }
    }
    Ok(records)
}

/// An image that is to be judged, and the name of its file.
#[derive(Drop)]
struct Image<'a, 'b> {
    rt: &'a HostRuntime,
    name: &'a str,
    book: BookName,
    bytes: &'b mut [u8],
}

impl BookVisitor for Image<'_, '_> {
    type Output = anyhow::Result<bool>;

    ghost visit_gives = { λ image m given. ⊤ };

    /// Prints the verdict on the image as that of a drive that keeps the book, and its audit.
    /// Whether it was accepted.
    fn visit<B: Book + Copy + Drop>(self, book: B) -> anyhow::Result<bool> {
        let rt = self.rt;
        let name = self.name;
        let mut journal = Journal::over(TrialDrive::over(self.bytes, &[]));
        match inspect(&mut journal, &book) {
            Ok(count) => {
                println!(rt; "{name}: accepted, records: {count}")?;
                let records = read_records(rt.alloc(), &journal, count)?;
                let table = AuditTable {
                    book: self.book,
                    records: records.as_slice(),
                };
                rt.println(table)?;
                Ok(true)
            }
            Err(refusal) => {
                println!(rt; "{name}: {refusal}")?;
                Ok(false)
            }
        }
    }
}

/// Judges one file as the image of a drive that keeps this book, or else the book that its own head
/// names. Whether it was accepted: not, where it could not be read, which is told on standard error.
fn judge_file(
    rt: &HostRuntime,
    arguments: &Arguments,
    chosen: Option<BookName>,
    path: &str,
) -> anyhow::Result<bool> {
    let Some(mut bytes) = read_file(rt, "judge", arguments, path, u64::MAX)? else {
        return Ok(false);
    };
    let bytes = bytes.as_mut_slice();
    if let Some(book) = chosen {
        let name = path;
        return book.accept(Image {
            rt,
            name,
            book,
            bytes,
        });
    }
    match book_in_head(bytes) {
        Ok(book) => {
            let name = format!(in rt.alloc(); "{path}: book {}", book.name())?;
            let name = name.as_str();
            book.accept(Image {
                rt,
                name,
                book,
                bytes,
            })
        }
        Err(why) => {
            println!(rt; "{path}: book unknown: {why}")?;
            Ok(false)
        }
    }
}

/// Judges the files that the words name, each as an image of the last book named before it. Whether
/// all were accepted.
fn judge_all(rt: &HostRuntime, arguments: &Arguments, words: &[&str]) -> anyhow::Result<bool> {
    let mut book = None;
    let mut all = true;
    for word in words {
        if let Some(named) = BookName::named(word.as_bytes()) {
            book = Some(named);
        } else if !judge_file(rt, arguments, book, word)? {
            all = false;
        }
    }
    Ok(all)
}

fn main(rt: HostRuntime) -> anyhow::Result<ExitCode> {
    let arguments = Arguments::of(&rt)?;
    let matches = match command(rt.alloc())?.try_get_matches_from(arguments.words.as_slice()) {
        Ok(matches) => matches,
        Err(error) => {
            error.print(&rt)?;
            return Ok(ExitCode::from(error.exit_code() as u8));
        }
    };
    let words = matches.get_strs("word").unwrap_or(&[]);
    if words
        .iter()
        .all(|word| BookName::named(word.as_bytes()).is_some())
    {
        // Books, and no image to judge: what the words are for.
        rt.print(command(rt.alloc())?.render_help()?.as_str())?;
        return Ok(ExitCode::SUCCESS);
    }
    Ok(if judge_all(&rt, &arguments, words)? {
        ExitCode::SUCCESS
    } else {
        ExitCode::FAILURE
    })
}
