ghost use Rattle.std.specs.Prelude.{◌≡◌, Some, None, Ok, IfOk, IfErr};

use crate::arguments::Arguments;
use std::io::{Eprint, Read};
use std::rt::Files;
use std::{fs, io};

/// What came of a work on something with a name; where it failed, none, and the line
/// `PROGRAM: cannot WORK NAME: ERROR` is written to standard error. Where that line cannot be
/// written, the error of writing it.
pub fn told<R: Eprint, T>(
    rt: &R,
    program: &str,
    work: &str,
    name: &str,
    outcome: io::Result<T>,
) -> io::Result<Option<T>>
    ensures hands_on { IfOk outcome (λ value. result ≡ Ok (Some value)) }
    ensures answers_none { IfErr outcome (λ _. IfOk result (λ r. r ≡ None)) }
{
    match outcome {
        Ok(value) => Ok(Some(value)),
        Err(error) => {
            eprintln!(rt; "{program}: cannot {work} {name}: {error}")?;
            Ok(None)
        }
    }
}

/// The bytes of the file at a path; of a longer one the first `most`.
fn first_bytes<R: Files + AllocGlobal>(rt: &R, path: &str, most: u64) -> io::Result<Vec<u8>> {
    let mut bytes = Vec::new(rt.alloc());
    fs::open(rt, path)?.take(most).read_to_end(&mut bytes)?;
    Ok(bytes)
}

/// The bytes of the file that a word of the command line names; of a longer one the first `most`.
/// None where they cannot be had, which is told on standard error.
pub fn read_file<R: Files + AllocGlobal + Eprint>(
    rt: &R,
    program: &str,
    arguments: &Arguments,
    path: &str,
    most: u64,
) -> io::Result<Option<Vec<u8>>> {
    let read = arguments
        .check_name(path)
        .and_then(|()| first_bytes(rt, path, most));
    told(rt, program, "read", path, read)
}
