// `sweep`: runs the day of each script with every cut number that falls inside it, once with the
// write that loses power not landing and once landing, then attaches and looks at every item and
// record: each must be what the tally of the calls and answers holds. Then it damages the image
// that the whole day leaves, one byte at a time, and judges it.
#![tactic(auto)]

ghost use Rattle.std.specs.Prelude.{⊤};

mod cut_sweep;
mod damage;
mod days;
mod ends;
mod tally;
mod tray;

use books::Book;
use cut_sweep::CutSweep;
use damage::sweep_damage;
use files::{Arguments, read_file};
use registry::BookVisitor;
use script::{Script, read_script};
use std::process::ExitCode;

/// A script whose day is to be swept, in the book that it chooses.
#[derive(Clone, Copy)]
struct SweepVisitor<'a> {
    rt: &'a HostRuntime,
    script: &'a Script<'a>,
}

impl BookVisitor for SweepVisitor<'_> {
    type Output = anyhow::Result<()>;

    ghost visit_gives = { λ sweep m given. ⊤ };

    /// All sweeps of the script, in this book: power lost at every point, and a byte changed.
    fn visit<B: Book + Copy + Drop>(self, book: B) -> anyhow::Result<()> {
        let SweepVisitor { rt, script } = self;
        let mut sweep = CutSweep::new(rt.alloc(), book, script)?;
        for lands in [false, true] {
            sweep.run_all(lands)?.print(rt, lands)?;
        }
        sweep.run(&[])?;
        print_damage(rt, &book, sweep.bytes())
    }
}

/// Damages the image that bytes are, and prints how each was judged.
fn print_damage<B: Book>(rt: &HostRuntime, book: &B, bytes: &[u8]) -> anyhow::Result<()> {
    let mut scratch = vec![in rt.alloc(); 0; bytes.len()]?;
    let verdicts = sweep_damage(book, bytes, scratch.as_mut_slice());
    println!(rt;
        "  one byte changed, {} images: still lawful {}",
        bytes.len(),
        verdicts.lawful
    )?;
    for (number, count) in verdicts.refused.iter().enumerate() {
        if *count > 0 {
            println!(rt; "    refused by {number}: {count}")?;
        }
    }
    Ok(())
}

/// All sweeps of a script, in the book that it chooses.
fn sweep_script(rt: &HostRuntime, script: &Script) -> anyhow::Result<()> {
    match script.setup.book {
        Some(book) => book.accept(SweepVisitor { rt, script }),
        None => Ok(rt.println("  no book")?),
    }
}

fn main(rt: HostRuntime) -> anyhow::Result<ExitCode> {
    let arguments = Arguments::of(&rt)?;
    for path in arguments.words.iter().skip(1) {
        let path = path.as_str();
        let Some(text) = read_file(&rt, "sweep", &arguments, path, u64::MAX)? else {
            return Ok(ExitCode::FAILURE);
        };
        let script = read_script(rt.alloc(), text.as_slice())?;
        println!(rt; "{path}")?;
        sweep_script(&rt, &script)?;
    }
    Ok(ExitCode::SUCCESS)
}
