// `house`: reads scripts from files or from standard input, and prints the replies to each and the
// audit at its end. With an image file it keeps the drive in it from run to run. What it answers is
// the crate `day`'s; here is only reading, keeping and printing.
#![tactic(auto)]

mod help;

use clap::{Arg, ArgAction, Command};
use day::{Outcome, Start, run_script, run_script_on};
use files::{Arguments, ImageFile, read_file, told};
use help::FORMS;
use script::{Fault, LONGEST};
use std::alloc::{AllocError, Global};
use std::io;
use std::io::Read;
use std::process::ExitCode;

/// So much of a script is read: one byte more than the longest has, so that a longer one is told.
const MOST: u64 = LONGEST as u64 + 1;

/// The command line of the program.
fn command<'a>(heap: Global) -> Result<Command<'a>, AllocError> {
    let image = Arg::new(heap, "image")
        .short('i')
        .long("image")
        .value_name("FILE")
        .help("Keep the rig's drive in FILE, and go on from what stands there");
    let scripts = Arg::new(heap, "script")
        .value_name("SCRIPT")
        .action(ArgAction::Append)
        .num_args(0..)
        .help("A script; standard input for '-', and where none is named");
    Command::new(heap, "house")
        .version("0.2.0")
        .about("Answers scripts: what a rig's monitor says to each call, and the audit at the end")
        .after_help(FORMS)
        .arg(image)?
        .arg(scripts)
}

/// The first bytes of standard input.
fn read_input(rt: &HostRuntime) -> io::Result<Vec<u8>> {
    let mut bytes = Vec::new(rt.alloc());
    rt.stdin().take(MOST).read_to_end(&mut bytes)?;
    Ok(bytes)
}

/// The script that a word of the command line names: a file, or standard input for `-`. None where
/// it cannot be read, which is told on standard error.
fn read_named(rt: &HostRuntime, arguments: &Arguments, name: &str) -> io::Result<Option<Vec<u8>>> {
    if name == "-" {
        told(rt, "house", "read", "standard input", read_input(rt))
    } else {
        read_file(rt, "house", arguments, name, MOST)
    }
}

/// Prints what a script came to: its name if it is one of several, a line for each reply, the line
/// that no form fits with what does not fit, and the audit.
fn print_outcome(rt: &HostRuntime, name: Option<&str>, outcome: &Outcome) -> io::Result<()> {
    if let Some(name) = name {
        println!(rt; "== {name}")?;
    }
    for reply in &outcome.replies {
        rt.println(reply)?;
    }
    if let Some(Fault::BadLine(bad_line)) = &outcome.fault {
        rt.println(bad_line)?;
    }
    if let Some(audit) = &outcome.audit {
        rt.println(audit)?;
    }
    Ok(())
}

/// Answers each script in turn, on a rig of its own. Whether all could be read.
fn answer_each(rt: &HostRuntime, arguments: &Arguments, names: &[&str]) -> anyhow::Result<bool> {
    let mut all = true;
    for name in names {
        let Some(text) = read_named(rt, arguments, name)? else {
            all = false;
            continue;
        };
        let outcome = run_script(rt.alloc(), text.as_slice())?;
        print_outcome(rt, (names.len() > 1).then_some(name), &outcome)?;
    }
    Ok(all)
}

/// Runs a script on the drive that an image file keeps, and keeps there what the day leaves: where
/// there is no file yet, on a new drive. What stayed blank is not kept. None where the file cannot
/// be read or kept, which is told on standard error.
fn run_kept<'a>(
    rt: &HostRuntime,
    image: &ImageFile,
    text: &'a [u8],
) -> anyhow::Result<Option<Outcome<'a>>> {
    let Some(kept) = told(rt, "house", "read", image.path.as_str(), image.read(rt))? else {
        return Ok(None);
    };
    let outcome = match kept {
        Some(bytes) => run_script_on(rt.alloc(), Start::Attach, bytes, text)?,
        None => run_script(rt.alloc(), text)?,
    };
    if let Some(drive) = &outcome.drive {
        let drive = drive.as_slice();
        if drive.iter().any(|byte| *byte != 0) {
            let replaced = image.replace(rt, drive);
            if told(rt, "house", "keep", image.path.as_str(), replaced)?.is_none() {
                return Ok(None);
            }
        }
    }
    Ok(Some(outcome))
}

/// Answers each script in turn, all on the drive that an image file keeps. All are read before the
/// first is run, and what one leaves is kept before it is answered. Whether all could be read and
/// kept: nothing is run where one cannot be read, and nothing further where one cannot be kept.
fn answer_on_image(
    rt: &HostRuntime,
    arguments: &Arguments,
    image: &str,
    names: &[&str],
) -> anyhow::Result<bool> {
    let mut texts = Vec::new(rt.alloc());
    for name in names {
        if let Some(text) = read_named(rt, arguments, name)? {
            texts.push(text)?;
        }
    }
    if texts.len() < names.len() {
        return Ok(false);
    }
    let locked = ImageFile::lock(rt, arguments, image);
    let Some(file) = told(rt, "house", "use", image, locked)? else {
        return Ok(false);
    };
    for (name, text) in names.iter().zip(&texts) {
        let Some(outcome) = run_kept(rt, &file, text.as_slice())? else {
            return Ok(false);
        };
        print_outcome(rt, (names.len() > 1).then_some(name), &outcome)?;
    }
    Ok(true)
}

fn main(rt: HostRuntime) -> anyhow::Result<ExitCode> {
    let arguments = Arguments::of(&rt)?;
    let matches = match command(rt.alloc())?.try_get_matches_from(arguments.words.as_slice()) {
        Ok(matches) => matches,
        Err(error) => {
            error.print(&rt)?;
            return Ok(ExitCode::from(error.exit_code() as u8));
        }
    };
    let names = matches.get_strs("script").unwrap_or(&["-"]);
    let all = match matches.get_str("image") {
        Some(image) => answer_on_image(&rt, &arguments, image, names)?,
        None => answer_each(&rt, &arguments, names)?,
    };
    Ok(if all {
        ExitCode::SUCCESS
    } else {
        ExitCode::FAILURE
    })
}
