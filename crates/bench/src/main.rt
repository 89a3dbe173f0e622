// `bench`: counts the drive calls that each call of the monitor makes, at 64 and at 1,024 blocks,
// with an empty and with a full audit. Counts are the same on every machine. docs/COSTS.md has its
// output.
#![tactic(auto)]

use applying::RowDraft;
use books::Draft;
use counting::{BLOCKS, Counting, Counts};
use ledger::Ledger;
use monitor::{Monitor, Slip};
use notes::make_note;
use refusals::Refusal;
use trial::TrialDrive;

/// A rig: the monitor of a ledger over a trial drive whose calls are counted.
type Rig<'a> = Monitor<Counting<TrialDrive<'a>>, Ledger>;

/// The cut number that each power call takes in turn. After those of format and of the first attach
/// power does not fail. After the second attach's, seven writes and flushes are done, so the first
/// change is cut while it is installed. After later ones power never fails.
const CUTS: [u16; 3] = [32_767, 32_767, 7];

/// What had been counted at a moment.
#[derive(Drop)]
struct Mark {
    counts: Counts,
    reads: [u64; BLOCKS],
}

impl Mark {
    /// What is counted now.
    fn now(rig: &Rig) -> Mark {
        Mark {
            counts: rig.drive().counts(),
            reads: rig.drive().reads(),
        }
    }
}

/// Prints what one call cost: everything that was counted since the mark. A call that was refused
/// is no cost to show.
fn print_cost<T>(
    rt: &HostRuntime,
    call: &str,
    from: &Mark,
    rig: &Rig,
    answer: Result<T, Refusal>,
) -> anyhow::Result<()>
where
    T: Drop,
{
    if let Err(refusal) = answer {
        println!(rt; "  {call}: {refusal}")?;
        return Ok(());
    }
    let to = Mark::now(rig);
    let mut reads: u64 = 0;
    let mut most: u64 = 0;
    for (before, after) in from.reads.iter().zip(&to.reads) {
        let more = after.saturating_sub(*before);
        reads = reads.saturating_add(more);
        most = most.max(more);
    }
    let writes = to.counts.writes.saturating_sub(from.counts.writes);
    let flushes = to.counts.flushes.saturating_sub(from.counts.flushes);
    let changes = writes.saturating_add(flushes);
    println!(rt; "  {call:<32} {reads:>5} {most:>5} {writes:>6} {flushes:>7} {changes:>9}")?;
    Ok(())
}

/// The word of a user.
fn word_of(user: u8) -> [u8; 8] {
    [b'a' + user % 16; 8]
}

/// The roll: 16 words, user 0 first.
fn roll() -> [u8; 128] {
    let mut roll = [0; 128];
    for (place, byte) in roll.iter_mut().enumerate() {
        *byte = b'a' + (place / 8) as u8;
    }
    roll
}

/// A row for the shift on all items.
fn row_for(row: u64, user: u64, role: u64) -> RowDraft {
    RowDraft {
        row,
        user,
        procedure: 3,
        role,
        mask: u64::MAX,
    }
}

/// A slip of the shift from item 8 to another.
fn enter(rig: &Rig, b: u64) -> Result<Slip, Refusal> {
    let draft = Draft {
        procedure: 3,
        a: 8,
        b,
        amount: 1,
    };
    rig.enter(1, &word_of(1), make_note(&Ledger, draft)?)
}

/// Enters a note and withdraws its slip.
fn enter_and_withdraw(rig: &Rig) -> Result<(), Refusal> {
    let _ = enter(rig, 9)?.withdraw();
    Ok(())
}

/// Posts a shift from item 8 to another.
fn post(rt: &HostRuntime, rig: &mut Rig, call: &str, b: u64) -> anyhow::Result<()> {
    match enter(rig, b) {
        Ok(slip) => {
            let from = Mark::now(rig);
            let answer = rig.countersign(2, &word_of(2), slip);
            print_cost(rt, call, &from, rig, answer)
        }
        Err(refusal) => {
            println!(rt; "  {call}: {refusal}")?;
            Ok(())
        }
    }
}

/// The calls that change the books, each once.
fn bench_changes(rt: &HostRuntime, rig: &mut Rig) -> anyhow::Result<()> {
    let custodian = word_of(0);
    let from = Mark::now(rig);
    let answer = rig.certify(&custodian, row_for(2, 3, 1));
    print_cost(rt, "certify", &from, rig, answer)?;
    let from = Mark::now(rig);
    let answer = rig.strike(&custodian, 2);
    print_cost(rt, "strike", &from, rig, answer)?;
    post(rt, rig, "countersign, items in two blocks", 16)?;
    post(rt, rig, "countersign, items in one block", 9)
}

/// The calls that only look.
fn bench_looks(rt: &HostRuntime, rig: &Rig) -> anyhow::Result<()> {
    let from = Mark::now(rig);
    let answer = enter_and_withdraw(rig);
    print_cost(rt, "enter", &from, rig, answer)?;
    let from = Mark::now(rig);
    let answer = rig.item(8);
    print_cost(rt, "item", &from, rig, answer)?;
    let from = Mark::now(rig);
    let answer = rig.record(1).map(|_| ());
    print_cost(rt, "record", &from, rig, answer)
}

/// Attach, on a drive that has nothing to finish or something.
fn bench_attach(rt: &HostRuntime, rig: &mut Rig, call: &str) -> anyhow::Result<()> {
    let from = Mark::now(rig);
    let answer = rig.attach();
    print_cost(rt, call, &from, rig, answer)
}

/// Attach, where a certification of three blocks was cut while it was installed.
fn bench_finishing(rt: &HostRuntime, rig: &mut Rig) -> anyhow::Result<()> {
    let attached = rig.attach();
    let cut = rig.certify(&word_of(0), row_for(3, 3, 1));
    if attached.is_err() || cut.is_ok() {
        println!(rt; "  nothing was cut")?;
    }
    bench_attach(rt, rig, "attach, finishing three blocks")
}

/// Fills the audit until there is room for so many records more.
fn fill(rig: &mut Rig, room: u64, left: u64) -> Result<(), Refusal> {
    let custodian = word_of(0);
    let mut count = rig.certify(&custodian, row_for(9, 3, 1))?;
    for turn in 0..room {
        if count.saturating_add(left) >= room {
            break;
        }
        count = if turn % 2 == 0 {
            rig.strike(&custodian, 9)?
        } else {
            rig.certify(&custodian, row_for(9, 3, 1))?
        };
    }
    Ok(())
}

/// Formats a rig, and gives two users their rows.
fn set_up(rt: &HostRuntime, rig: &mut Rig) -> anyhow::Result<()> {
    let from = Mark::now(rig);
    let answer = rig.format(7, &roll(), &[0; 64]);
    print_cost(rt, "format", &from, rig, answer)?;
    bench_attach(rt, rig, "attach, no records")?;
    let custodian = word_of(0);
    let first = rig.certify(&custodian, row_for(0, 1, 1));
    let second = rig.certify(&custodian, row_for(1, 2, 2));
    if first.and(second).is_err() {
        println!(rt; "  the rows were not certified")?;
    }
    Ok(())
}

/// Every call at one size.
fn bench(rt: &HostRuntime, bytes: &mut [u8]) -> anyhow::Result<()> {
    let blocks = bytes.len() / 64;
    let room = blocks.saturating_sub(34) as u64;
    let drive = Counting::over(TrialDrive::over(bytes, &CUTS));
    let mut rig = Monitor::over(drive, Ledger);
    println!(rt;
        "{blocks} blocks: reads, most reads of one block, writes, flushes, writes and flushes"
    )?;
    set_up(rt, &mut rig)?;
    println!(rt; "  -- few records")?;
    bench_looks(rt, &rig)?;
    bench_changes(rt, &mut rig)?;
    bench_finishing(rt, &mut rig)?;
    if let Err(refusal) = fill(&mut rig, room, 4) {
        println!(rt; "  the audit was not filled: {refusal}")?;
    }
    println!(rt; "  -- the last records for which there is room")?;
    bench_changes(rt, &mut rig)?;
    println!(rt; "  -- a full audit")?;
    bench_looks(rt, &rig)?;
    bench_attach(rt, &mut rig, "attach, all records")
}

fn main(rt: HostRuntime) -> anyhow::Result<()> {
    let mut small = vec![in rt.alloc(); 0u8; 64 * 64]?;
    bench(&rt, small.as_mut_slice())?;
    let mut large = vec![in rt.alloc(); 0u8; 64 * 1024]?;
    bench(&rt, large.as_mut_slice())
}
