ghost use Rattle.std.specs.Prelude.{◌≡◌, ◌++◌, IfOk, OnOk};
ghost use Rattle.text_commands.specs.JournalLines.{digest_text, first_line, illegal_line, journal_line, other_plan_line};
ghost use Rattle.text_commands.specs.Lines.{bytes_of};

use crate::line::Line;
use intent_journal::{Digest, JournalFault};
use lists::{Memory, Text};
use std::alloc::Global;

/// The line of a journal that is refused.
pub fn journal_line(alloc: Global, fault: &JournalFault) -> Result<Line, Memory>
    ensures { IfOk result (λ line. bytes_of line ≡ journal_line fault.now) }
{
    let mut line = Text::new(alloc);
    push_cause(alloc, &mut line, fault)?;
    Ok(Line::Made(line))
}

fn push_cause(alloc: Global, line: &mut Text, fault: &JournalFault) -> Result<(), Memory>
    ensures { OnOk result (line.new ≡ line.old ++ journal_line fault.now) }
{
    match fault {
        JournalFault::NotJournal(first) => push_first(alloc, line, *first),
        JournalFault::OtherPlan(kept, wanted) => push_other_plan(alloc, line, kept, wanted),
        JournalFault::Illegal(place) => push_illegal(alloc, line, *place),
        JournalFault::BadStart => line.push_str("journal: start refused\n"),
        JournalFault::Disk => line.push_str("journal device fault\n"),
        JournalFault::Memory => line.push_str("out of memory\n"),
    }
}

fn push_first(alloc: Global, line: &mut Text, first: u8) -> Result<(), Memory>
    ensures { OnOk result (line.new ≡ line.old ++ first_line first) }
{
    let text = format!(in alloc; "journal: first byte {first}\n")?;
    line.push_str(&text)
}

fn push_illegal(alloc: Global, line: &mut Text, place: u32) -> Result<(), Memory>
    ensures { OnOk result (line.new ≡ line.old ++ illegal_line place) }
{
    let text = format!(in alloc; "journal: entry {place} illegal\n")?;
    line.push_str(&text)
}

fn push_other_plan(
    alloc: Global,
    line: &mut Text,
    kept: &Digest,
    wanted: &Digest,
) -> Result<(), Memory>
    ensures { OnOk result (line.new ≡ line.old ++ other_plan_line kept.now wanted.now) }
{
    line.push_str("journal: other plan ")?;
    push_digest(alloc, line, kept)?;
    line.push_str(" ")?;
    push_digest(alloc, line, wanted)?;
    line.push_str("\n")
}

/// Adds what a journal was made for: the digest in hexadecimal digits, and the migration.
fn push_digest(alloc: Global, line: &mut Text, digest: &Digest) -> Result<(), Memory>
    ensures { OnOk result (line.new ≡ line.old ++ digest_text digest.now) }
{
    let bytes = hex::encode(alloc, digest.bytes)?;
    let text = format!(in alloc; "{bytes}/{}", digest.migration)?;
    line.push_str(&text)
}
