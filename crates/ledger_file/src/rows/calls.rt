//! Entries of calls: each function reads the fields of the entry that it is named for, which come next.
//! `Bad` comes exactly if the words left do not begin with such fields.

ghost use Rattle.ledger_file.specs.inside.Reading.{Gives, parts_left};
ghost use Rattle.ledger_file.specs.inside.Rows.{read_row};

use crate::cursor::Parts;
use crate::faults::LineFault;
use crate::names::Name;
use adlb_unit::WorkType;
use bag_ledger::Entry;
use std::alloc::Global;

pub fn putting(alloc: Global, words: &mut Parts<'_>) -> Result<Entry, LineFault>
    ensures { Gives (λ e. (e, parts_left words.new)) result (read_row Name.Putting (parts_left words.old)) }
{
    let (rank, call) = words.call()?;
    Ok(Entry::Putting {
        rank,
        call,
        kind: WorkType(words.length()?),
        prio: words.prio()?,
        target: words.target()?,
        answer: words.answer()?,
        body: words.payload(alloc)?,
    })
}

pub fn keeping(alloc: Global, words: &mut Parts<'_>) -> Result<Entry, LineFault>
    ensures { Gives (λ e. (e, parts_left words.new)) result (read_row Name.Keeping (parts_left words.old)) }
{
    let (rank, call) = words.call()?;
    let common = words.payload(alloc)?;
    Ok(Entry::Keeping { rank, call, common })
}

pub fn fetching(words: &mut Parts<'_>) -> Result<Entry, LineFault>
    ensures { Gives (λ e. (e, parts_left words.new)) result (read_row Name.Fetching (parts_left words.old)) }
{
    let (rank, call) = words.call()?;
    let id = words.unit()?;
    Ok(Entry::Fetching { rank, call, id })
}

pub fn counting(words: &mut Parts<'_>) -> Result<Entry, LineFault>
    ensures { Gives (λ e. (e, parts_left words.new)) result (read_row Name.Counting (parts_left words.old)) }
{
    let (rank, call) = words.call()?;
    let kind = WorkType(words.length()?);
    Ok(Entry::Counting { rank, call, kind })
}

pub fn over(words: &mut Parts<'_>) -> Result<Entry, LineFault>
    ensures { Gives (λ e. (e, parts_left words.new)) result (read_row Name.Over (parts_left words.old)) }
{
    let (rank, call) = words.call()?;
    let end = words.end()?;
    Ok(Entry::Over { rank, call, end })
}
