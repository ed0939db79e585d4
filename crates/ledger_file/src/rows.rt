//! The entry of a line.

ghost use Rattle.ledger_file.specs.inside.Reading.{Gives, parts_left, parts_of};
ghost use Rattle.ledger_file.specs.inside.Rows.{read_row, read_entry};

mod alike;
mod calls;
mod servers;

use crate::cursor::Parts;
use crate::faults::LineFault;
use crate::names::Name;
use alike::{of_call, of_id, of_way, of_wish};
use bag_ledger::Entry;
use calls::{counting, fetching, keeping, over, putting};
use servers::{counted, granted, looked, promised, refused};
use std::alloc::Global;

/// The entry that is written so, without its line feed. `Bad` exactly if none is. Its only other error is `Memory`.
#[tactic(auto, unfolding(crate::specs::inside::Rows::read_entry))]
pub fn entry_of(alloc: Global, line: &[u8]) -> Result<Entry, LineFault>
    ensures { Gives (λ e. e) result (read_entry (parts_of 32 line.now)) }
{
    let mut words = Parts::of(line, b' ');
    let Some(name) = Name::of(words.word()?) else {
        return Err(LineFault::Bad);
    };
    let entry = fields_of(alloc, name, &mut words)?;
    words.last(entry)
}

// The entry of this name, whose fields come next. `Bad` exactly if the words left do not begin with such fields.
fn fields_of(alloc: Global, name: Name, words: &mut Parts<'_>) -> Result<Entry, LineFault>
    ensures { Gives (λ e. (e, parts_left words.new)) result (read_row name (parts_left words.old)) }
{
    match name {
        Name::Rejected => of_call(name, words),
        Name::Closing => of_call(name, words),
        Name::NoCurrent => of_call(name, words),
        Name::Done => of_call(name, words),
        Name::Finished => of_call(name, words),
        Name::Asked => of_wish(name, words),
        Name::Tried => of_wish(name, words),
        Name::Accepted => of_id(name, words),
        Name::Kept => of_id(name, words),
        Name::Closed => of_id(name, words),
        Name::Freed => of_id(name, words),
        Name::Arrived => of_id(name, words),
        Name::Withdrawn => of_id(name, words),
        Name::Fetched => of_way(name, words),
        Name::CommonFetched => of_way(name, words),
        Name::Left => of_way(name, words),
        Name::Putting => putting(alloc, words),
        Name::Keeping => keeping(alloc, words),
        Name::Fetching => fetching(words),
        Name::Counting => counting(words),
        Name::Over => over(words),
        Name::Refused => refused(words),
        Name::Granted => granted(words),
        Name::Looked => looked(words),
        Name::Promised => promised(words),
        Name::Counted => counted(words),
        Name::Exhausted => Ok(Entry::Exhausted),
    }
}
