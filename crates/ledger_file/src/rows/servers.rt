//! Entries of servers: each function reads the fields of the entry that it is named for, which come next.
//! `Bad` comes exactly if the words left do not begin with such fields.

ghost use Rattle.ledger_file.specs.inside.Reading.{Gives, parts_left};
ghost use Rattle.ledger_file.specs.inside.Rows.{read_row};

use crate::cursor::Parts;
use crate::faults::LineFault;
use crate::names::Name;
use adlb_unit::Info;
use bag_ledger::Entry;

pub fn refused(words: &mut Parts<'_>) -> Result<Entry, LineFault>
    ensures { Gives (λ e. (e, parts_left words.new)) result (read_row Name.Refused (parts_left words.old)) }
{
    Ok(Entry::Refused {
        server: words.server()?,
        id: words.unit()?,
        used: words.number()?,
    })
}

pub fn granted(words: &mut Parts<'_>) -> Result<Entry, LineFault>
    ensures { Gives (λ e. (e, parts_left words.new)) result (read_row Name.Granted (parts_left words.old)) }
{
    let server = words.server()?;
    let (rank, call) = words.call()?;
    let id = words.unit()?;
    Ok(Entry::Granted {
        server,
        rank,
        call,
        id,
    })
}

pub fn looked(words: &mut Parts<'_>) -> Result<Entry, LineFault>
    ensures { Gives (λ e. (e, parts_left words.new)) result (read_row Name.Looked (parts_left words.old)) }
{
    let server = words.server()?;
    let (rank, call) = words.call()?;
    Ok(Entry::Looked { server, rank, call })
}

pub fn promised(words: &mut Parts<'_>) -> Result<Entry, LineFault>
    ensures { Gives (λ e. (e, parts_left words.new)) result (read_row Name.Promised (parts_left words.old)) }
{
    Ok(Entry::Promised {
        server: words.server()?,
        id: words.unit()?,
        length: words.length()?,
    })
}

pub fn counted(words: &mut Parts<'_>) -> Result<Entry, LineFault>
    ensures { Gives (λ e. (e, parts_left words.new)) result (read_row Name.Counted (parts_left words.old)) }
{
    let server = words.server()?;
    let (rank, call) = words.call()?;
    let info = Info {
        free: words.number()?,
        top: words.top()?,
        at_top: words.number()?,
    };
    Ok(Entry::Counted {
        server,
        rank,
        call,
        info,
    })
}
