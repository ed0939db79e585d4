//! The verdict on a ledger.

ghost use Rattle.std.specs.Prelude.{◌≡◌, ◌++◌, ◌↔◌, List, IfOk, IfSome, None, OnOk};
ghost use Rattle.adlb_unit.specs.declared.configs.Config.{Config};
ghost use Rattle.bag_ledger.specs.declared.entries.Entry.{Entry};
ghost use Rattle.bag_ledger.specs.Bag.{start};
ghost use Rattle.bag_ledger.specs.Runs.{IsFirstIllegal, IsLegal};
ghost use Rattle.ledger_command.specs.Verdicts.{IsVerdict, Suits, line_of, numbered};
ghost use Rattle.ledger_command.specs.declared.verdicts.Verdict.{Verdict};

use adlb_unit::{Config, NoMemory, or_no_memory};
use itoa::Buffer;
use ledger_rules::Complaint;
use packed_ledger::Ledger;
use std::alloc::Global;

/// The verdict on a ledger.
#[derive(Clone, Copy, Debug, PartialEq, Eq)]
pub enum Verdict {
    /// It is a legal run of this many entries.
    Legal { entries: u64 },
    /// The first entry that is no step is at this place, from 0.
    Illegal { place: u64 },
}

impl Verdict {
    /// The verdict on this ledger (`IsVerdict`), of which this is wrong.
    pub(crate) fn of(config: &Config, ledger: &Ledger, complaint: &Option<Complaint>) -> Verdict
        requires none { (complaint.now ≡ None) ↔ IsLegal config.now ledger.now }
        requires least { IfSome complaint.now (λ c. IsFirstIllegal (start config.now) ledger.now c.place) }
        ensures verdict { IsVerdict config.now ledger.now result }
        ensures suits { Suits result complaint.now }
    {
        match complaint {
            Some(complaint) => Verdict::Illegal {
                place: complaint.place,
            },
            None => Verdict::Legal {
                entries: ledger.len(),
            },
        }
    }

    /// The line that tells it (`line_of`). Its only error is `NoMemory`.
    pub(crate) fn line(self, alloc: Global) -> Result<Vec<u8>, NoMemory>
        ensures { IfOk result (λ line. line.items ≡ line_of self) }
    {
        match self {
            Verdict::Legal { entries } => numbered_line(alloc, b"legal", entries),
            Verdict::Illegal { place } => numbered_line(alloc, b"illegal", place),
        }
    }
}

// The line of a word and a number. Its only error is `NoMemory`.
fn numbered_line(alloc: Global, word: &[u8], n: u64) -> Result<Vec<u8>, NoMemory>
    ensures { IfOk result (λ line. line.items ≡ numbered word.now n) }
{
    let mut line = Vec::new(alloc);
    let mut digits = Buffer::new();
    append(&mut line, word)?;
    append(&mut line, b" ")?;
    append(&mut line, digits.format(n).as_bytes())?;
    append(&mut line, b"\n")?;
    Ok(line)
}

// Appends the piece. Its only error is `NoMemory`.
fn append(line: &mut Vec<u8>, piece: &[u8]) -> Result<(), NoMemory>
    ensures { OnOk result (line.new.items ≡ line.old.items ++ piece.now) }
{
    or_no_memory(line.extend_from_slice(piece))
}

/// A ledger has one verdict.
pub fn one_verdict()
    ensures { (config : Config) (ledger : List Entry) (a b : Verdict) →
        IsVerdict config ledger a → IsVerdict config ledger b → a ≡ b }
{}
