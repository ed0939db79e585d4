//! Reading the text of a configuration and its ledger.

ghost use Rattle.std.specs.Prelude.{◌≡◌, ◌↔◌, ℕ, List, IfOk, IsTrue, MatchResult};
ghost use Rattle.adlb_unit.specs.declared.configs.Config.{Config};
ghost use Rattle.bag_ledger.specs.declared.entries.Entry.{Entry};
ghost use Rattle.ledger_file.specs.Lines.{IsFirstBad, IsText, first_row, last_row, words};
ghost use Rattle.ledger_file.specs.inside.Reading.{Gives, parts_of};
ghost use Rattle.ledger_file.specs.inside.Rows.{read_sizes};
ghost use Rattle.ledger_file.specs.inside.Next.{IsBadAfter, IsNext, IsRest};

use crate::cursor::{Parts, cut};
use crate::faults::{LedgerFault, LineFault};
use crate::numbers::is_written;
use crate::rows::entry_of;
use adlb_unit::Config;
use bag_ledger::Entry;
use packed_ledger::Ledger;
use std::alloc::Global;

/// The configuration and the ledger of which the bytes are the text (`IsText`); no other has this text (`text_laws`).
/// `Refused` comes only if the bytes are the text of none, with the first line that is not what is due at its place
/// (`IsFirstBad`). The only other error is `Memory`.
pub fn read_ledger(alloc: Global, bytes: &[u8]) -> Result<(Config, Ledger), LedgerFault>
    ensures read { IfOk result (λ x. IsText x.0 x.1 bytes.now) }
    ensures refused { (line : ℕ) → result ≡ Err (LedgerFault.Refused line) → IsFirstBad bytes.now line }
    ensures text { (config : Config) (ledger : List Entry) → IsText config ledger bytes.now → MatchResult result (λ x. (x.0 ≡ config) × (x.1 ≡ ledger)) (λ fault. fault ≡ LedgerFault.Memory) }
{
    let Some((first, rest)) = cut(bytes, b'\n') else {
        return Err(LedgerFault::Refused { line: 1 });
    };
    let config = match config_of(first) {
        Ok(config) => config,
        Err(LineFault::Bad) => return Err(LedgerFault::Refused { line: 1 }),
        Err(LineFault::Memory) => return Err(LedgerFault::Memory),
    };
    let ledger = entries_of(alloc, rest)?;
    Ok((config, ledger))
}

// The configuration whose first line this is, without its line feed. `Bad` exactly if it is that of none.
fn config_of(line: &[u8]) -> Result<Config, LineFault>
    ensures { MatchResult result (λ c. words (first_row c) ≡ parts_of 32 line.now) (λ fault. fault ≡ LineFault.Bad → (c : Config) → words (first_row c) ≡ parts_of 32 line.now → ⊥) }
{
    let (ranks, servers, limit) = sizes_of(line)?;
    match Config::new(ranks, servers, limit) {
        Ok(config) => Ok(config),
        Err(_) => Err(LineFault::Bad),
    }
}

// The numbers of a first line, without its line feed. `Bad` exactly if it has not its form.
#[tactic(auto, unfolding(crate::specs::inside::Rows::read_sizes))]
fn sizes_of(line: &[u8]) -> Result<(u32, u32, u64), LineFault>
    ensures { Gives (λ x. x) result (read_sizes (parts_of 32 line.now)) }
{
    let mut words = Parts::of(line, b' ');
    if words.word()? != b"ledger".as_slice() {
        return Err(LineFault::Bad);
    }
    let sizes = (words.length()?, words.length()?, words.number()?);
    words.last(sizes)
}

// The entries of the lines after the first, up to the last line, with which the bytes end.
fn entries_of(alloc: Global, bytes: &[u8]) -> Result<Ledger, LedgerFault>
    ensures read { IfOk result (IsRest bytes.now) }
    ensures refused { (line : ℕ) → result ≡ Err (LedgerFault.Refused line) → IsBadAfter bytes.now line }
{
    let mut ledger = Ledger::new(alloc);
    let mut rest = bytes;
    'lines: loop {
        let count = ledger.len();
        let (line, after) = match next_line(alloc, rest, count) {
            Ok(next) => next,
            Err(LineFault::Bad) => return Err(LedgerFault::Refused { line: count + 2 }),
            Err(LineFault::Memory) => return Err(LedgerFault::Memory),
        };
        match line {
            Line::Entry(entry) => {
                if ledger.push(entry).is_err() {
                    return Err(LedgerFault::Memory);
                }
                rest = after;
            }
            Line::Last => {
                if !after.is_empty() {
                    return Err(LedgerFault::Refused { line: count + 3 });
                }
                return Ok(ledger);
            }
        }
    }
}

/// A line after the first: that of an entry, or the last.
#[derive(Drop)]
enum Line {
    Entry(Entry),
    Last,
}

// The first line, and what follows it, after `count` entries. `Bad` exactly if it is neither that of an entry nor the
// last line.
fn next_line(alloc: Global, bytes: &[u8], count: u64) -> Result<(Line, &[u8]), LineFault>
    ensures { IsNext bytes.now count result }
{
    let Some((text, after)) = cut(bytes, b'\n') else {
        return Err(LineFault::Bad);
    };
    if is_last(text, count) {
        return Ok((Line::Last, after));
    }
    let entry = entry_of(alloc, text)?;
    Ok((Line::Entry(entry), after))
}

// The line, without its line feed, is the last one after `count` entries.
fn is_last(line: &[u8], count: u64) -> bool
    ensures { IsTrue result ↔ (words (last_row count) ≡ parts_of 32 line.now) }
{
    let mut words = Parts::of(line, b' ');
    let (Some(name), Some(number), None) = (words.next(), words.next(), words.next()) else {
        return false;
    };
    name == b"end".as_slice() && is_written(count, number)
}
