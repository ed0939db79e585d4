//! The lines of a ledger's counts.

ghost use Rattle.std.specs.Prelude.{◌≡◌, ◌<◌, ◌+◌, ◌^◌, ◌++◌, ◌∷◌, [], IfOk, OnOk, count_by};
ghost use Rattle.ledger_stats.specs.Stats.{counts, stats_text};
ghost use Rattle.ledger_stats.specs.inside.{told};
ghost use Rattle.ledger_stats.specs.declared.stats.Statistic.{Statistic};

use crate::texts::{append, append_count};
use adlb_unit::NoMemory;
use bag_ledger::Entry;
use packed_ledger::Ledger;
use std::alloc::Global;

/// Appends the seven lines of the ledger's counts (`stats_text`) to the text. They say how often a unit was
/// accepted, refused by a server, rejected, granted, and pushed to another server. How many units were left is
/// `left`. Its only error is `NoMemory`.
pub fn append_stats(
    alloc: Global,
    text: &mut Vec<u8>,
    ledger: &Ledger,
    left: u64,
) -> Result<(), NoMemory>
    ensures { OnOk result (text.new.items ≡ text.old.items ++ stats_text ledger.now left) }
{
    let tally = tally_of(alloc, ledger)?;
    append(text, b"stats\n")?;
    append_count(text, b"accepted", tally.accepted)?;
    append_count(text, b"refused", tally.refused)?;
    append_count(text, b"rejected", tally.rejected)?;
    append_count(text, b"granted", tally.granted)?;
    append_count(text, b"pushed", tally.pushed)?;
    append_count(text, b"left", left)
}

/// What is counted of a ledger, by its entries.
#[derive(Clone, Copy)]
pub(crate) enum Statistic {
    /// A server took a unit.
    Accepted,
    /// A server had no room for what a rank brought.
    Refused,
    /// Each server had refused what a rank brought.
    Rejected,
    /// A server gave a rank a unit.
    Granted,
    /// A unit arrived from another server.
    Pushed,
}

/// How many entries are counted as each.
#[derive(Clone, Copy)]
pub(crate) struct Tally {
    pub(crate) accepted: u64,
    pub(crate) refused: u64,
    pub(crate) rejected: u64,
    pub(crate) granted: u64,
    pub(crate) pushed: u64,
}

impl Tally {
    // Counts one entry more.
    fn add(&mut self, entry: &Entry)
        requires { (s : Statistic) → told self.old s + count_by (counts s) (entry.now ∷ []) < 2 ^ 64 }
        ensures { (s : Statistic) → told self.new s ≡ told self.old s + count_by (counts s) (entry.now ∷ []) }
    {
        self.accepted += count(Statistic::Accepted, entry);
        self.refused += count(Statistic::Refused, entry);
        self.rejected += count(Statistic::Rejected, entry);
        self.granted += count(Statistic::Granted, entry);
        self.pushed += count(Statistic::Pushed, entry);
    }
}

// How many entries of the ledger are counted as each. Its only error is `NoMemory`.
fn tally_of(alloc: Global, ledger: &Ledger) -> Result<Tally, NoMemory>
    ensures { IfOk result (λ c. (s : Statistic) → told c s ≡ count_by (counts s) ledger.now) }
{
    let mut tally = Tally {
        accepted: 0,
        refused: 0,
        rejected: 0,
        granted: 0,
        pushed: 0,
    };
    let mut entries = ledger.entries();
    for _ in 0..ledger.len() {
        let Some(entry) = entries.next(alloc)? else {
            unreachable!()
        };
        tally.add(&entry);
    }
    Ok(tally)
}

// 1 if the entry is counted so, otherwise 0.
fn count(statistic: Statistic, entry: &Entry) -> u64
    ensures { result ≡ count_by (counts statistic) (entry.now ∷ []) }
{
    if counts(statistic, entry) { 1 } else { 0 }
}

// The entry is counted so.
fn counts(statistic: Statistic, entry: &Entry) -> bool
    ensures { result ≡ counts statistic entry.now }
{
    match (statistic, entry) {
        (Statistic::Accepted, Entry::Accepted { .. }) => true,
        (Statistic::Refused, Entry::Refused { .. }) => true,
        (Statistic::Rejected, Entry::Rejected { .. }) => true,
        (Statistic::Granted, Entry::Granted { .. }) => true,
        (Statistic::Pushed, Entry::Arrived { .. }) => true,
        _ => false,
    }
}
