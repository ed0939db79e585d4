//! What holds of texts.

ghost use Rattle.std.specs.Prelude.{◌≡◌, ℕ, List, MatchResult};
ghost use Rattle.adlb_unit.specs.declared.configs.Config.{Config};
ghost use Rattle.bag_ledger.specs.declared.entries.Entry.{Entry};
ghost use Rattle.ledger_file.specs.Lines.{IsFirstBad, IsText};

use crate::faults::LedgerFault;
use crate::reading::read_ledger;
use crate::writing::write_ledger;
use adlb_unit::{Config, NoMemory};
use packed_ledger::Ledger;
use std::alloc::Global;

/// A configuration and a ledger have one text (`one_text`), and no text is that of two (`no_text_of_two`). Bytes of
/// which a line is refused are the text of none (`no_text`), and no other line of them is the first that is refused
/// (`one_line`).
pub fn text_laws()
    ensures one_text { (config : Config) (ledger : List Entry) (a b : List ℕ) → IsText config ledger a → IsText config ledger b → a ≡ b }
    ensures no_text_of_two { (c d : Config) (l m : List Entry) (bytes : List ℕ) → IsText c l bytes → IsText d m bytes → (c ≡ d) × (l ≡ m) }
    ensures no_text { (config : Config) (ledger : List Entry) (bytes : List ℕ) (line : ℕ) → IsFirstBad bytes line → IsText config ledger bytes → ⊥ }
    ensures one_line { (bytes : List ℕ) (a b : ℕ) → IsFirstBad bytes a → IsFirstBad bytes b → a ≡ b }
{}

/// What is read of the text that is written: the configuration and the ledger that were given. Its only error is `Memory`.
pub fn read_back(
    alloc: Global,
    config: &Config,
    ledger: &Ledger,
) -> Result<(Config, Ledger), LedgerFault>
    ensures { MatchResult result (λ x. (x.0 ≡ config.now) × (x.1 ≡ ledger.now)) (λ fault. fault ≡ LedgerFault.Memory) }
{
    match write_ledger(alloc, config, ledger) {
        Ok(text) => read_ledger(alloc, &text),
        Err(NoMemory) => Err(LedgerFault::Memory),
    }
}
