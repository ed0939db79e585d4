//! How many units were made.

ghost use Rattle.std.specs.Prelude.{◌≡◌, ◌++◌, ◌<◌, ◌^◌, ℕ, OnOk};
ghost use Rattle.job_report.specs.Report.{totals};
ghost use Rattle.job_report.specs.Whole.{made_in};

use crate::outcomes::Outcome;
use crate::texts::{append, append_count};
use adlb_unit::NoMemory;

/// Appends how many units of each type were made. Its only error is `NoMemory`.
pub(crate) fn append_totals(text: &mut Vec<u8>, outcomes: &[Outcome]) -> Result<(), NoMemory>
    requires room { (k : ℕ) → made_in k outcomes.now < 2 ^ 128 }
    ensures { OnOk result (text.new.items ≡ text.old.items ++
        totals (made_in 0 outcomes.now) (made_in 1 outcomes.now) (made_in 2 outcomes.now) (made_in 3 outcomes.now)) }
{
    append(text, b"totals\n")?;
    append_count(text, b"board", made_of(0, outcomes))?;
    append_count(text, b"solution", made_of(1, outcomes))?;
    append_count(text, b"job", made_of(2, outcomes))?;
    append_count(text, b"answer", made_of(3, outcomes))?;
    Ok(())
}

// How many units of a type all made.
fn made_of(kind: usize, outcomes: &[Outcome]) -> u128
    requires kind { kind < 4 }
    requires room { made_in kind outcomes.now < 2 ^ 128 }
    ensures { result ≡ made_in kind outcomes.now }
{
    let mut total = 0;
    for outcome in outcomes {
        total += outcome.made[kind];
    }
    total
}
