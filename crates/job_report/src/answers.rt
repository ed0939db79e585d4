//! The answers of all outcomes, looked up by batch and item.

ghost use Rattle.std.specs.Prelude.{◌≡◌, ◌==◌, ◌&&◌, ℕ, IfOk, OnOk, if◌then◌else◌};
ghost use Rattle.job_report.specs.Whole.{answers_in, answers_of};
ghost use Rattle.job_report.specs.inside.{latest, value_at};

use crate::outcomes::Outcome;
use adlb_unit::{NoMemory, or_no_memory};
use std::alloc::Global;
use std::collections::BTreeMap;

/// The values that items were given, by the batch and the number of the item in it.
#[derive(Drop)]
pub(crate) struct Answers {
    held: BTreeMap<(u32, u32), u64>,
}

impl Answers {
    /// The answers of all outcomes. Its only error is `NoMemory`.
    pub(crate) fn of(alloc: Global, outcomes: &[Outcome]) -> Result<Answers, NoMemory>
        ensures { IfOk result (λ answers. (b n : ℕ) →
            value_at answers b n ≡ latest 0 (answers_of b n outcomes.now)) }
    {
        let mut answers = Answers {
            held: BTreeMap::new(alloc),
        };
        for outcome in outcomes {
            answers.add(&outcome.answers)?;
        }
        Ok(answers)
    }

    /// The value that was told last of the item, or 0 if none was.
    pub(crate) fn value(&self, batch: u32, item: u32) -> u64
        ensures { result ≡ value_at self.now batch item }
    {
        self.held.get(&(batch, item)).copied().unwrap_or(0)
    }

    // Adds the answers of one outcome.
    fn add(&mut self, answers: &[(u32, u32, u64)]) -> Result<(), NoMemory>
        ensures { OnOk result ((b n : ℕ) →
            value_at self.new b n ≡ latest (value_at self.old b n) (answers_in b n answers.now)) }
    {
        for answer in answers {
            let (batch, item, value) = *answer;
            self.note(batch, item, value)?;
        }
        Ok(())
    }

    // Notes the value of an item.
    fn note(&mut self, batch: u32, item: u32, value: u64) -> Result<(), NoMemory>
        ensures { OnOk result ((b n : ℕ) →
            value_at self.new b n ≡ (if (batch == b) && (item == n) then value else value_at self.old b n)) }
    {
        or_no_memory(self.held.insert((batch, item), value))?;
        Ok(())
    }
}
