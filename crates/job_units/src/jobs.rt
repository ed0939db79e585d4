//! Jobs: items of batches, and their work.

ghost use Rattle.std.specs.Prelude.{◌≡◌, ◌↔◌, ◌<◌, ◌^◌, length, Some, IfOk, IfSome, IsNone};
ghost use Rattle.job_text.specs.declared.items.Item.{Item};
ghost use Rattle.job_units.specs.Bodies.{item_bytes, job_body};
ghost use Rattle.job_units.specs.Forms.{IsJob};
ghost use Rattle.job_units.specs.Items.{answer_to};
ghost use Rattle.job_units.specs.Reading.{job_of_body};
ghost use Rattle.job_units.specs.Works.{answer_of};
ghost use Rattle.job_units.specs.declared.jobs.Job.{Job};

use crate::answers::Answer;
use crate::pieces::{array_of, joined, word};
use adlb_unit::{NoMemory, Payload};
use job_text::Item;
use lane_bytes::{count_range, max_byte, sum_bytes};
use std::alloc::Global;

/// The bytes of a job.
const BYTES: usize = 11;

/// A job: an item of a batch. Batches, and the items of a batch, are numbered from 1.
#[derive(Clone, Copy, PartialEq, Eq)]
pub struct Job {
    pub batch: u32,
    pub number: u32,
    pub item: Item,
}

impl Job {
    /// The body of the job (`job_body`), of 11 bytes. Its only error is `NoMemory`.
    #[tactic(auto, unfolding(crate::specs::Bodies::job_body))]
    pub fn body(&self, alloc: Global) -> Result<Payload, NoMemory>
        ensures body { IfOk result (λ p. p ≡ job_body self.now) }
        ensures form { IsJob self.now }
        ensures long { IfOk result (λ p. length p ≡ 11) }
    {
        joined(
            alloc,
            &word(self.batch),
            &word(self.number),
            &bytes_of(&self.item),
        )
    }

    /// The job that has this body (`job_of_body`), if any: exactly the one of which it is the body (`exact`).
    pub fn read(body: &[u8]) -> Option<Job>
        ensures read { result ≡ job_of_body body.now }
        ensures exact { (j : Job) → IsJob j → (result ≡ Some j) ↔ (body.now ≡ job_body j) }
    {
        if body.len() != BYTES {
            return None;
        }
        let (batch, rest) = body.split_at(4);
        let (number, item) = rest.split_at(4);
        let item = item_of(item)?;
        Some(Job {
            batch: u32::from_be_bytes(array_of(batch)),
            number: u32::from_be_bytes(array_of(number)),
            item,
        })
    }

    /// The answer of the job over these common bytes (`answer_of`).
    pub fn answer(&self, common: &[u8]) -> Answer
        requires { length common.now < 2 ^ 56 }
        ensures { result ≡ answer_of common.now self.now }
    {
        Answer {
            batch: self.batch,
            number: self.number,
            value: work(&self.item, common),
        }
    }
}

/// What an item answers of these bytes (`answer_to`). There are fewer than 2^56 of them, so a sum is below 2^64.
pub fn work(item: &Item, bytes: &[u8]) -> u64
    requires { length bytes.now < 2 ^ 56 }
    ensures { result ≡ answer_to item.now bytes.now }
{
    match item {
        Item::Count { lo, hi } => count_range(bytes, *lo, *hi),
        Item::Sum => sum_bytes(bytes),
        Item::Max => u64::from(max_byte(bytes)),
    }
}

// The bytes of an item.
fn bytes_of(item: &Item) -> [u8; 3]
    ensures { result ≡ item_bytes item.now }
{
    match item {
        Item::Count { lo, hi } => [1, *lo, *hi],
        Item::Sum => [2, 0, 0],
        Item::Max => [3, 0, 0],
    }
}

// The item that has these bytes, if any.
fn item_of(bytes: &[u8]) -> Option<Item>
    ensures some { IfSome result (λ item. bytes.now ≡ item_bytes item) }
    ensures none { IsNone result → (item : Item) → ¬ (bytes.now ≡ item_bytes item) }
{
    match bytes {
        [1, lo, hi] => Some(Item::Count { lo: *lo, hi: *hi }),
        [2, 0, 0] => Some(Item::Sum),
        [3, 0, 0] => Some(Item::Max),
        _ => None,
    }
}
