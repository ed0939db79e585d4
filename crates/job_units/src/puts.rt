//! How each unit is put.

ghost use Rattle.std.specs.Prelude.{◌≡◌, ◌≤◌, ◌<◌, ℕ, length, IfOk};
ghost use Rattle.adlb_unit.specs.Targets.{Aims};
ghost use Rattle.job_units.specs.Forms.{IsUnit};
ghost use Rattle.job_units.specs.Puts.{call_of, put_of};

use crate::units::{ANSWER, ANSWERS, BOARD, JOB, Made, SOLUTION};
use adlb_unit::{NoMemory, Payload, Rank, Target, WorkType};
use std::alloc::Global;

/// The priority of a job.
const JOB_PRIORITY: i32 = 50;

/// The priority of a solution and of an answer.
const RESULT_PRIORITY: i32 = 100;

/// How a unit is put.
#[derive(Drop)]
pub struct Putting {
    pub kind: WorkType,
    pub prio: i32,
    pub target: Target,
    pub answer: Option<Rank>,
    pub body: Payload,
}

impl Made {
    /// How the unit is put (`put_of`). The target is any rank or rank 0, and the unit is read back from its body (`form`).
    /// Its only error is `NoMemory`.
    pub fn putting(&self, alloc: Global) -> Result<Putting, NoMemory>
        ensures put { IfOk result (λ p. call_of p ≡ put_of self.now) }
        ensures few { IfOk result (λ p. length p.body ≤ 268) }
        ensures target { (ranks : ℕ) → 0 < ranks → IfOk result (λ p. Aims p.target ranks) }
        ensures form { IsUnit self.now }
    {
        match self {
            Made::Board(board) => {
                let filled = board.grid.filled() as i32;
                Ok(as_work(BOARD, filled, board.body(alloc)?))
            }
            Made::Solution(solution) => Ok(as_result(SOLUTION, solution.body(alloc)?)),
            Made::Job(job) => Ok(as_work(JOB, JOB_PRIORITY, job.body(alloc)?)),
            Made::Answer(answer) => Ok(as_result(ANSWER, answer.body(alloc)?)),
        }
    }
}

// Work is for any rank, and its results are for the one that has the answers.
fn as_work(kind: WorkType, prio: i32, body: Payload) -> Putting
    ensures { result ≡ record { kind = kind; prio = prio; target = Target.Any; answer = Some ANSWERS; body = body } }
{
    Putting {
        kind,
        prio,
        target: Target::Any,
        answer: Some(ANSWERS),
        body,
    }
}

// A result is for the rank that has the answers alone.
fn as_result(kind: WorkType, body: Payload) -> Putting
    ensures { result ≡ record { kind = kind; prio = RESULT_PRIORITY; target = Target.Only ANSWERS; answer = None; body = body } }
{
    Putting {
        kind,
        prio: RESULT_PRIORITY,
        target: Target::Only(ANSWERS),
        answer: None,
        body,
    }
}
