//! The four units.

ghost use Rattle.std.specs.Prelude.{◌≡◌, ◌≤◌, length, option_map, IfOk};
ghost use Rattle.job_units.specs.Bodies.{body_of};
ghost use Rattle.job_units.specs.Puts.{kind_of};
ghost use Rattle.job_units.specs.Reading.{answer_of_body, board_of_body, job_of_body, solution_of_body, unit_of};
ghost use Rattle.job_units.specs.Reading.{is_answer_rank as is_for_answers};

use crate::answers::Answer;
use crate::boards::Board;
use crate::jobs::Job;
use crate::solutions::Solution;
use adlb_unit::{NoMemory, Payload, Rank, WorkType};
use std::alloc::Global;

/// The rank that has the answers.
pub const ANSWERS: Rank = Rank(0);

/// The work type of boards.
pub const BOARD: WorkType = WorkType(0);

/// The work type of solutions.
pub const SOLUTION: WorkType = WorkType(1);

/// The work type of jobs.
pub const JOB: WorkType = WorkType(2);

/// The work type of answers.
pub const ANSWER: WorkType = WorkType(3);

/// A unit that is made of the jobs of an input, or by the work on a unit.
#[derive(Clone, Copy, PartialEq, Eq)]
pub enum Made {
    Board(Board),
    Solution(Solution),
    Job(Job),
    Answer(Answer),
}

impl Made {
    /// The work type (`kind_of`).
    pub fn kind(&self) -> WorkType
        ensures { result.0 ≡ kind_of self.now }
    {
        match self {
            Made::Board(_) => BOARD,
            Made::Solution(_) => SOLUTION,
            Made::Job(_) => JOB,
            Made::Answer(_) => ANSWER,
        }
    }

    /// The body (`body_of`), of at most 268 bytes. Its only error is `NoMemory`.
    pub fn body(&self, alloc: Global) -> Result<Payload, NoMemory>
        ensures body { IfOk result (λ p. p ≡ body_of self.now) }
        ensures few { IfOk result (λ p. length p ≤ 268) }
    {
        match self {
            Made::Board(board) => board.body(alloc),
            Made::Solution(solution) => solution.body(alloc),
            Made::Job(job) => job.body(alloc),
            Made::Answer(answer) => answer.body(alloc),
        }
    }

    /// The unit of this work type, answer rank and body, if it has the form of one (`unit_of`).
    pub fn read(kind: WorkType, answer: Option<Rank>, body: &[u8]) -> Option<Made>
        ensures { result ≡ unit_of kind.0 answer body.now }
    {
        if kind == BOARD && is_answer_rank(answer) {
            return read_board(body);
        }
        if kind == SOLUTION && answer.is_none() {
            return read_solution(body);
        }
        if kind == JOB && is_answer_rank(answer) {
            return read_job(body);
        }
        if kind == ANSWER && answer.is_none() {
            return read_answer(body);
        }
        None
    }
}

fn read_board(body: &[u8]) -> Option<Made>
    ensures { result ≡ option_map Made.Board (board_of_body body.now) }
{
    match Board::read(body) {
        Some(board) => Some(Made::Board(board)),
        None => None,
    }
}

fn read_solution(body: &[u8]) -> Option<Made>
    ensures { result ≡ option_map Made.Solution (solution_of_body body.now) }
{
    match Solution::read(body) {
        Some(solution) => Some(Made::Solution(solution)),
        None => None,
    }
}

fn read_job(body: &[u8]) -> Option<Made>
    ensures { result ≡ option_map Made.Job (job_of_body body.now) }
{
    match Job::read(body) {
        Some(job) => Some(Made::Job(job)),
        None => None,
    }
}

fn read_answer(body: &[u8]) -> Option<Made>
    ensures { result ≡ option_map Made.Answer (answer_of_body body.now) }
{
    match Answer::read(body) {
        Some(answer) => Some(Made::Answer(answer)),
        None => None,
    }
}

// The rank is the one that has the answers.
fn is_answer_rank(answer: Option<Rank>) -> bool
    ensures { result ≡ is_for_answers answer }
{
    match answer {
        Some(rank) => rank == ANSWERS,
        None => false,
    }
}
