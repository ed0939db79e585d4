//! What a rank has while it works: the units that it is still to put, and what stays with it.

ghost use Rattle.std.specs.Prelude.{◌≡◌, ◌==◌, ◌+◌, ◌<◌, ◌≤◌, ◌^◌, ◌++◌, ◌∷◌, [], length, map, OnOk, if◌then◌else◌};
ghost use Rattle.std.specs.List.{list_any};
ghost use Rattle.adlb_unit.specs.Totals.{total_of};
ghost use Rattle.job_units.specs.Reading.{common_bytes, fetched};
ghost use Rattle.job_units.specs.Works.{child_of, solution_at};
ghost use Rattle.puzzle_app.specs.Arrivals.{arrival};
ghost use Rattle.puzzle_app.specs.Desk.{Answers, Brings, HasRoom, Receives, Works, answers_to, noted};
ghost use Rattle.puzzle_app.specs.Tasks.{jobs_from};

use adlb_unit::{NoMemory, UnitNote, or_no_memory};
use bag_ledger::Body;
use job_report::Outcome;
use job_text::Item;
use job_units::{Board, Fetch, Job, Made, Solution, read_fetch};
use std::alloc::Global;
use std::collections::VecDeque;
use sudoku_rules::{Expansion, Grid, KeptGrid, expand};

/// The units that wait to be put, in order. The solutions and the answers that stay with the rank, and the puzzles
/// that are over. How many boards, solutions, jobs and answers were made.
pub struct Desk {
    pub waiting: VecDeque<Made>,
    pub kept: Vec<(u32, KeptGrid)>,
    pub answers: Vec<(u32, u32, u64)>,
    pub overs: Vec<u32>,
    pub boards: u128,
    pub found: u128,
    pub jobs: u128,
    pub answered: u128,
}

// By hand, so that whoever holds a desk lets it go by one call.
impl Drop for Desk {
    fn drop(self) {
        let Desk {
            waiting,
            kept,
            answers,
            overs,
            boards,
            found,
            jobs,
            answered,
        } = self;
    }
}

impl Desk {
    /// An empty desk; `boards` and `jobs` count the units that the input makes.
    pub fn new(alloc: Global, boards: u128, jobs: u128) -> Desk
        ensures waiting { result.waiting.items ≡ [] }
        ensures kept { result.kept.items ≡ [] }
        ensures answers { result.answers.items ≡ [] }
        ensures overs { result.overs.items ≡ [] }
        ensures boards { result.boards ≡ boards }
        ensures found { result.found ≡ 0 }
        ensures jobs { result.jobs ≡ jobs }
        ensures answered { result.answered ≡ 0 }
    {
        Desk {
            waiting: VecDeque::new(alloc),
            kept: Vec::new(alloc),
            answers: Vec::new(alloc),
            overs: Vec::new(alloc),
            boards,
            found: 0,
            jobs,
            answered: 0,
        }
    }

    /// A unit comes to the rank (`Receives`): a board is worked, a job over these common bytes, and a solution or an
    /// answer stays. Its only error is `NoMemory`.
    pub fn receive(
        &mut self,
        alloc: Global,
        grain: u64,
        common: &[u8],
        made: &Made,
    ) -> Result<(), NoMemory>
        requires room { HasRoom self.old }
        requires common { length common.now < 2 ^ 56 }
        ensures { OnOk result (Receives grain (arrival common.now made.now) self.old self.new) }
    {
        match made {
            Made::Board(board) => self.work(alloc, grain, board),
            Made::Solution(solution) => {
                let grid = solution.grid.keep(alloc)?;
                or_no_memory(self.kept.push((solution.puzzle, grid)))
            }
            Made::Job(job) => {
                self.answered += 1;
                let answer = Made::Answer(job.answer(common));
                or_no_memory(self.waiting.push_front(answer))
            }
            Made::Answer(answer) => {
                or_no_memory(
                    self.answers
                        .push((answer.batch, answer.number, answer.value)),
                )
            }
        }
    }

    /// A fetch of a unit of this note comes (`Brings`). A unit that has not the form of its type is dropped. Its only
    /// error is `NoMemory`.
    pub fn bring(
        &mut self,
        alloc: Global,
        grain: u64,
        note: &UnitNote,
        body: &Body,
    ) -> Result<(), NoMemory>
        requires room { HasRoom self.old }
        requires total { length body.now ≡ total_of note.now }
        ensures { OnOk result (Brings grain (common_bytes note.now.length body.now)
            (fetched note.now body.now) self.old self.new) }
    {
        let mut room = Vec::new(alloc);
        match read_fetch(note, body, &mut room) {
            Ok(
                Fetch {
                    common,
                    unit: Some(made),
                },
            ) => self.receive(alloc, grain, common, &made),
            Ok(_) => Ok(()),
            Err(NoMemory) => Err(NoMemory),
        }
    }

    /// The items of a batch that no server takes come to the rank (`Answers`): their answers wait after all else. Its
    /// only error is `NoMemory`.
    pub fn answer_all(&mut self, batch: u32, common: &[u8], items: &[Item]) -> Result<(), NoMemory>
        requires room { HasRoom self.old }
        requires common { length common.now < 2 ^ 56 }
        requires few { length items.now ≤ 2 ^ 24 }
        ensures { OnOk result (Answers batch common.now items.now self.old self.new) }
    {
        self.answered += items.len() as u128;
        put_answers_last(&mut self.waiting, batch, common, items)
    }

    // Works a board: what it makes waits before all else.
    fn work(&mut self, alloc: Global, grain: u64, board: &Board) -> Result<(), NoMemory>
        requires { HasRoom self.old }
        ensures { OnOk result (Works grain board.now self.old self.new) }
    {
        let met = expand(alloc, board.budget, &board.grid, grain)?;
        let Expansion {
            solutions,
            children,
            over,
        } = met;
        note_over(over, &mut self.overs, board.puzzle)?;
        self.boards += children.len() as u128;
        self.found += solutions.len() as u128;
        put_solutions_first(&mut self.waiting, board.puzzle, solutions)?;
        put_children_first(&mut self.waiting, board.puzzle, children)?;
        Ok(())
    }

    /// What the rank has at its end.
    pub fn outcome(self) -> Outcome
        ensures solutions { result.solutions.items ≡ self.kept.items }
        ensures overs { result.overs.items ≡ self.overs.items }
        ensures answers { result.answers.items ≡ self.answers.items }
        ensures made { result.made ≡ self.boards ∷ self.found ∷ self.jobs ∷ self.answered ∷ [] }
    {
        let Desk {
            waiting: _,
            kept,
            answers,
            overs,
            boards,
            found,
            jobs,
            answered,
        } = self;
        Outcome {
            solutions: kept,
            overs,
            answers,
            made: [boards, found, jobs, answered],
        }
    }
}

// Notes the number of a puzzle that is over, once.
fn note_over(over: bool, numbers: &mut Vec<u32>, number: u32) -> Result<(), NoMemory>
    ensures { OnOk result (numbers.new.items ≡ (if over then noted number numbers.old.items else numbers.old.items)) }
{
    if !over || has(numbers, number) {
        return Ok(());
    }
    or_no_memory(numbers.push(number))
}

// The number is among them.
fn has(numbers: &[u32], number: u32) -> bool
    ensures { result ≡ list_any (λ n. n == number) numbers.now }
{
    numbers.iter().any(|n| *n == number)
}

// The solutions wait before all else, in order.
fn put_solutions_first(
    waiting: &mut VecDeque<Made>,
    puzzle: u32,
    mut grids: Vec<Grid>,
) -> Result<(), NoMemory>
    ensures { OnOk result (waiting.new.items ≡ map (solution_at puzzle) grids.items ++ waiting.old.items) }
{
    'grids: while let Some(grid) = grids.pop() {
        let made = Made::Solution(Solution { puzzle, grid });
        or_no_memory(waiting.push_front(made))?;
    }
    Ok(())
}

// The boards wait before all else, in order.
fn put_children_first(
    waiting: &mut VecDeque<Made>,
    puzzle: u32,
    mut boards: Vec<(u64, Grid)>,
) -> Result<(), NoMemory>
    ensures { OnOk result (waiting.new.items ≡ map (child_of puzzle) boards.items ++ waiting.old.items) }
{
    'boards: while let Some((budget, grid)) = boards.pop() {
        let made = Made::Board(Board {
            puzzle,
            budget,
            grid,
        });
        or_no_memory(waiting.push_front(made))?;
    }
    Ok(())
}

// The answers to the items of a batch wait after all else, in order.
fn put_answers_last(
    waiting: &mut VecDeque<Made>,
    batch: u32,
    common: &[u8],
    items: &[Item],
) -> Result<(), NoMemory>
    requires common { length common.now < 2 ^ 56 }
    requires few { length items.now ≤ 2 ^ 24 }
    ensures { OnOk result (waiting.new.items ≡ waiting.old.items ++
        answers_to common.now (jobs_from batch 1 items.now)) }
{
    let mut number: u32 = 1;
    for item in items {
        let job = Job {
            batch,
            number,
            item: *item,
        };
        or_no_memory(waiting.push_back(Made::Answer(job.answer(common))))?;
        number += 1;
    }
    Ok(())
}
