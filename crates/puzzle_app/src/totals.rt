//! How many units the jobs of an input make.

ghost use Rattle.std.specs.Prelude.{◌≡◌, ◌≤◌, ◌^◌, length};
ghost use Rattle.job_report.specs.Jobs.{all_items, item_count, puzzles};
ghost use Rattle.puzzle_app.specs.Working.{board_count};

use job_text::Job;

/// How many boards and jobs are made of the jobs of an input.
pub(crate) fn count_made(jobs: &[Job]) -> (u128, u128)
    requires few { length jobs.now ≤ 2 ^ 24 }
    ensures boards { result.0 ≡ length (puzzles jobs.now) }
    ensures items { result.1 ≡ all_items jobs.now }
    ensures few_boards { result.0 ≤ 2 ^ 24 }
    ensures few_items { result.1 ≤ 2 ^ 48 }
{
    let mut boards: u128 = 0;
    let mut items: u128 = 0;
    for job in jobs {
        boards += boards_in(job);
        items += items_in(job);
    }
    (boards, items)
}

fn boards_in(job: &Job) -> u128
    ensures is { result ≡ board_count job.now }
    ensures few { result ≤ 1 }
{
    match job {
        Job::Puzzle(_) => 1,
        Job::Batch { .. } => 0,
    }
}

fn items_in(job: &Job) -> u128
    ensures is { result ≡ item_count job.now }
    ensures few { result ≤ 2 ^ 24 }
{
    match job {
        Job::Puzzle(_) => 0,
        Job::Batch { items, .. } => items.as_slice().len() as u128,
    }
}
