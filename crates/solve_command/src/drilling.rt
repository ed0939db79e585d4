//! The command `drill`.

ghost use Rattle.std.specs.Prelude.{◌≡◌, ◌≤◌, ℕ, List, Option, true};
ghost use Rattle.run_command.specs.Ends.{scene};
ghost use Rattle.solve_command.specs.Ends.{Drills};

use crate::puzzles::Puzzles;
use adlb_io::{Gate, Sink, Spawner, SteadySource};
use adlb_unit::Config;
use job_report::Outcome;
use job_text::LineWhy;
use made_jobs::made;
use puzzle_app::Settings;
use run_command::{Ended, Fault, run};
use solve_report::{Extras, Wanted};
use std::alloc::Global;

/// Works the made text of `count` puzzles from `seed` as `solve` works an input, and writes the summary in place of the report. `Drills`
/// says how it ends, and what it keeps and starts. It waits for its threads, unless it runs in line.
pub fn drill<K: Sink, T: Spawner, G: Gate + Send + Drop + 'static>(
    alloc: Global,
    count: u32,
    seed: u64,
    settings: Settings,
    config: Config,
    inline: bool,
    output: &mut K,
    threads: &mut T,
    gate: G,
) -> Ended<LineWhy, Outcome>
    requires single { inline ≡ true → (config.ranks ≡ 1) × (config.servers ≡ 1) }
    ensures drills { (left : Option (List ℕ)) (reads : ℕ) → Drills count seed settings config.ranks (λ c. c ≡ config) inline
        (scene left reads (K.taken output.old) (K.faults output.old) (K.all_flushed output.old) (T.faults threads.old) (T.starts threads.old))
        (scene left reads (K.taken output.new) (K.faults output.new) (K.all_flushed output.new) (T.faults threads.new) (T.starts threads.new))
        result.fault result.kept }
    ensures sink { K.faults output.old ≤ K.faults output.new }
    ensures threads { T.faults threads.old ≤ T.faults threads.new }
{
    let Ok(text) = made(alloc, count, seed) else {
        return Ended {
            fault: Some(Fault::Memory),
            kept: None,
        };
    };
    let mut source = SteadySource::new(text);
    let puzzles: Puzzles<Extras> = Puzzles {
        settings,
        wanted: Wanted::Summary { count, seed },
    };
    run(
        alloc,
        &puzzles,
        config,
        inline,
        &mut source,
        output,
        threads,
        gate,
    )
}
