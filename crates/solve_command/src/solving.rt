//! The command `solve`.

ghost use Rattle.std.specs.Prelude.{◌≡◌, ◌≤◌, true};
ghost use Rattle.run_command.specs.Ends.{scene};
ghost use Rattle.solve_command.specs.Ends.{Solves};

use crate::puzzles::Puzzles;
use adlb_io::{Gate, Sink, Source, Spawner};
use adlb_unit::Config;
use job_report::Outcome;
use job_text::LineWhy;
use puzzle_app::Settings;
use run_command::{Ended, run};
use solve_report::{Tail, Wanted};
use std::alloc::Global;

/// Reads the input's puzzles and batches, and works them with these settings, in line or with the configuration's ranks and servers.
/// Writes their report, and after it the tail. `Solves` says how it ends, and what it keeps and starts. It waits for its threads, unless
/// it runs in line.
pub fn solve<E, S, K, T, G>(
    alloc: Global,
    settings: Settings,
    tail: E,
    config: Config,
    inline: bool,
    input: &mut S,
    output: &mut K,
    threads: &mut T,
    gate: G,
) -> Ended<LineWhy, Outcome>
where
    E: Tail + Drop,
    S: Source,
    K: Sink,
    T: Spawner,
    G: Gate + Send + Drop + 'static,
    requires single { inline ≡ true → (config.ranks ≡ 1) × (config.servers ≡ 1) }
    ensures solves { Solves settings (E.tail tail) config.ranks (λ c. c ≡ config) inline
        (scene (S.left input.old) (S.faults input.old) (K.taken output.old) (K.faults output.old) (K.all_flushed output.old)
        (T.faults threads.old) (T.starts threads.old))
        (scene (S.left input.new) (S.faults input.new) (K.taken output.new) (K.faults output.new) (K.all_flushed output.new)
        (T.faults threads.new) (T.starts threads.new))
        result.fault result.kept }
    ensures source { S.faults input.old ≤ S.faults input.new }
    ensures sink { K.faults output.old ≤ K.faults output.new }
    ensures threads { T.faults threads.old ≤ T.faults threads.new }
{
    let puzzles = Puzzles {
        settings,
        wanted: Wanted::Report(tail),
    };
    run(
        alloc, &puzzles, config, inline, input, output, threads, gate,
    )
}
