//! The command `tour`.

ghost use Rattle.std.specs.Prelude.{◌≡◌, ◌≤◌};
ghost use Rattle.run_command.specs.Ends.{scene};
ghost use Rattle.tour_command.specs.Ends.{FindsTour};

use crate::tours::Tours;
use adlb_io::{Gate, Sink, Source, Spawner};
use adlb_unit::Config;
use run_command::{Ended, run};
use std::alloc::Global;
use tour_app::TourOutcome;
use tour_search::CitiesWhy;

/// Reads the input's cities, searches their tours with the configuration's ranks and servers, each in a thread of its own, and writes a
/// least tour. `FindsTour` says how it ends, and what it keeps and starts. It waits for its threads.
pub fn tour<S: Source, K: Sink, T: Spawner, G: Gate + Send + Drop + 'static>(
    alloc: Global,
    config: Config,
    input: &mut S,
    output: &mut K,
    threads: &mut T,
    gate: G,
) -> Ended<CitiesWhy, TourOutcome>
    ensures finds { FindsTour (λ c. c ≡ config)
        (scene (S.left input.old) (S.faults input.old) (K.taken output.old) (K.faults output.old) (K.all_flushed output.old)
        (T.faults threads.old) (T.starts threads.old))
        (scene (S.left input.new) (S.faults input.new) (K.taken output.new) (K.faults output.new) (K.all_flushed output.new)
        (T.faults threads.new) (T.starts threads.new))
        result.fault result.kept }
    ensures source { S.faults input.old ≤ S.faults input.new }
    ensures sink { K.faults output.old ≤ K.faults output.new }
    ensures threads { T.faults threads.old ≤ T.faults threads.new }
{
    run(
        alloc,
        &Tours {},
        config,
        false,
        input,
        output,
        threads,
        gate,
    )
}
