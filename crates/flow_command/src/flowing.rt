//! The command `flow`.

ghost use Rattle.std.specs.Prelude.{◌≡◌, ◌≤◌};
ghost use Rattle.run_command.specs.Ends.{scene};
ghost use Rattle.flow_command.specs.Ends.{FindsValues};

use crate::flows::Flows;
use adlb_io::{Gate, Sink, Source, Spawner};
use adlb_unit::Config;
use flow_app::{FlowOutcome, FlowWhy};
use run_command::{Ended, run};
use std::alloc::Global;

/// Reads the input's flow, computes its rules with the configuration's ranks and servers, each in a thread of its own, and writes the
/// values of its names. `FindsValues` says how it ends, and what it keeps and starts. It waits for its threads.
pub fn flow<S: Source, K: Sink, T: Spawner, G: Gate + Send + Drop + 'static>(
    alloc: Global,
    config: Config,
    input: &mut S,
    output: &mut K,
    threads: &mut T,
    gate: G,
) -> Ended<FlowWhy, FlowOutcome>
    ensures finds { FindsValues config.ranks (λ c. c ≡ config)
        (scene (S.left input.old) (S.faults input.old) (K.taken output.old) (K.faults output.old) (K.all_flushed output.old)
        (T.faults threads.old) (T.starts threads.old))
        (scene (S.left input.new) (S.faults input.new) (K.taken output.new) (K.faults output.new) (K.all_flushed output.new)
        (T.faults threads.new) (T.starts threads.new))
        result.fault result.kept }
    ensures source { S.faults input.old ≤ S.faults input.new }
    ensures sink { K.faults output.old ≤ K.faults output.new }
    ensures threads { T.faults threads.old ≤ T.faults threads.new }
{
    run(
        alloc,
        &Flows {},
        config,
        false,
        input,
        output,
        threads,
        gate,
    )
}
