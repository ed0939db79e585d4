//! What is written of a run over a flow.

ghost use Rattle.std.specs.Prelude.{◌≡◌, IfOk};
ghost use Rattle.flow_app.specs.Finishing.{AreValues};
ghost use Rattle.flow_law.specs.Flows.{flow_text};
ghost use Rattle.run_command.specs.Kept.{HasRun, IsWorkedUp};
ghost use Rattle.flow_command.specs.Flows.{ArePrograms, FollowsFlow};

use crate::inputs::FlowInput;
use adlb_unit::NoMemory;
use flow_app::{FlowOutcome, finish_flow};
use run_command::{Kept, Report};
use std::alloc::Global;

/// The text of the values of this flow (`flow_text`), by a run over it of which this is kept. All work of the run is done. Its only error
/// is `NoMemory`.
pub(crate) fn tell_run(
    alloc: Global,
    asked: &FlowInput,
    kept: &Kept<FlowOutcome>,
) -> Result<Vec<u8>, NoMemory>
    requires { HasRun ArePrograms FollowsFlow asked.now kept.now.report }
    ensures told { IfOk result (λ text. text.items ≡ flow_text asked.now) }
    ensures worked_up { IfOk result (λ text. IsWorkedUp kept.now.report) }
{
    text_of(alloc, asked, kept.report())
}

// The text of the values of this flow, by what the ranks bring.
fn text_of(
    alloc: Global,
    asked: &FlowInput,
    report: &Report<FlowOutcome>,
) -> Result<Vec<u8>, NoMemory>
    requires { AreValues asked.now report.now.outcomes }
    ensures { IfOk result (λ text. text.items ≡ flow_text asked.now) }
{
    finish_flow(alloc, asked.flow(), &report.outcomes)
}
