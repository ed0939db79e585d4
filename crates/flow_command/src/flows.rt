//! Runs over flows, as a command.

ghost use Rattle.std.specs.Prelude.{◌≡◌, ◌≤◌, ◌<◌, [], OnOk, length, vec_capacity};
ghost use Rattle.flow_law.specs.Flows.{flow_text};
ghost use Rattle.bag_ledger.specs.Runs.{calls};
ghost use Rattle.cover_law.specs.Begun.{pending_of};
ghost use Rattle.flow_bound_law.proofs.Together.{begun_most};
ghost use Rattle.flow_bound_law.specs.Most.{most_calls};
ghost use Rattle.flow_bound_law.specs.UnderWay.{HasCome, hears, leaves, works};
ghost use Rattle.flow_units.proofs.Backs.{are_forms};
ghost use Rattle.flow_units.specs.Bodies.{forms};
ghost use Rattle.flow_work.proofs.Ways.{way_so};
ghost use Rattle.run_command.proofs.Hearing.{come_by};
ghost use Rattle.flow_command.specs.Flows.{ArePrograms, HasFlow, RefusesLine};

use crate::inputs::FlowInput;
use crate::telling::tell_run;
use adlb_unit::NoMemory;
use flow_app::{FlowOutcome, FlowWhy};
use flow_work::FlowProgram;
use run_command::{Command, Kept, ReadFault};
use std::alloc::Global;

/// A run over the flow of an input.
#[derive(Clone, Copy)]
pub struct Flows {}

impl Command for Flows {
    type Asked = FlowInput;

    type Why = FlowWhy;

    type Program = FlowProgram;

    ghost asks = { λ flows bytes flow. HasFlow bytes flow };

    ghost refuses = { λ flows bytes line why. RefusesLine bytes line why };

    ghost are_programs = { λ flows ranks flow programs. ArePrograms ranks flow programs };

    ghost tells = { λ flows flow kept told. told ≡ flow_text flow };

    ghost may_take = { λ flows flow ranks many. many ≤ most_calls ranks flow };

    fn read(&self, alloc: Global, bytes: &[u8]) -> Result<FlowInput, ReadFault<FlowWhy>> {
        FlowInput::read(alloc, bytes)
    }

    fn fill(
        &self,
        alloc: Global,
        programs: &mut Vec<FlowProgram>,
        ranks: u32,
        asked: &FlowInput,
    ) -> Result<(), NoMemory> {
        fill(alloc, programs, ranks, asked)
    }

    fn tell(
        &self,
        alloc: Global,
        asked: &FlowInput,
        kept: &Kept<FlowOutcome>,
    ) -> Result<Vec<u8>, NoMemory> {
        tell_run(alloc, asked, kept)
    }

    ghost takes = { λ flows flow ranks many h.
        begun_most forms are_forms h.config h.ledger h.last flow ranks many h.ranks_are h.legal
        (λ rank below.
        let e = h.each rank below in
        let p = e.0 in
        let is = h.are.each rank p e.1 in
        let F = forms p.ranks in
        let told = calls h.config h.ledger rank in
        let pending = pending_of h.last rank in (
          p.ranks,
          p.flow,
          is.ranks_are,
          is.flow_is,
          come_by (HasCome F p.flow told pending)
              (λ begun so. let way = way_so F p.flow told begun so in works way.last way.goes)
              (λ own s so. hears own s so.0 so.1.last so.1.goes)
              (λ own begun so. let way = way_so F p.flow own begun so in leaves own way.last way.goes) e.2,
        )) h.enough };
}

// Adds the programs of the ranks to an empty list: the first has the flow. Its only error is `NoMemory`.
fn fill(
    alloc: Global,
    programs: &mut Vec<FlowProgram>,
    ranks: u32,
    asked: &FlowInput,
) -> Result<(), NoMemory>
    requires some { 0 < ranks }
    requires empty { programs.old.items ≡ [] }
    requires room { ranks ≤ vec_capacity programs.old }
    ensures all { OnOk result (length programs.new.items ≡ ranks) }
    ensures programs { OnOk result (ArePrograms ranks asked.now programs.new.items) }
{
    let flow = asked.again(alloc)?;
    programs.push_reserved(FlowProgram::new(alloc, ranks, Some(flow)));
    for _rank in 1..ranks {
        programs.push_reserved(FlowProgram::new(alloc, ranks, None));
    }
    Ok(())
}
