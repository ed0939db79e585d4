//! The flow of an input.

ghost use Rattle.std.specs.Prelude.{◌≡◌, ◌≤◌, ◌^◌, IfOk, IfErr, length};
ghost use Rattle.run_command.specs.Reading.{RefusesBy};
ghost use Rattle.flow_command.specs.Flows.{HasFlow, RefusesLine};

use adlb_unit::{NoMemory, or_no_memory};
use flow_app::{Flow, FlowFault, FlowWhy, read_flow};
use run_command::ReadFault;
use std::alloc::Global;
use std::marker::Model;

/// A flow, and the bytes of which it was read, of which it can be read again. Contracts see it as the flow.
#[derive(Drop)]
pub struct FlowInput {
    bytes: Vec<u8>,
    flow: Flow,
}

impl Model for FlowInput {
    ghost use Rattle.std.specs.Prelude.{List};
    ghost use Rattle.flow_law.specs.declared.Definition.{Definition};
    ghost use Rattle.flow_command.specs.Flows.{IsInput};

    ghost Value = { List Definition };

    ghost view = { λ input. input.flow };

    ghost invariant = { λ input. IsInput input.bytes.items input.flow };
}

impl FlowInput {
    /// The flow of an input of at most 2^24 bytes.
    pub(crate) fn read(alloc: Global, bytes: &[u8]) -> Result<FlowInput, ReadFault<FlowWhy>>
        requires { length bytes.now ≤ 2 ^ 24 }
        ensures asked { IfOk result (HasFlow bytes.now) }
        ensures refused { IfErr result (RefusesBy (RefusesLine bytes.now)) }
    {
        let flow = flow_of(alloc, bytes)?;
        let Ok(bytes) = or_no_memory(Vec::from_slice(alloc, bytes)) else {
            return Err(ReadFault::Memory);
        };
        Ok(FlowInput { bytes, flow })
    }

    /// The flow.
    pub fn flow(&self) -> &Flow
        ensures { result.now ≡ self.now }
    {
        &self.flow
    }

    /// The flow, read once more. Its only error is `NoMemory`.
    pub(crate) fn again(&self, alloc: Global) -> Result<Flow, NoMemory>
        ensures { IfOk result (λ flow. flow ≡ self.now) }
    {
        match read_flow(alloc, self.bytes.as_slice()) {
            Ok(flow) => Ok(flow),
            Err(FlowFault::Refused { .. }) => unreachable!(),
            Err(FlowFault::Memory) => Err(NoMemory),
        }
    }
}

// The flow of these bytes.
fn flow_of(alloc: Global, bytes: &[u8]) -> Result<Flow, ReadFault<FlowWhy>>
    requires { length bytes.now ≤ 2 ^ 24 }
    ensures asked { IfOk result (HasFlow bytes.now) }
    ensures refused { IfErr result (RefusesBy (RefusesLine bytes.now)) }
{
    match read_flow(alloc, bytes) {
        Ok(flow) => Ok(flow),
        Err(FlowFault::Refused { line, why }) => Err(ReadFault::Refused { line, why }),
        Err(FlowFault::Memory) => Err(ReadFault::Memory),
    }
}
