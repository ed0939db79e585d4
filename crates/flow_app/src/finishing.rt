//! What ranks bring, and the output of a flow.

ghost use Rattle.std.specs.Prelude.{◌≡◌, ℕ, All, IfOk, OnOk};
ghost use Rattle.flow_law.specs.Flows.{flow_text};
ghost use Rattle.flow_app.specs.Finishing.{AreValues, IsItsValue};
ghost use Rattle.flow_app.specs.Stored.{IsWhole};

use crate::flows::Flow;
use crate::stores::Store;
use crate::texts::text_of;
use adlb_unit::NoMemory;
use std::alloc::Global;

/// What a rank of a flow has at its end: values of rules, each with the number of its definition.
#[derive(Drop)]
pub struct FlowOutcome {
    pub values: Vec<(u32, u64)>,
}

/// The output of a flow (`flow_text`): what the ranks brought is stored, and what is ready then is worked. A number that is no
/// rule's is ignored. Its only error is `NoMemory`.
pub fn finish_flow(
    alloc: Global,
    flow: &Flow,
    outcomes: &[FlowOutcome],
) -> Result<Vec<u8>, NoMemory>
    requires { AreValues flow.now outcomes.now }
    ensures { IfOk result (λ text. text.items ≡ flow_text flow.now) }
{
    let mut store = start(alloc, flow)?;
    for outcome in outcomes {
        keep_all(&mut store, flow, outcome.values.as_slice())?;
    }
    store.work_all(flow)?;
    text_of(alloc, flow, &store)
}

// The store of a flow at first. Its only error is `NoMemory`.
fn start(alloc: Global, flow: &Flow) -> Result<Store, NoMemory>
    ensures { IfOk result (λ store. IsWhole flow.now store) }
{
    Store::new(alloc, flow)
}

// Stores these values. Its only error is `NoMemory`.
fn keep_all(store: &mut Store, flow: &Flow, values: &[(u32, u64)]) -> Result<(), NoMemory>
    requires stored { IsWhole flow.now store.old }
    requires right { All (IsItsValue flow.now) values.now }
    ensures { OnOk result (IsWhole flow.now store.new) }
{
    for answer in values {
        let (number, value) = *answer;
        keep(store, flow, number, value)?;
    }
    Ok(())
}

// Stores the value of a rule. A number that is no rule's is ignored. Its only error is `NoMemory`.
fn keep(store: &mut Store, flow: &Flow, number: u32, value: u64) -> Result<(), NoMemory>
    requires stored { IsWhole flow.now store.old }
    requires right { IsItsValue flow.now (number, value) }
    ensures { OnOk result (IsWhole flow.now store.new) }
{
    store.keep(flow, number, value)
}
