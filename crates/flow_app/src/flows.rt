//! A flow that was read.

ghost use Rattle.std.specs.Prelude.{◌≡◌, ◌<◌, ◌≤◌, ◌^◌, ℕ, length, slice_get, map, take, Some, None, Err, IfOk, OnOk, true};
ghost use Rattle.flow_law.specs.Flows.{AreDistinct, Name};
ghost use Rattle.flow_law.specs.declared.Definition.{Definition as Defined};
ghost use Rattle.flow_app.specs.Reading.{definition_limit, flow_refused, input_flow};
ghost use Rattle.flow_app.specs.Linked.{are_below, asks, has, inputs_by, inputs_of, noted_number, number_of};
ghost use Rattle.flow_app.specs.inside.Users.{AreInside, HasUsers};

use crate::faults::{FlowFault, FlowWhy};
use crate::links::{Inputs, Numbers, no_users, note_user};
use crate::parts::{Parts, without_return};
use crate::reading::Reading;
use adlb_unit::{NoMemory, or_no_memory};
use flow_law::Definition;
use std::alloc::Global;
use std::marker::Model;

/// A flow: at most 100,000 definitions, of distinct names. It is made by `read_flow` alone, and seen as the list of its
/// definitions, which are numbered from 0.
pub struct Flow {
    definitions: Vec<Definition>,
    inputs: Vec<Inputs>,
    users: Vec<Vec<u32>>,
}

// By hand, so that whoever holds a flow lets it go by one call.
impl Drop for Flow {
    fn drop(self) {
        let Flow {
            definitions,
            inputs,
            users,
        } = self;
    }
}

impl Model for Flow {
    ghost use Rattle.std.specs.Prelude.{List};
    ghost use Rattle.flow_law.specs.declared.Definition.{Definition};
    ghost use Rattle.flow_app.specs.Linked.{IsLinked};

    ghost Value = { List Definition };

    ghost view = { λ flow. flow.definitions.items };

    ghost invariant = { λ flow. IsLinked flow.definitions.items flow.inputs.items flow.users.items };
}

impl Flow {
    /// Its definitions.
    pub fn as_slice(&self) -> &[Definition]
        ensures definitions { result.now ≡ self.now }
        ensures distinct { AreDistinct self.now }
        ensures few { length self.now ≤ definition_limit }
    {
        self.definitions.as_slice()
    }

    /// The definition of a number.
    pub(crate) fn definition(&self, place: usize) -> &Definition
        requires { place < length self.now }
        ensures { slice_get self.now place ≡ Some result.now }
    {
        &self.definitions[place]
    }

    /// The numbers of the inputs of a definition.
    pub(crate) fn inputs(&self, place: usize) -> Inputs
        requires { place < length self.now }
        ensures { (d : Defined) → slice_get self.now place ≡ Some d → result ≡ inputs_of self.now d }
    {
        self.inputs[place]
    }

    /// The rules that ask for this number.
    pub(crate) fn users(&self, place: usize) -> &[u32]
        requires { place < length self.now }
        ensures within { are_below (length self.now) result.now ≡ true }
        ensures all { (q : ℕ) (d : Defined) → slice_get self.now q ≡ Some d → asks (inputs_of self.now d) place ≡ true →
            has result.now q ≡ true }
    {
        self.users[place].as_slice()
    }

    /// The flow of these definitions. Its only error is `NoMemory`.
    pub(crate) fn of(
        alloc: Global,
        mut definitions: Vec<Definition>,
        numbers: &Numbers<'_>,
    ) -> Result<Flow, NoMemory>
        requires distinct { AreDistinct definitions.items }
        requires few { length definitions.items ≤ definition_limit }
        requires numbers { (name : Name) → noted_number numbers.now name ≡ number_of definitions.items name }
        ensures { IfOk result (λ flow. flow ≡ definitions.items) }
    {
        definitions.shrink_to_fit();
        let inputs = all_inputs(alloc, definitions.as_slice(), numbers)?;
        let users = all_users(alloc, inputs.as_slice())?;
        Ok(Flow {
            definitions,
            inputs,
            users,
        })
    }
}

// The numbers of the inputs of each definition. Its only error is `NoMemory`.
fn all_inputs(
    alloc: Global,
    definitions: &[Definition],
    numbers: &Numbers<'_>,
) -> Result<Vec<Inputs>, NoMemory>
    ensures { IfOk result (λ inputs. inputs.items ≡ map (inputs_by (noted_number numbers.now)) definitions.now) }
{
    let mut inputs = Vec::new(alloc);
    or_no_memory(inputs.try_reserve_exact(definitions.len()))?;
    for definition in definitions {
        or_no_memory(inputs.push(Inputs::of(numbers, definition)))?;
    }
    Ok(inputs)
}

// Of each number the rules that ask for it. Its only error is `NoMemory`.
fn all_users(alloc: Global, inputs: &[Inputs]) -> Result<Vec<Vec<u32>>, NoMemory>
    requires few { length inputs.now ≤ definition_limit }
    requires inside { AreInside (length inputs.now) inputs.now }
    ensures { IfOk result (λ users. HasUsers (length inputs.now) inputs.now users.items) }
{
    let mut users = no_users(alloc, inputs.len())?;
    for (rule, asked) in inputs.iter().enumerate() {
        note_user(&mut users, asked.left, rule as u32)?;
        note_user(&mut users, asked.right, rule as u32)?;
    }
    Ok(users)
}

/// Reads a flow from at most 2^24 bytes. `Refused` is answered exactly if a line is refused, with the first such line and its
/// reason, unless `Memory` is answered, which may come of any input.
pub fn read_flow(alloc: Global, bytes: &[u8]) -> Result<Flow, FlowFault>
    requires { length bytes.now ≤ 2 ^ 24 }
    ensures flow { IfOk result (λ flow. (flow_refused bytes.now ≡ None) × (flow ≡ input_flow bytes.now)) }
    ensures refused { (line : ℕ) (why : FlowWhy) → result ≡ Err (FlowFault.Refused line why) →
        flow_refused bytes.now ≡ Some (line, why) }
{
    let mut lines = Parts::of(bytes, b'\n');
    let mut reading = Reading::new(alloc);
    let mut number = 0;
    'each: while let Some(line) = lines.next() {
        number += 1;
        reading.add(number, without_return(line))?;
    }
    Ok(reading.whole(alloc)?)
}
