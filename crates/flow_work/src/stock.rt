//! What a rank has while it works, and what it brings at its end.

ghost use Rattle.std.specs.Prelude.{◌≡◌, ◌++◌, length, IfOk, OnOk};
ghost use Rattle.flow_work.specs.Stocks.{AreValuesTo, rule_value as value_of_rule, value_with};

use adlb_unit::{NoMemory, or_no_memory};
use flow_app::{Flow, Store};
use flow_law::Definition;
use std::alloc::Global;
use std::collections::VecDeque;

/// What the rank that has the flow has: the store, and the answers that were left when an end was told.
#[derive(Drop)]
pub struct Home {
    pub store: Store,
    pub kept: Vec<(u32, u64)>,
}

/// The values of the rules of a flow that are stored, each with the number of its rule. Its only error is `NoMemory`.
pub(crate) fn own_values(
    alloc: Global,
    flow: &Flow,
    store: &Store,
) -> Result<Vec<(u32, u64)>, NoMemory>
    requires long { length store.now.values.items ≡ length flow.now }
    ensures { IfOk result (λ own. AreValuesTo flow.now store.now.values.items own.items (length flow.now)) }
{
    let mut own = Vec::new(alloc);
    for (place, definition) in flow.as_slice().iter().enumerate() {
        let value = rule_value(definition, store.value(place));
        append_value(&mut own, place as u32, value)?;
    }
    Ok(own)
}

// The value of a definition, if it is a rule.
fn rule_value(definition: &Definition, value: Option<u64>) -> Option<u64>
    ensures { result ≡ value_of_rule definition.now value }
{
    match definition {
        Definition::Let { .. } => None,
        Definition::Rule { .. } => value,
    }
}

// Appends the value of a number, if it has one. Its only error is `NoMemory`.
fn append_value(
    values: &mut Vec<(u32, u64)>,
    number: u32,
    value: Option<u64>,
) -> Result<(), NoMemory>
    ensures { OnOk result (values.new.items ≡ values.old.items ++ value_with number value) }
{
    match value {
        Some(value) => or_no_memory(values.push((number, value))),
        None => Ok(()),
    }
}

/// Appends answers in order. Its only error is `NoMemory`.
pub(crate) fn append_all(
    values: &mut Vec<(u32, u64)>,
    answers: &[(u32, u64)],
) -> Result<(), NoMemory>
    ensures { OnOk result (values.new.items ≡ values.old.items ++ answers.now) }
{
    or_no_memory(values.extend_from_slice(answers))
}

/// Answers in a list. Its only error is `NoMemory`.
pub(crate) fn list_of(
    alloc: Global,
    mut answers: VecDeque<(u32, u64)>,
) -> Result<Vec<(u32, u64)>, NoMemory>
    ensures { IfOk result (λ list. list.items ≡ answers.items) }
{
    let mut list = Vec::new(alloc);
    'answers: while let Some(answer) = answers.pop_front() {
        or_no_memory(list.push(answer))?;
    }
    Ok(list)
}
