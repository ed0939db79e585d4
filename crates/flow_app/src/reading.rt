//! The definitions of the lines that were read so far.

ghost use Rattle.std.specs.Prelude.{◌≡◌, ◌≤◌, ℕ, [], length, Some, None, Err, IfOk, OnOk};
ghost use Rattle.flow_law.specs.Flows.{name_of};
ghost use Rattle.flow_law.specs.declared.Definition.{Definition as Defined};
ghost use Rattle.flow_app.specs.Kinds.{defines, kind_of};
ghost use Rattle.flow_app.specs.Reading.{define_fault, fault_of};
ghost use Rattle.flow_app.specs.inside.Read.{Extends, IsRead};

use crate::faults::{FlowFault, FlowWhy};
use crate::flows::Flow;
use crate::kinds::{Line, Named, line_of};
use crate::links::Numbers;
use adlb_unit::{NoMemory, or_no_memory};
use flow_law::Definition;
use std::alloc::Global;

/// The most definitions of a flow.
const DEFINITION_LIMIT: usize = 100_000;

/// The definitions, and the number of each name.
#[derive(Drop)]
pub(crate) struct Reading<'a> {
    definitions: Vec<Definition>,
    numbers: Numbers<'a>,
}

impl<'a> Reading<'a> {
    /// No line was read.
    pub(crate) fn new(alloc: Global) -> Reading<'a>
        ensures read { IsRead result }
        ensures none { result.definitions.items ≡ [] }
    {
        Reading {
            definitions: Vec::new(alloc),
            numbers: Numbers::new(alloc),
        }
    }

    /// Adds a line of this number.
    pub(crate) fn add(&mut self, number: u64, line: &'a [u8]) -> Result<(), FlowFault>
        requires { IsRead self.old }
        ensures extends { OnOk result (Extends self.old (kind_of line.now) self.new) }
        ensures refused { (n : ℕ) (why : FlowWhy) → result ≡ Err (FlowFault.Refused n why) →
            (n ≡ number) × (fault_of self.old.definitions.items (kind_of line.now) ≡ Some why) }
    {
        match line_of(line) {
            Line::Skipped => Ok(()),
            Line::Bad(why) => Err(FlowFault::Refused { line: number, why }),
            Line::Defines(named) => match self.why_not(named.name) {
                Some(why) => Err(FlowFault::Refused { line: number, why }),
                None => Ok(self.define(named)?),
            },
        }
    }

    // Why this name cannot be defined, if it cannot.
    fn why_not(&self, name: &[u8]) -> Option<FlowWhy>
        requires { IsRead self.now }
        ensures { (d : Defined) → name_of d ≡ name.now → result ≡ define_fault self.now.definitions.items d }
    {
        if self.numbers.get(name).is_some() {
            Some(FlowWhy::Twice)
        } else if self.definitions.len() >= DEFINITION_LIMIT {
            Some(FlowWhy::Many)
        } else {
            None
        }
    }

    // Adds a definition of a new name. Its only error is `NoMemory`.
    fn define(&mut self, named: Named<'a>) -> Result<(), NoMemory>
        requires read { IsRead self.old }
        requires new { define_fault self.old.definitions.items named.definition ≡ None }
        requires name { named.name.now ≡ name_of named.definition }
        ensures { OnOk result (Extends self.old (defines named.entry.definition) self.new) }
    {
        let Named { name, definition } = named;
        let number = self.definitions.len() as u32;
        self.numbers.note(name, number)?;
        or_no_memory(self.definitions.push(definition))?;
        Ok(())
    }

    /// The flow that was read. Its only error is `NoMemory`.
    pub(crate) fn whole(self, alloc: Global) -> Result<Flow, NoMemory>
        requires { IsRead self }
        ensures { IfOk result (λ flow. flow ≡ self.entry.definitions.items) }
    {
        let Reading {
            definitions,
            numbers,
        } = self;
        Flow::of(alloc, definitions, &numbers)
    }
}
