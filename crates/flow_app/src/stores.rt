//! The values of a flow while they come together.

ghost use Rattle.std.specs.Prelude.{◌≡◌, ◌+◌, ◌<◌, ◌∷◌, [], ℕ, List, length, count_by, slice_get, slice_set, is_some, Some, None, true, false, IfOk, OnOk};
ghost use Rattle.flow_law.specs.Flows.{apply as applied, gives, joined};
ghost use Rattle.flow_law.specs.declared.Definition.{Definition as Defined};
ghost use Rattle.flow_app.specs.inside.Users.{IsInside};
ghost use Rattle.flow_app.specs.Stored.{AreLetsAlone, Grows, HasLetsTo, IsDrained, IsLaidOut, IsWhole, Lays, first_stays, given_by, is_noted, made_ready, own_value as own, ready_by, ready_from, to_take, value_at, value_of, worth_in};

use crate::flows::Flow;
use crate::links::Inputs;
use adlb_unit::{NoMemory, or_no_memory};
use flow_law::{Definition, Op};
use std::alloc::Global;

/// What a rule does, and the values of its inputs.
#[derive(Clone, Copy, Drop)]
pub struct ReadyRule {
    pub op: Op,
    pub left: u64,
    pub right: u64,
}

impl ReadyRule {
    /// The value of the rule.
    pub fn value(&self) -> u64
        ensures { result ≡ applied self.now.op self.now.left self.now.right }
    {
        self.op.apply(self.left, self.right)
    }
}

/// The values that are known, which rules are noted since their inputs have values, and these rules in the order in which
/// they were noted: those before `next` were taken.
pub struct Store {
    values: Vec<Option<u64>>,
    noted: Vec<bool>,
    ready: Vec<u32>,
    next: usize,
}

// By hand, so that whoever holds a store lets it go by one call.
impl Drop for Store {
    fn drop(self) {
        let Store {
            values,
            noted,
            ready,
            next,
        } = self;
    }
}

impl Store {
    /// The store of a flow at first: it has the value of each `let`, and no other, and no rule was taken. Its only error is
    /// `NoMemory`.
    pub fn new(alloc: Global, flow: &Flow) -> Result<Store, NoMemory>
        ensures out { IfOk result (λ store. IsLaidOut flow.now store) }
        ensures alone { IfOk result (λ store. AreLetsAlone flow.now store.values.items) }
        ensures first { IfOk result (λ store. store.next ≡ 0) }
    {
        let mut store = Store::empty(alloc, flow.as_slice().len())?;
        for place in 0..flow.as_slice().len() {
            store.start(flow, place)?;
        }
        Ok(store)
    }

    // Stores the value of a definition that is a `let`. Its only error is `NoMemory`.
    fn start(&mut self, flow: &Flow, place: usize) -> Result<(), NoMemory>
        requires laid { Lays flow.now self.old [] }
        requires lets { HasLetsTo flow.now self.old.values.items place }
        requires inside { place < length flow.now }
        ensures laid { OnOk result (Lays flow.now self.new []) }
        ensures lets { OnOk result (HasLetsTo flow.now self.new.values.items (place + 1)) }
        ensures next { OnOk result (self.new.next ≡ self.old.next) }
    {
        if let Some(value) = own_value(flow.definition(place)) {
            self.settle(flow, place, value)?;
            return Ok(());
        }
        Ok(())
    }

    // No value is known. Its only error is `NoMemory`.
    fn empty(alloc: Global, count: usize) -> Result<Store, NoMemory>
        ensures values { IfOk result (λ store. (length store.values.items ≡ count) × ((i : ℕ) → value_at store.values.items i ≡ None)) }
        ensures noted { IfOk result (λ store. (length store.noted.items ≡ count) × ((i : ℕ) → is_noted store.noted.items i ≡ false)) }
        ensures ready { IfOk result (λ store. (store.ready.items ≡ []) × (store.next ≡ 0)) }
    {
        Ok(Store {
            values: or_no_memory(vec![in alloc; None; count])?,
            noted: or_no_memory(vec![in alloc; false; count])?,
            ready: Vec::new(alloc),
            next: 0,
        })
    }

    /// The value of a number.
    pub fn value(&self, place: usize) -> Option<u64>
        requires { place < length self.now.values.items }
        ensures { result ≡ value_at self.now.values.items place }
    {
        self.values[place]
    }

    /// How many numbers have a value.
    pub(crate) fn count(&self) -> usize
        ensures { result ≡ count_by (λ v. is_some v) self.now.values.items }
    {
        self.values.iter().filter(|value| value.is_some()).count()
    }

    // The value of an input, if it is defined and has one.
    fn input(&self, number: Option<u32>) -> Option<u64>
        requires { (i : ℕ) → number ≡ Some i → i < length self.now.values.items }
        ensures { result ≡ value_of self.now.values.items number }
    {
        match number {
            Some(number) => self.values[number as usize],
            None => None,
        }
    }

    /// The next rule that is noted and was not taken, if there is one.
    pub fn next(&self) -> Option<u32>
        ensures { result ≡ slice_get self.now.ready.items self.now.next }
    {
        self.ready.get(self.next).copied()
    }

    /// Takes the next rule.
    pub fn pass(&mut self)
        requires more { self.old.next < length self.old.ready.items }
        ensures { self.new ≡ record self.old { next = self.old.next + 1 } }
    {
        self.next += 1;
    }

    /// The rule of a number with the values of its inputs, if it is a rule's and both have values.
    pub fn rule(&self, flow: &Flow, place: usize) -> Option<ReadyRule>
        requires inside { place < length flow.now }
        requires long { length self.now.values.items ≡ length flow.now }
        ensures { (d : Defined) → slice_get flow.now place ≡ Some d → result ≡ ready_by (worth_in flow.now self.now.values.items) d }
    {
        self.ready_rule(flow.definition(place), flow.inputs(place))
    }

    // A definition whose inputs have these numbers, if it is a rule and both have values.
    fn ready_rule(&self, definition: &Definition, asked: Inputs) -> Option<ReadyRule>
        requires { IsInside (length self.now.values.items) asked }
        ensures { result ≡ ready_from self.now.values.items asked definition.now }
    {
        match definition {
            Definition::Let { .. } => None,
            Definition::Rule { op, .. } => {
                made(*op, self.input(asked.left), self.input(asked.right))
            }
        }
    }

    // What a definition gives by the values that are known.
    fn worth(&self, flow: &Flow, place: usize) -> Option<u64>
        requires inside { place < length flow.now }
        requires long { length self.now.values.items ≡ length flow.now }
        ensures { (d : Defined) → slice_get flow.now place ≡ Some d → result ≡ gives (worth_in flow.now self.now.values.items) d }
    {
        self.given(flow.definition(place), flow.inputs(place))
    }

    // What a definition gives whose inputs have these numbers.
    fn given(&self, definition: &Definition, asked: Inputs) -> Option<u64>
        requires { IsInside (length self.now.values.items) asked }
        ensures { result ≡ given_by self.now.values.items asked definition.now }
    {
        match definition {
            Definition::Let { value, .. } => Some(*value),
            Definition::Rule { op, .. } => {
                join(*op, self.input(asked.left), self.input(asked.right))
            }
        }
    }

    // Notes a rule if its inputs have values. Its only error is `NoMemory`.
    fn note(&mut self, flow: &Flow, rule: u32) -> Result<(), NoMemory>
        requires laid { (rest : List ℕ) × Lays flow.now self.old (rule ∷ rest) }
        requires inside { rule < length flow.now }
        ensures laid { OnOk result ((rest : List ℕ) → Lays flow.now self.old (rule ∷ rest) → Lays flow.now self.new rest) }
        ensures values { OnOk result (self.new.values.items ≡ self.old.values.items) }
        ensures left { OnOk result (to_take self.new ≡ to_take self.old) }
        ensures next { OnOk result (self.new.next ≡ self.old.next) }
        ensures grows { OnOk result (Grows self.old.ready.items self.new.ready.items) }
    {
        let place = rule as usize;
        if self.noted[place] {
            return Ok(());
        }
        if self.worth(flow, place).is_none() {
            return Ok(());
        }
        or_no_memory(self.ready.push(rule))?;
        self.noted[place] = true;
        Ok(())
    }

    // Stores the value of a number that has none yet, and notes the rules that become ready. Its only error is `NoMemory`.
    fn settle(&mut self, flow: &Flow, place: usize, value: u64) -> Result<(), NoMemory>
        requires laid { Lays flow.now self.old [] }
        requires inside { place < length flow.now }
        requires none { value_at self.old.values.items place ≡ None }
        ensures laid { OnOk result (Lays flow.now self.new []) }
        ensures values { OnOk result (self.new.values.items ≡ slice_set self.old.values.items place (Some value)) }
        ensures left { OnOk result (to_take self.new ≡ to_take self.old) }
        ensures next { OnOk result (self.new.next ≡ self.old.next) }
        ensures grows { OnOk result (Grows self.old.ready.items self.new.ready.items) }
    {
        self.values[place] = Some(value);
        for rule in flow.users(place) {
            self.note(flow, *rule)?;
        }
        Ok(())
    }

    /// Stores the value of a number, unless it has one (`first_stays`). A number of no definition is ignored. Its only error is
    /// `NoMemory`.
    pub fn keep(&mut self, flow: &Flow, number: u32, value: u64) -> Result<(), NoMemory>
        requires out { IsLaidOut flow.now self.old }
        ensures out { OnOk result (IsLaidOut flow.now self.new) }
        ensures values { OnOk result (self.new.values.items ≡ first_stays self.old.values.items number value) }
        ensures left { OnOk result (to_take self.new ≡ to_take self.old) }
        ensures next { OnOk result (self.new.next ≡ self.old.next) }
        ensures grows { OnOk result (Grows self.old.ready.items self.new.ready.items) }
    {
        let place = number as usize;
        if place >= self.values.len() {
            return Ok(());
        }
        if self.values[place].is_some() {
            return Ok(());
        }
        self.settle(flow, place, value)
    }

    // Works the next rule that is noted, unless it has a value. Its only error is `NoMemory`.
    fn work(&mut self, flow: &Flow) -> Result<(), NoMemory>
        requires stored { IsWhole flow.now self.old }
        requires more { self.old.next < length self.old.ready.items }
        ensures stored { OnOk result (IsWhole flow.now self.new) }
        ensures less { OnOk result (to_take self.new < to_take self.old) }
    {
        let place = self.ready[self.next] as usize;
        if self.values[place].is_some() {
            self.next += 1;
            return Ok(());
        }
        self.work_one(flow, place)?;
        self.next += 1;
        Ok(())
    }

    // Works a rule that is noted and has no value. Its only error is `NoMemory`.
    fn work_one(&mut self, flow: &Flow, place: usize) -> Result<(), NoMemory>
        requires stored { IsWhole flow.now self.old }
        requires inside { place < length flow.now }
        requires none { value_at self.old.values.items place ≡ None }
        requires noted { is_noted self.old.noted.items place ≡ true }
        ensures stored { OnOk result (IsWhole flow.now self.new) }
        ensures some { OnOk result (is_some (value_at self.new.values.items place) ≡ true) }
        ensures left { OnOk result (to_take self.new ≡ to_take self.old) }
        ensures next { OnOk result (self.new.next ≡ self.old.next) }
        ensures grows { OnOk result (Grows self.old.ready.items self.new.ready.items) }
    {
        match self.worth(flow, place) {
            Some(value) => {
                self.settle(flow, place, value)?;
                Ok(())
            }
            None => Ok(()),
        }
    }

    /// Works all rules that are ready or become so. Its only error is `NoMemory`.
    pub(crate) fn work_all(&mut self, flow: &Flow) -> Result<(), NoMemory>
        requires stored { IsWhole flow.now self.old }
        ensures stored { OnOk result (IsWhole flow.now self.new) }
        ensures drained { OnOk result (IsDrained self.new) }
    {
        'rules: while self.next < self.ready.len() {
            self.work(flow)?;
        }
        Ok(())
    }
}

// The value of a `let`.
fn own_value(definition: &Definition) -> Option<u64>
    ensures { result ≡ own definition.now }
{
    match definition {
        Definition::Let { value, .. } => Some(*value),
        Definition::Rule { .. } => None,
    }
}

// A rule with the values of its inputs, if both have values.
fn made(op: Op, left: Option<u64>, right: Option<u64>) -> Option<ReadyRule>
    ensures { result ≡ made_ready op left right }
{
    match left {
        None => None,
        Some(left) => match right {
            None => None,
            Some(right) => Some(ReadyRule { op, left, right }),
        },
    }
}

// What a rule gives, if both inputs have values.
fn join(op: Op, left: Option<u64>, right: Option<u64>) -> Option<u64>
    ensures { result ≡ joined op left right }
{
    match left {
        None => None,
        Some(left) => match right {
            None => None,
            Some(right) => Some(op.apply(left, right)),
        },
    }
}
