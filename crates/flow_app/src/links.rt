//! Names and their numbers.

ghost use Rattle.std.specs.Prelude.{◌≡◌, ◌<◌, ◌≤◌, ◌^◌, ℕ, List, [], Some, None, true, length, IfOk, OnOk, if◌then◌else◌};
ghost use Rattle.std.specs.Str.{bytes_eq};
ghost use Rattle.flow_app.specs.Linked.{are_below, has, inputs_by, is_number, noted_number, users_at};

use adlb_unit::{NoMemory, or_no_memory};
use flow_law::{Definition, Name};
use std::alloc::Global;
use std::collections::BTreeMap;

/// The numbers of the inputs of a rule, where they are defined.
#[derive(Clone, Copy, Drop)]
pub(crate) struct Inputs {
    pub(crate) left: Option<u32>,
    pub(crate) right: Option<u32>,
}

impl Inputs {
    /// Those of a definition. A value has none.
    pub(crate) fn of(numbers: &Numbers<'_>, definition: &Definition) -> Inputs
        ensures { result ≡ inputs_by (noted_number numbers.now) definition.now }
    {
        match definition {
            Definition::Let { .. } => Inputs {
                left: None,
                right: None,
            },
            Definition::Rule { left, right, .. } => Inputs {
                left: numbers.get(left.bytes()),
                right: numbers.get(right.bytes()),
            },
        }
    }
}

/// The number of each name that was noted.
#[derive(Drop)]
pub(crate) struct Numbers<'a> {
    held: BTreeMap<&'a [u8], u32>,
}

impl<'a> Numbers<'a> {
    /// No name was noted.
    pub(crate) fn new(alloc: Global) -> Numbers<'a>
        ensures { (name : List ℕ) → noted_number result name ≡ None }
    {
        Numbers {
            held: BTreeMap::new(alloc),
        }
    }

    /// The number of this name.
    pub(crate) fn get(&self, name: &[u8]) -> Option<u32>
        ensures { result ≡ noted_number self.now name.now }
    {
        self.held.get(name).copied()
    }

    /// Notes the number of a name. Its only error is `NoMemory`.
    pub(crate) fn note(&mut self, name: &'a [u8], number: u32) -> Result<(), NoMemory>
        ensures { OnOk result ((other : List ℕ) → noted_number self.new other ≡
            (if bytes_eq name.now other then Some number else noted_number self.old other)) }
    {
        or_no_memory(self.held.insert(name, number))?;
        Ok(())
    }
}

/// As many empty lists of rules. Its only error is `NoMemory`.
pub(crate) fn no_users(alloc: Global, count: usize) -> Result<Vec<Vec<u32>>, NoMemory>
    ensures long { IfOk result (λ users. length users.items ≡ count) }
    ensures none { IfOk result (λ users. (i : ℕ) → users_at users.items i ≡ []) }
{
    let mut users = Vec::new(alloc);
    or_no_memory(users.try_reserve_exact(count))?;
    'lists: while users.len() < count {
        or_no_memory(users.push(Vec::new(alloc)))?;
    }
    Ok(users)
}

/// Notes a rule as one that asks for this input, if it is defined. Its only error is `NoMemory`.
pub(crate) fn note_user(
    users: &mut Vec<Vec<u32>>,
    input: Option<u32>,
    rule: u32,
) -> Result<(), NoMemory>
    requires inside { (i : ℕ) → input ≡ Some i → i < length users.old.items }
    ensures long { OnOk result (length users.new.items ≡ length users.old.items) }
    ensures noted { OnOk result ((i : ℕ) → is_number input i ≡ true → has (users_at users.new.items i) rule ≡ true) }
    ensures kept { OnOk result ((i q : ℕ) → has (users_at users.old.items i) q ≡ true → has (users_at users.new.items i) q ≡ true) }
    ensures within { OnOk result ((n i : ℕ) → rule < n → are_below n (users_at users.old.items i) ≡ true →
        are_below n (users_at users.new.items i) ≡ true) }
{
    if let Some(number) = input {
        or_no_memory(users[number as usize].push(rule))?;
    }
    Ok(())
}
