//! What a line is.

ghost use Rattle.std.specs.Prelude.{◌≡◌};
ghost use Rattle.flow_app.specs.Kinds.{definition_in, kind_of, let_in, rule_in, short_kind};
ghost use Rattle.flow_app.specs.inside.Left.{IsNamedIfAny, IsNamedLine, its_definition, kind, parts_left};

use crate::faults::FlowWhy;
use crate::parts::Parts;
use crate::words::{name_of, number_of, op_of};
use flow_law::Definition;

/// The most bytes of a line.
const LINE_LIMIT: usize = 1 << 20;

/// A definition, and its name as it is in the line.
#[derive(Drop)]
pub(crate) struct Named<'a> {
    pub(crate) name: &'a [u8],
    pub(crate) definition: Definition,
}

/// A line by what it is.
#[derive(Drop)]
pub(crate) enum Line<'a> {
    /// It is empty or a comment.
    Skipped,
    Defines(Named<'a>),
    /// It is refused wherever it is.
    Bad(FlowWhy),
}

/// What a line is (`kind_of`).
#[tactic(auto, unfolding(crate::specs::Kinds::kind_of))]
pub(crate) fn line_of(line: &[u8]) -> Line<'_>
    ensures kind { kind result ≡ kind_of line.now }
    ensures named { IsNamedLine result }
{
    if line.len() > LINE_LIMIT {
        return Line::Bad(FlowWhy::Long);
    }
    short_line(line)
}

// What a line is that is not too long.
#[tactic(auto, unfolding(crate::specs::Kinds::short_kind))]
fn short_line(line: &[u8]) -> Line<'_>
    ensures kind { kind result ≡ short_kind line.now }
    ensures named { IsNamedLine result }
{
    if line.is_empty() || line[0] == b'#' {
        return Line::Skipped;
    }
    let mut words = Parts::of(line, b' ');
    match definition_of(&mut words) {
        Some(named) => Line::Defines(named),
        None => Line::Bad(FlowWhy::Form),
    }
}

// The definition of these words, if they are one.
#[tactic(auto, unfolding(crate::specs::Kinds::definition_in))]
fn definition_of<'a>(words: &mut Parts<'a>) -> Option<Named<'a>>
    ensures is { its_definition result ≡ definition_in (parts_left words.old) }
    ensures named { IsNamedIfAny result }
{
    let first = words.next()?;
    if first == b"let".as_slice() {
        let_of(words)
    } else if first == b"rule".as_slice() {
        rule_of(words)
    } else {
        None
    }
}

// The value of a name: its words without the first.
fn let_of<'a>(words: &mut Parts<'a>) -> Option<Named<'a>>
    ensures is { its_definition result ≡ let_in (parts_left words.old) }
    ensures named { IsNamedIfAny result }
{
    let name = words.next()?;
    let value = words.next()?;
    if words.next().is_some() {
        return None;
    }
    let definition = Definition::Let {
        name: name_of(name)?,
        value: number_of(value)?,
    };
    Some(Named { name, definition })
}

// A rule: its words without the first.
fn rule_of<'a>(words: &mut Parts<'a>) -> Option<Named<'a>>
    ensures is { its_definition result ≡ rule_in (parts_left words.old) }
    ensures named { IsNamedIfAny result }
{
    let name = words.next()?;
    let op = words.next()?;
    let left = words.next()?;
    let right = words.next()?;
    if words.next().is_some() {
        return None;
    }
    let definition = Definition::Rule {
        name: name_of(name)?,
        op: op_of(op)?,
        left: name_of(left)?,
        right: name_of(right)?,
    };
    Some(Named { name, definition })
}
