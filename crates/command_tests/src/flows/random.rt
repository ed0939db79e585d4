//! Flows at random against a plain evaluation.

use crate::draws::Draws;
use crate::flows::texts::is_told;
use std::alloc::Global;
use std::fmt::Write;
use std::test::Fail;

const SEED: u64 = 20;

const NAMES: [&str; 16] = [
    "a",
    "bb",
    "ccc",
    "let",
    "rule",
    "abcdefghijklmnop",
    "x",
    "y",
    "z",
    "add",
    "mul",
    "done",
    "waits",
    "q",
    "r",
    "s",
];

const OPS: [&str; 5] = ["add", "mul", "min", "max", "xor"];

/// A definition: a value, or an operation and the places of its inputs.
#[derive(Clone, Copy)]
enum Line {
    Let(u64),
    Rule(usize, usize, usize),
}

fn name(place: usize) -> &'static str {
    NAMES[place % 16]
}

fn value_at(values: &[Option<u64>], place: usize) -> Option<u64> {
    match values.get(place) {
        Some(value) => *value,
        None => None,
    }
}

/// What a definition gives of these values.
fn given(values: &[Option<u64>], line: Line) -> Option<u64> {
    match line {
        Line::Let(value) => Some(value),
        Line::Rule(op, left, right) => {
            let a = value_at(values, left)?;
            let b = value_at(values, right)?;
            Some(match op {
                0 => a.wrapping_add(b),
                1 => a.wrapping_mul(b),
                2 if a < b => a,
                2 => b,
                3 if a < b => b,
                3 => a,
                _ => a ^ b,
            })
        }
    }
}

/// The values after one turn more.
fn turn(alloc: Global, values: &[Option<u64>], lines: &[Line]) -> Result<Vec<Option<u64>>, Fail> {
    let mut next = Vec::new(alloc);
    for line in lines {
        next.push(given(values, *line))?;
    }
    Ok(next)
}

/// What all names are worth, by as many turns as there are definitions.
fn values(alloc: Global, lines: &[Line]) -> Result<Vec<Option<u64>>, Fail> {
    let mut values = Vec::new(alloc);
    for _ in lines {
        values = turn(alloc, values.as_slice(), lines)?;
    }
    Ok(values)
}

/// The output of one name.
fn tell(text: &mut String, place: usize, value: Option<u64>) -> Result<(), Fail> {
    match value {
        Some(value) => Ok(writeln!(text, "{} = {value}", name(place))?),
        None => Ok(writeln!(text, "{} waits", name(place))?),
    }
}

fn tell_all(text: &mut String, values: &[Option<u64>]) -> Result<(), Fail> {
    let mut done = 0u64;
    for (place, value) in values.iter().enumerate() {
        tell(text, place, *value)?;
        done = done.saturating_add(u64::from(value.is_some()));
    }
    let waits = (values.len() as u64).saturating_sub(done);
    writeln!(text, "done {done} waits {waits}")?;
    Ok(())
}

/// The output of these definitions.
fn expected(alloc: Global, lines: &[Line]) -> Result<String, Fail> {
    let mut text = String::new(alloc);
    tell_all(&mut text, &values(alloc, lines)?)?;
    Ok(text)
}

/// The input that is this definition of the name at the place.
fn write_line(text: &mut String, place: usize, line: Line) -> Result<(), Fail> {
    match line {
        Line::Let(value) => Ok(writeln!(text, "let {} {value}", name(place))?),
        Line::Rule(op, left, right) => {
            let (op, to) = (OPS[op % 5], name(place));
            Ok(writeln!(text, "rule {to} {op} {} {}", name(left), name(right))?)
        }
    }
}

/// The input of these definitions.
fn input(alloc: Global, lines: &[Line]) -> Result<String, Fail> {
    let mut text = String::new(alloc);
    for (place, line) in lines.iter().enumerate() {
        write_line(&mut text, place, *line)?;
    }
    Ok(text)
}

/// Up to 15 definitions: a name may be used before it is defined, of itself, or be no name of a definition.
fn made(alloc: Global, draws: &mut Draws) -> Result<Vec<Line>, Fail> {
    let mut lines = Vec::new(alloc);
    for _ in 0..draws.below(16) {
        if draws.below(3) == 0 {
            let word = ((draws.word() as u64) << 32) | draws.word() as u64;
            lines.push(Line::Let(word >> (draws.below(64) % 64)))?;
        } else {
            let op = draws.below(5) as usize;
            let left = draws.below(16) as usize;
            let right = draws.below(16) as usize;
            lines.push(Line::Rule(op, left, right))?;
        }
    }
    Ok(lines)
}

/// A drawn input, and its output by a plain evaluation.
pub fn drawn(alloc: Global, draws: &mut Draws) -> Result<(String, String), Fail> {
    let lines = made(alloc, draws)?;
    let text = input(alloc, &lines)?;
    Ok((text, expected(alloc, &lines)?))
}

#[test]
fn a_thousand_flows_are_evaluated(rt: HostRuntime) -> Result<(), Fail> {
    let mut draws = Draws::new(SEED);
    for _ in 0..1000 {
        let (text, plain) = drawn(rt.alloc(), &mut draws)?;
        assert!(rt;
            is_told(rt.alloc(), text.as_bytes(), plain.as_str())?,
            "{text}"
        );
    }
    Ok(())
}
