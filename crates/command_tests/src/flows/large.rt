//! Flows of as many definitions as there may be: a chain in reverse order, the chain shuffled, and a tree.

use crate::flows::texts::{is_told, told};
use std::alloc::Global;
use std::fmt::Write;
use std::test::Fail;

/// The most definitions of a flow.
const COUNT: usize = 100_000;

/// Prime to the count, so that its multiples go once through all places.
const STRIDE: usize = 61_803;

/// The name of a number: four letters.
fn write_name(text: &mut String, number: usize) -> Result<(), Fail> {
    let mut left = number % 456_976;
    for _ in 0..4 {
        text.push(char::from(b'a' + (left % 26) as u8))?;
        left /= 26;
    }
    Ok(())
}

/// Words, each followed by the name of a number, and the end.
fn write_words(text: &mut String, words: &[(&str, usize)], end: &str) -> Result<(), Fail> {
    for (word, number) in words {
        text.push_str(word)?;
        write_name(text, *number)?;
    }
    text.push_str(end)?;
    Ok(())
}

fn write_rule(text: &mut String, number: usize, left: usize, right: usize) -> Result<(), Fail> {
    let words = [("rule ", number), (" add ", left), (" ", right)];
    write_words(text, &words, "\n")
}

fn write_one(text: &mut String, number: usize) -> Result<(), Fail> {
    write_words(text, &[("let ", number)], " 1\n")
}

/// Number n of a chain is one more than number n + 1; the last two are 1.
fn write_link(text: &mut String, number: usize) -> Result<(), Fail> {
    if number >= COUNT - 2 {
        write_one(text, number)
    } else {
        write_rule(text, number, number.saturating_add(1), COUNT - 1)
    }
}

/// Number n of a tree is the sum of numbers 2 n + 1 and 2 n + 2; a leaf is 1.
fn write_node(text: &mut String, number: usize) -> Result<(), Fail> {
    let left = number.saturating_mul(2).saturating_add(1);
    let right = left.saturating_add(1);
    if right >= COUNT {
        write_one(text, number)
    } else {
        write_rule(text, number, left, right)
    }
}

#[derive(Clone, Copy)]
enum Shape {
    Chain,
    Shuffled,
    Tree,
}

impl Shape {
    fn write(self, text: &mut String, number: usize) -> Result<(), Fail> {
        match self {
            Shape::Chain => write_link(text, number),
            Shape::Shuffled => write_link(text, number.saturating_mul(STRIDE) % COUNT),
            Shape::Tree => write_node(text, number),
        }
    }
}

/// As many definitions as there may be, and this.
fn written(alloc: Global, shape: Shape, more: &str) -> Result<String, Fail> {
    let mut text = String::new(alloc);
    for number in 0..COUNT {
        shape.write(&mut text, number)?;
    }
    text.push_str(more)?;
    Ok(text)
}

/// What such an input comes to begins with the output of this name, and ends with the count of all.
fn begins(alloc: Global, shape: Shape, first: &str) -> Result<bool, Fail> {
    let text = written(alloc, shape, "")?;
    let output = told(alloc, text.as_bytes())?;
    Ok(output.as_str().starts_with(first) && output.as_str().ends_with("\ndone 100000 waits 0\n"))
}

/// A definition more is refused.
fn is_refused(alloc: Global) -> Result<bool, Fail> {
    let text = written(alloc, Shape::Chain, "let another 1\n")?;
    is_told(alloc, text.as_bytes(), "line 100001: many")
}

/// A shape, and the output of the first name.
const SHAPES: &[(Shape, &str)] = &[
    (Shape::Chain, "aaaa = 99999\n"),
    (Shape::Shuffled, "aaaa = 99999\n"),
    (Shape::Tree, "aaaa = 50000\n"),
];

#[test]
fn chains_and_trees_of_all_definitions(rt: HostRuntime) -> Result<(), Fail> {
    for (place, (shape, first)) in SHAPES.iter().enumerate() {
        assert!(rt;
            begins(rt.alloc(), *shape, first)?,
            "shape {place}: {first}"
        );
    }
    assert!(rt; is_refused(rt.alloc())?);
    Ok(())
}
