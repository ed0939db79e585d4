//! Inputs by hand, with their outputs.

use crate::flows::{EARLY, EARLY_WORTH, FIVE, FIVE_WORTH};
use flow_app::{finish_flow, read_flow};
use std::alloc::Global;
use std::fmt::Write;
use std::test::Fail;

/// The output of an input, or why it is refused.
pub fn told(alloc: Global, input: &[u8]) -> Result<String, Fail> {
    let mut words = String::new(alloc);
    if input.len() > 1 << 24 {
        words.push_str("more than the limit")?;
        return Ok(words);
    }
    match read_flow(alloc, input) {
        Ok(flow) => {
            for byte in finish_flow(alloc, &flow, &[])? {
                words.push(char::from(byte))?;
            }
        }
        Err(fault) => write!(words, "{fault}")?,
    }
    Ok(words)
}

/// The input comes to this.
pub fn is_told(alloc: Global, input: &[u8], expected: &str) -> Result<bool, Fail> {
    let words = told(alloc, input)?;
    Ok(words.as_str() == expected)
}

// Inputs, and what they come to.
const VALUES: &[(&str, &str)] = &[
    (FIVE, FIVE_WORTH),
    ("rule a add b b", "a waits\ndone 0 waits 1\n"),
    ("", "done 0 waits 0\n"),
    (
        "let a 18446744073709551615\nrule b add a a\n",
        "a = 18446744073709551615\nb = 18446744073709551614\ndone 2 waits 0\n",
    ),
    (EARLY, EARLY_WORTH),
    (
        "# a remark\n\nlet rule 7\r\nrule let min rule add\nlet add 9\nrule top max let add\n",
        "rule = 7\nlet = 7\nadd = 9\ntop = 9\ndone 4 waits 0\n",
    ),
    (
        "let abcdefghijklmnop 1\n",
        "abcdefghijklmnop = 1\ndone 1 waits 0\n",
    ),
];

#[test]
fn values_by_hand(rt: HostRuntime) -> Result<(), Fail> {
    for (input, output) in VALUES {
        assert!(rt; is_told(rt.alloc(), input.as_bytes(), output)?, "{input}");
    }
    Ok(())
}

// Inputs, and the first line that is refused.
const REFUSED: &[(&str, &str)] = &[
    ("let x 1\nlet x 2\n", "line 2: twice"),
    ("let X 1\n", "line 1: form"),
    ("let x 01\n", "line 1: form"),
    ("let x 18446744073709551616\n", "line 1: form"),
    ("let x  1\n", "line 1: form"),
    ("let x 1 \n", "line 1: form"),
    ("let x 1\nlet y -1\nlet x 1\n", "line 2: form"),
    (" \n", "line 1: form"),
    ("let x\n", "line 1: form"),
    ("let abcdefghijklmnopq 1\n", "line 1: form"),
    ("rule x sub y y\n", "line 1: form"),
    ("rule x add y\n", "line 1: form"),
    ("rule x add y y y\n", "line 1: form"),
    (
        "# let x 1\nrule x add x x\nrule x add x x\n",
        "line 3: twice",
    ),
];

#[test]
fn refuses_the_first_such_line(rt: HostRuntime) -> Result<(), Fail> {
    for (input, fault) in REFUSED {
        assert!(rt; is_told(rt.alloc(), input.as_bytes(), fault)?, "{input}");
    }
    Ok(())
}
