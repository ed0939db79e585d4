//! What the program says of a fault.

use crate::hints::hints;
use adlb_command::{LineWhy, RunFault};
use command_words::refusal;
use std::alloc::Global;
use std::fmt;

/// What the program says on standard error of a fault: a line that names it. At `Usage` a line follows that names the
/// refused word and why. Then come lines that say what would have been accepted, and a puzzle's length if it is
/// wrong. No clause says anything of these texts.
#[derive(Drop)]
pub struct Complaint {
    fault: RunFault,
    refused: Option<String>,
}

impl Complaint {
    /// The complaint about this fault of a command line with these words. Which of them was refused is left out if an allocation
    /// fails.
    pub fn new(alloc: Global, words: &[String], fault: RunFault) -> Complaint {
        let refused = match fault {
            RunFault::Usage => refusal(alloc, words).unwrap_or(None),
            _ => None,
        };
        Complaint { fault, refused }
    }
}

impl fmt::Display for Complaint {
    fn fmt<W: fmt::Write>(&self, f: &mut fmt::Formatter<W>) -> fmt::Result {
        writeln!(f, "adlbrun: {}", self.fault)?;
        if let Some(refused) = &self.refused {
            writeln!(f, "  {refused}")?;
        }
        for line in hints(&self.fault) {
            writeln!(f, "  {line}")?;
        }
        if let RunFault::Input {
            why: LineWhy::Length { got },
            ..
        } = self.fault
        {
            writeln!(f, "  this one has {got}")?;
        }
        Ok(())
    }
}
