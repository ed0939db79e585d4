//! Counts a letter in a text. Change what a unit is, what working one makes, and what one is worth.
#![tactic(auto)]

ghost use Rattle.example_template.specs.Worth.{worth};

use adlb::{Failure, NoMemory, Settings, Units, Work, run};

/// The work. Each rank has a copy of it.
#[derive(Clone, Copy)]
struct Letters;

impl Work for Letters {
    ghost worth = { λ work unit. worth unit };

    ghost whole = { λ work. 3 };

    fn first(&self, out: &mut Units) -> Result<(), NoMemory> {
        out.push(b"Hello, ranks and servers")
    }

    #[tactic(auto, using(crate::proofs::Halves::halves, std::proofs::lemmas::List::Sums::sum_by_push))]
    fn work(&self, unit: &[u8], out: &mut Units) -> Result<u64, NoMemory> {
        if unit.len() < 4 {
            return Ok(unit.iter().filter(|letter| **letter == b'e').count() as u64);
        }
        let (left, right) = unit.split_at(unit.len() / 2);
        out.push(left)?;
        out.push(right)?;
        Ok(0)
    }
}

fn main(rt: HostRuntime) -> Result<(), Failure> {
    let total = run(rt.alloc(), rt, Settings::default(), Letters)?;
    println!(rt; "{total}")?;
    Ok(())
}
