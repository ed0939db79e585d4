//! Counts how often each of some motifs occurs in a text. The text is the common part of a batch, a motif is a unit
//! of it by its number, and what is found is a unit for rank 0.
#![tactic(auto)]

mod texts;

ghost use Rattle.std.specs.Prelude.{◌<◌, length};
ghost use Rattle.example_motifs.specs.Texts.{whole, worth};
ghost use Rattle.example_motifs.specs.declared.texts.TheConstants.{TEXT};

use adlb::units::Rank;
use adlb::{
    Batch, Failure, NoMemory, Payload, Settings, Target, Units, gather_batch, or_no_memory,
};
use std::io;
use texts::{MOTIFS, TEXT, times};

#[derive(Clone, Copy)]
struct Motifs {
    all: &'static [&'static [u8]],
    ghost few: { length all.now < 256 },
}

impl Batch for Motifs {
    type Answer = (u8, u8);

    ghost worth = { λ m test text unit. worth m.all.now test text unit };

    ghost whole = { λ m test. whole m.all.now test TEXT.now };

    fn first(&self, out: &mut Units) -> Result<Payload, NoMemory> {
        let text = Payload::copy(out.alloc(), TEXT)?;
        for number in 0..self.all.len() as u8 {
            out.push(&[number])?;
        }
        Ok(text)
    }

    #[tactic(auto, using(std::proofs::lemmas::List::Sums::sum_by_push))]
    fn work(
        &self,
        text: &[u8],
        unit: &[u8],
        out: &mut Units,
        found: &mut Vec<(u8, u8)>,
    ) -> Result<(), NoMemory> {
        match unit {
            [number] => out.push(&[*number, times(self.all, text, *number)]),
            [number, count] => or_no_memory(found.push((*number, *count))),
            _ => Ok(()),
        }
    }

    fn target(&self, unit: &[u8], ranks: u32) -> Target {
        match unit {
            [_] => Target::Any,
            _ => Target::Only(Rank(0)),
        }
    }
}

fn main(rt: HostRuntime) -> Result<(), Failure> {
    let mut found = gather_batch(rt.alloc(), rt, Settings::default(), Motifs { all: MOTIFS })?;
    found.sort()?;
    tell(rt, &found)?;
    Ok(())
}

fn tell(rt: HostRuntime, found: &[(u8, u8)]) -> io::Result<()> {
    for (motif, count) in found {
        println!(rt; "motif {motif} stands {count} times")?;
    }
    Ok(())
}
