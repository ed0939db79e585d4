//! Counts the letters of a greeting, by four ranks over two servers.
#![tactic(auto)]

ghost use Rattle.std.specs.Prelude.{length};

use adlb::{Failure, NoMemory, Settings, Units, Work, run};

#[derive(Clone, Copy)]
struct Letters;

impl Work for Letters {
    ghost worth = { λ work text. length text };

    ghost whole = { λ work. 24 };

    fn first(&self, out: &mut Units) -> Result<(), NoMemory> {
        out.push(b"Hello, ranks and servers")
    }

    fn work(&self, text: &[u8], out: &mut Units) -> Result<u64, NoMemory> {
        if text.len() < 4 {
            return Ok(text.len() as u64);
        }
        let (left, right) = text.split_at(text.len() / 2);
        out.push(left)?;
        out.push(right)?;
        Ok(0)
    }
}

fn main(rt: HostRuntime) -> Result<(), Failure> {
    let total = run(rt.alloc(), rt, Settings::default(), Letters)?;
    println!(rt; "{total} letters")?;
    Ok(())
}
