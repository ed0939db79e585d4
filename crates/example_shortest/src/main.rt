//! A printer at one rank: jobs are printed the shortest first, whichever rank they come from.
#![tactic(auto)]

mod printer;

use adlb::Failure;
use printer::print_all;

fn main(rt: HostRuntime) -> Result<(), Failure> {
    let printed = print_all(rt.alloc(), rt, &[9, 2, 14, 5, 1, 7])?;
    for pages in &printed {
        println!(rt; "a job of {pages} pages")?;
    }
    Ok(())
}
