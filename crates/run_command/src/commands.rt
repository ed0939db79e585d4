//! A command that runs a rank program over an input.

ghost use Rattle.std.specs.Prelude.{◌≡◌, ◌≤◌, ◌<◌, ◌^◌, ℕ, [], List, Some, length, slice_get, vec_capacity, IfOk, OnOk, IfErr};
ghost use Rattle.run_command.specs.Begun.{HaveBegun};
ghost use Rattle.run_command.specs.Kept.{HasRun, IsWorkedUp, Kept};
ghost use Rattle.run_command.specs.Reading.{RefusesBy};

use crate::kept::Kept;
use adlb_unit::NoMemory;
use rank_client::RankProgram;
use std::alloc::Global;

/// Why bytes ask nothing.
#[derive(Clone, Copy, Drop)]
pub enum ReadFault<W> {
    /// A line is refused: the first such line, from 1, and why.
    Refused { line: u64, why: W },
    /// Allocation failed. Contracts never say when: any call that allocates may answer it.
    Memory,
}

/// What a command reads, runs and tells.
pub trait Command {
    /// What an input asks.
    type Asked;
    /// Why a line of the input is refused.
    type Why;
    /// What a rank does.
    type Program: RankProgram;

    // These bytes ask this; this line of them is refused, the first, for this reason.
    ghost asks: { Self → List ℕ → Self.Asked → Type 0 };

    ghost refuses: { Self → List ℕ → ℕ → Self.Why → Type 0 };

    // The ranks of a run over what is asked, of this number, have these programs.
    ghost are_programs: { Self → ℕ → Self.Asked → List Self.Program → Type 0 };

    // This is said of a run over what is asked, if this is kept of it.
    ghost tells: { Self → Self.Asked → Kept Self.Program.Outcome → List ℕ → Type 0 };

    // All ranks of a run over what is asked, of which there are this many, may begin this many calls together.
    ghost may_take: { Self → Self.Asked → ℕ → ℕ → Type 0 };

    /// Reads what the bytes of an input of at most 2^24 bytes ask.
    fn read(&self, alloc: Global, bytes: &[u8]) -> Result<Self::Asked, ReadFault<Self::Why>>
        requires { length bytes.now ≤ 2 ^ 24 }
        ensures asked { IfOk result (asks self.now bytes.now) }
        ensures refused { IfErr result (RefusesBy (refuses self.now bytes.now)) };

    /// Adds the programs of the ranks, of which there are `ranks`, in their order to an empty list, which has room for them. Its only
    /// error is `NoMemory`. The list is its caller's, so that what lets programs go is proved once, of any program.
    fn fill(
        &self,
        alloc: Global,
        programs: &mut Vec<Self::Program>,
        ranks: u32,
        asked: &Self::Asked,
    ) -> Result<(), NoMemory>
        requires some { 0 < ranks }
        requires empty { programs.old.items ≡ [] }
        requires room { ranks ≤ vec_capacity programs.old }
        ensures all { OnOk result (length programs.new.items ≡ ranks) }
        ensures fits { OnOk result ((k : ℕ) (p : Self.Program) → slice_get programs.new.items k ≡ Some p → Self.Program.fits p ranks) }
        ensures programs { OnOk result (are_programs self.now ranks asked.now programs.new.items) };

    /// What is written of a run over what was asked. All its work is done. Its only error is `NoMemory`.
    fn tell(
        &self,
        alloc: Global,
        asked: &Self::Asked,
        kept: &Kept<<Self::Program as RankProgram>::Outcome>,
    ) -> Result<Vec<u8>, NoMemory>
        requires run { HasRun (are_programs self.now) Self.Program.follows asked.now kept.now.report }
        ensures told { IfOk result (λ text. tells self.now asked.now kept.now text.items) }
        ensures worked_up { IfOk result (λ text. IsWorkedUp kept.now.report) };

    // They may begin what they have begun of their programs, whether the run has come to its end or not.
    ghost takes: { (command : Self) (asked : Self.Asked) (ranks many : ℕ) →
        HaveBegun (are_programs command) Self.Program.so_far asked ranks many → may_take command asked ranks many };
}
