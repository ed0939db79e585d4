//! The token that goes round the ring of servers to find out whether all work is used up.

ghost use Rattle.std.specs.Prelude.{◌≡◌, ◌<◌, ◌≤◌, ◌++◌, ◌∷◌, [], IfOk, length};
ghost use Rattle.adlb_unit.specs.Limits.{rank_limit};

use crate::limits::RANK_LIMIT;
use crate::names::{NoMemory, Rank};
use crate::running_out::or_no_memory;
use crate::wanted::Types;
use std::alloc::Global;
use std::marker::Model;

/// The waiting ranks with the types that each wants, seen as the list of these pairs: at most 32, and there is room for
/// 32 from its making.
#[derive(Debug, Drop)]
pub struct AskedList {
    pairs: Vec<(Rank, Types)>,
}

impl Model for AskedList {
    ghost use Rattle.std.specs.Prelude.{◌≤◌, List, Option, length};
    ghost use Rattle.std.specs.Vec.{vec_capacity};
    ghost use Rattle.adlb_unit.specs.declared.names.Rank.{Rank};
    ghost use Rattle.adlb_unit.specs.declared.names.WorkType.{WorkType};
    ghost use Rattle.adlb_unit.specs.Limits.{rank_limit};

    ghost Value = { List (Rank × Option (List WorkType)) };

    ghost view = { λ a. a.pairs.items };

    ghost invariant = { λ a. (length a.pairs.items ≤ rank_limit) × (rank_limit ≤ vec_capacity a.pairs) };
}

impl AskedList {
    /// An empty list. Its only error is `NoMemory`.
    pub fn new(alloc: Global) -> Result<AskedList, NoMemory>
        ensures { IfOk result (λ a. a ≡ []) }
    {
        let pairs = or_no_memory(Vec::with_capacity(alloc, RANK_LIMIT as usize))?;
        Ok(AskedList { pairs })
    }

    /// Puts a pair last. The list has fewer than 32.
    pub fn push(&mut self, rank: Rank, types: Types)
        requires { length self.old < rank_limit }
        ensures { self.new ≡ self.old ++ (rank, types) ∷ [] }
    {
        self.pairs.push_reserved((rank, types));
    }

    /// Takes all pairs away.
    pub fn clear(&mut self)
        ensures { self.new ≡ [] }
    {
        self.pairs.clear();
    }

    /// The pairs, in the order in which they came: at most 32.
    pub fn pairs(&self) -> &[(Rank, Types)]
        ensures pairs { result.now ≡ self.now }
        ensures few { length self.now ≤ rank_limit }
    {
        self.pairs.as_slice()
    }

    /// An equal list. Its only error is `NoMemory`.
    pub fn twin(&self, alloc: Global) -> Result<AskedList, NoMemory>
        ensures { IfOk result (λ a. a ≡ self.now) }
    {
        let mut twin = AskedList::new(alloc)?;
        for (rank, types) in self.pairs() {
            twin.push(*rank, types.twin());
        }
        Ok(twin)
    }
}

/// The token of one check: its number from 1, the wave, which is 1 or 2, and the ranks that wait.
#[derive(Debug, Drop)]
pub struct Token {
    pub check: u64,
    pub wave: u8,
    pub asked: AskedList,
}

impl Token {
    /// An equal token. Its only error is `NoMemory`.
    pub fn twin(&self, alloc: Global) -> Result<Token, NoMemory>
        ensures { IfOk result (λ t. t ≡ self.now) }
    {
        Ok(Token {
            check: self.check,
            wave: self.wave,
            asked: self.asked.twin(alloc)?,
        })
    }
}
