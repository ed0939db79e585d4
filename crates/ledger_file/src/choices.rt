//! Words that are one of some: targets, what may be absent, ends.

ghost use Rattle.std.specs.Prelude.{◌≡◌, ◌++◌, ℕ, List, None, IfSome};
ghost use Rattle.ledger_file.specs.Fields.{aim, rank_or_none, prio_or_none, told};
ghost use Rattle.ledger_file.specs.inside.Reading.{Finds};

use crate::faults::LineFault;
use crate::numbers::{prio, short};
use adlb_unit::{End, Rank, Target};

/// The target that is written so. `Bad` exactly if none is.
pub fn target(word: &[u8]) -> Result<Target, LineFault>
    ensures { Finds aim word.now result }
{
    if word == b"any".as_slice() {
        return Ok(Target::Any);
    }
    if let Some(rank) = behind(word, b"only:") {
        return Ok(Target::Only(Rank(short(rank)?)));
    }
    if let Some(rank) = behind(word, b"soft:") {
        return Ok(Target::Soft(Rank(short(rank)?)));
    }
    Err(LineFault::Bad)
}

// What follows this front, if the word begins with it.
fn behind<'a>(word: &'a [u8], front: &[u8]) -> Option<&'a [u8]>
    ensures joined { IfSome result (λ rest. word.now ≡ front.now ++ rest.now) }
    ensures another { result ≡ None → (rest : List ℕ) → word.now ≡ front.now ++ rest → ⊥ }
{
    if word.len() >= front.len() && &word[..front.len()] == front {
        return Some(&word[front.len()..]);
    }
    None
}

/// The rank that is written so, or that none is. `Bad` exactly if neither is.
pub fn answer(word: &[u8]) -> Result<Option<Rank>, LineFault>
    ensures { Finds rank_or_none word.now result }
{
    if word == b"none".as_slice() {
        return Ok(None);
    }
    Ok(Some(Rank(short(word)?)))
}

/// The priority that is written so, or that none is. `Bad` exactly if neither is.
pub fn top(word: &[u8]) -> Result<Option<i32>, LineFault>
    ensures { Finds prio_or_none word.now result }
{
    if word == b"none".as_slice() {
        return Ok(None);
    }
    Ok(Some(prio(word)?))
}

/// The end that is written so. `Bad` exactly if none is.
pub fn end(word: &[u8]) -> Result<End, LineFault>
    ensures { Finds told word.now result }
{
    if word == b"nomore".as_slice() {
        return Ok(End::NoMoreWork);
    }
    if word == b"exhausted".as_slice() {
        return Ok(End::Exhausted);
    }
    Err(LineFault::Bad)
}
