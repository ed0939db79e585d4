//! The token of the ring.

use adlb_unit::{AskedList, NoMemory, Rank, Types, WorkType};
use std::alloc::Global;
use std::test::Fail;

// Rank 4, which wants a type, and then rank 1, which wants any.
fn asked(alloc: Global) -> Result<AskedList, Fail> {
    let mut asked = AskedList::new(alloc)?;
    let listed = Types::list(&[WorkType(2)])?;
    asked.push(Rank(4), listed);
    asked.push(Rank(1), Types::any());
    Ok(asked)
}

fn are_asked(pairs: &[(Rank, Types)]) -> bool {
    match pairs {
        [first, second] => is_listed(first) && is_any(second),
        _ => false,
    }
}

fn is_listed(pair: &(Rank, Types)) -> bool {
    pair.0 == Rank(4) && !pair.1.has(WorkType(1)) && pair.1.has(WorkType(2))
}

fn is_any(pair: &(Rank, Types)) -> bool {
    pair.0 == Rank(1) && pair.1.has(WorkType(1))
}

// The twin of a list has its pairs in order, and a list that is cleared has none.
fn stand_in_order(alloc: Global) -> Result<bool, Fail> {
    let mut asked = asked(alloc)?;
    let twin = asked.twin(alloc)?;
    asked.clear();
    Ok(are_asked(twin.pairs()) && asked.pairs().is_empty())
}

#[test]
fn asked_ranks_stand_in_order(rt: HostRuntime) -> Result<(), Fail> {
    assert!(rt; stand_in_order(rt.alloc())?);
    Ok(())
}
