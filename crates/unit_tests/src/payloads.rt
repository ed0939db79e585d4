//! The bytes of a unit.

use adlb_unit::{NoMemory, Payload};
use std::alloc::Global;
use std::test::Fail;

fn is_ab(payload: &Payload) -> bool {
    payload.bytes() == b"ab".as_slice() && payload.len() == 2 && !payload.is_empty()
}

// The twin of the payload has the bytes, as it has.
fn has_twin(alloc: Global, payload: &Payload) -> Result<bool, NoMemory> {
    let twin = payload.twin(alloc)?;
    Ok(is_ab(payload) && is_ab(&twin))
}

// A copy and its twin have the bytes.
fn is_copied(alloc: Global) -> Result<bool, NoMemory> {
    let copy = Payload::copy(alloc, b"ab")?;
    has_twin(alloc, &copy)
}

// So have a payload that is not shared and its twin.
fn is_twin(alloc: Global) -> Result<bool, Fail> {
    let owned = Payload::from_vec(b"ab".to_vec(alloc)?);
    Ok(has_twin(alloc, &owned)?)
}

// So has a payload that is shared twice.
fn is_shared(alloc: Global) -> Result<bool, Fail> {
    let owned = Payload::from_vec(b"ab".to_vec(alloc)?);
    let shared = owned.share(alloc)?.share(alloc)?;
    Ok(is_ab(&shared))
}

#[test]
fn copies_and_twins_have_the_bytes(rt: HostRuntime) -> Result<(), Fail> {
    assert!(rt; is_copied(rt.alloc())?);
    assert!(rt; is_twin(rt.alloc())?);
    assert!(rt; is_shared(rt.alloc())?);
    Ok(())
}

#[test]
fn no_bytes_are_empty(rt: HostRuntime) {
    assert!(rt; Payload::from_vec(Vec::new(rt.alloc())).is_empty());
}
