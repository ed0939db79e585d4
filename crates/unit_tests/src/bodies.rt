//! What a fetch gives.

ghost use Rattle.std.specs.Prelude.{◌≡◌, length, IfOk};

use adlb_unit::{NoMemory, Payload};
use bag_ledger::Body;
use std::alloc::Global;
use std::test::Fail;

// A common part of two bytes and a unit's three own ones.
fn body(alloc: Global) -> Result<Body, NoMemory>
    ensures { IfOk result (λ body. length body ≡ 5) }
{
    let common = Payload::copy(alloc, b"ab")?;
    let own = Payload::copy(alloc, b"xyz")?;
    Ok(Body::joined(common, own))
}

// The two are these.
fn are(two: (&[u8], &[u8]), first: &[u8], second: &[u8]) -> bool {
    two.0 == first && two.1 == second
}

// The twin of the body has its two runs.
fn has_twin(alloc: Global, body: &Body) -> Result<bool, NoMemory> {
    let twin = body.twin(alloc)?;
    Ok(are(twin.runs(), b"ab", b"xyz"))
}

// The body is parted where its runs meet, and nothing is copied.
fn is_parted_between(body: &Body, room: &mut Vec<u8>) -> Result<bool, NoMemory>
    requires { length body.now ≡ 5 }
{
    let parted = are(body.parted(2, room)?, b"ab", b"xyz");
    Ok(parted && room.is_empty())
}

// The body is parted inside a run, and read as one.
fn is_copied(body: &Body, room: &mut Vec<u8>) -> Result<bool, NoMemory>
    requires { length body.now ≡ 5 }
{
    let parted = are(body.parted(4, room)?, b"abxy", b"z");
    let whole = body.whole(room)? == b"abxyz".as_slice();
    Ok(parted && whole && room.len() == 5)
}

fn is_read(alloc: Global, body: &Body, room: &mut Vec<u8>) -> Result<bool, NoMemory>
    requires { length body.now ≡ 5 }
{
    Ok(has_twin(alloc, body)? && is_parted_between(body, room)? && is_copied(body, room)?)
}

fn joined_is_read(alloc: Global) -> Result<bool, NoMemory> {
    let body = body(alloc)?;
    let mut room = Vec::new(alloc);
    is_read(alloc, &body, &mut room)
}

#[test]
fn its_runs_are_copied_only_to_be_read_as_one(rt: HostRuntime) -> Result<(), Fail> {
    assert!(rt; joined_is_read(rt.alloc())?);
    Ok(())
}

// The body of three bytes is read and parted through this room, in which nothing is copied.
fn is_not_copied(body: &Body, room: &mut Vec<u8>) -> Result<bool, NoMemory> {
    if body.len() != 3 {
        return Ok(false);
    }
    let whole = body.whole(room)? == b"xyz".as_slice();
    let parted = are(body.parted(1, room)?, b"x", b"yz");
    Ok(whole && parted && room.is_empty())
}

fn alone_is_read(alloc: Global) -> Result<bool, NoMemory> {
    let body = Body::alone(Payload::copy(alloc, b"xyz")?);
    let mut room = Vec::new(alloc);
    is_not_copied(&body, &mut room)
}

#[test]
fn own_bytes_alone_are_not_copied(rt: HostRuntime) -> Result<(), Fail> {
    assert!(rt; alone_is_read(rt.alloc())?);
    Ok(())
}
