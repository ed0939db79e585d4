//! Parts that are kept, fetched and closed, worked by hand: what is answered, and the charge afterwards.

ghost use Rattle.std.specs.Prelude.{◌≤◌, length};
ghost use Rattle.adlb_unit.specs.Limits.{body_limit};
ghost use Rattle.server_components.specs.Store.{part_in, size_of};

use crate::lines::{same, same_charge};
use crate::queue::say;
use crate::queues::{Scene, Script, play};
use adlb_unit::{BatchId, Payload, Rank};
use server_components::BatchStore;
use std::alloc::Global;
use std::fmt::Write;
use std::process::Abort;
use std::test::Fail;
use work_queue::{AddFault, WorkQueue};

// One step at the batch.
#[derive(Clone, Copy)]
pub(crate) enum Act {
    // A part of `size` bytes, each this one, is kept.
    Keep(u8, u8),
    // The batch is closed, after this number of its units was accepted.
    Close(u64),
    // Its part is fetched.
    Fetch,
}

// Keeps the part, and shows the answer.
fn keep(
    store: &mut BatchStore,
    queue: &mut WorkQueue,
    batch: BatchId,
    bytes: Payload,
) -> &'static str
    requires size { length bytes ≤ body_limit }
    requires charged { size_of (part_in store.old batch) ≤ queue.old.common }
    ensures { size_of (part_in store.new batch) ≤ queue.new.common }
{
    if store.part(batch).is_some() {
        return "is kept already";
    }
    match store.keep(queue, batch, bytes) {
        Ok(()) => "kept",
        Err(AddFault::Full { .. }) => "full",
        Err(AddFault::Memory) => "no memory",
    }
}

// Closes the batch, and shows the answer.
fn close(
    store: &mut BatchStore,
    queue: &mut WorkQueue,
    batch: BatchId,
    accepted: u64,
) -> &'static str
    requires { size_of (part_in store.old batch) ≤ queue.old.common }
    ensures { size_of (part_in store.new batch) ≤ queue.new.common }
{
    let Some((fetches, None)) = store.part(batch) else {
        return "has no open part";
    };
    if fetches > accepted {
        return "was fetched more often";
    }
    if store.close(queue, batch, accepted) {
        "freed"
    } else {
        "closed"
    }
}

// Fetches the part, and gives its bytes and whether it was freed.
fn fetch(store: &mut BatchStore, queue: &mut WorkQueue, batch: BatchId) -> Option<(Payload, bool)>
    requires { size_of (part_in store.old batch) ≤ queue.old.common }
    ensures { size_of (part_in store.new batch) ≤ queue.new.common }
{
    let Some((fetches, accepted)) = store.part(batch) else {
        return None;
    };
    if let Some(accepted) = accepted {
        if accepted <= fetches {
            return None;
        }
    }
    store.fetch(queue, batch).ok()
}

// Shows a fetch.
fn shown(text: &mut String, given: &Option<(Payload, bool)>) -> Result<(), Fail> {
    match given {
        Some((bytes, freed)) => fetched(text, bytes.bytes(), *freed),
        None => say(text, "nothing"),
    }
}

// The bytes that were fetched as text, and whether they were freed.
fn fetched(text: &mut String, bytes: &[u8], freed: bool) -> Result<(), Fail> {
    let bytes = str::from_utf8(bytes).unwrap_or("?");
    Ok(write!(text, "{bytes} {freed}")?)
}

// Makes a step, and shows its answer.
fn make(
    alloc: Global,
    store: &mut BatchStore,
    queue: &mut WorkQueue,
    batch: BatchId,
    act: Act,
    text: &mut String,
) -> Result<(), Fail>
    requires { size_of (part_in store.old batch) ≤ queue.old.common }
    ensures { size_of (part_in store.new batch) ≤ queue.new.common }
{
    match act {
        Act::Keep(byte, size) => {
            let bytes = vec![in alloc; byte; size as usize]?;
            say(text, keep(store, queue, batch, Payload::from_vec(bytes)))
        }
        Act::Close(accepted) => say(text, close(store, queue, batch, accepted)),
        Act::Fetch => shown(text, &fetch(store, queue, batch)),
    }
}

/// A step, how it is answered, and the charge that it leaves.
pub(crate) type Row = (Act, &'static str, u64);

/// At a server with room for 64 bytes, each step is answered so, and leaves this charge.
pub(crate) fn follow(
    rt: &impl Abort,
    alloc: Global,
    queue: &mut WorkQueue,
    shows: &str,
    rows: &[Row],
) -> Result<(), Fail> {
    let rank = Rank(3);
    let mut store = BatchStore::new(alloc);
    go_through(
        rt,
        alloc,
        &mut store,
        queue,
        BatchId { rank, number: 5 },
        shows,
        rows,
    )
}

// The steps are answered as their rows say.
fn go_through(
    rt: &impl Abort,
    alloc: Global,
    store: &mut BatchStore,
    queue: &mut WorkQueue,
    batch: BatchId,
    shows: &str,
    rows: &[Row],
) -> Result<(), Fail>
    requires { size_of (part_in store.old batch) ≤ queue.old.common }
{
    for row in rows {
        let (act, expected, charge) = *row;
        let mut given = String::new(alloc);
        make(alloc, store, queue, batch, act, &mut given)?;
        same(rt, shows, given.as_str(), expected);
        same_charge(rt, shows, queue.charge(), charge);
    }
    Ok(())
}

const SCENES: &[Scene] = &[
    (
        "frees after the last fetch",
        64,
        Script::Parts(&[
            (Act::Keep(b'x', 3), "kept", 3),
            (Act::Close(1), "closed", 3),
            (Act::Fetch, "xxx true", 0),
            (Act::Fetch, "nothing", 0),
            (Act::Keep(b'x', 65), "full", 0),
            (Act::Keep(b'y', 2), "kept", 2),
            (Act::Fetch, "yy false", 2),
            (Act::Close(2), "closed", 2),
            (Act::Fetch, "yy true", 0),
        ]),
    ),
    (
        "frees when nothing is due at the close",
        64,
        Script::Parts(&[
            (Act::Keep(b'x', 3), "kept", 3),
            (Act::Close(0), "freed", 0),
            (Act::Keep(b'z', 64), "kept", 64),
            (
                Act::Fetch,
                "zzzzzzzzzzzzzzzzzzzzzzzzzzzzzzzzzzzzzzzzzzzzzzzzzzzzzzzzzzzzzzzz false",
                64,
            ),
            (Act::Close(1), "freed", 0),
            (Act::Keep(b'x', 0), "kept", 0),
            (Act::Close(0), "freed", 0),
        ]),
    ),
];

#[test]
fn parts_go(rt: HostRuntime) -> Result<(), Fail> {
    play(&rt, rt.alloc(), SCENES)
}
