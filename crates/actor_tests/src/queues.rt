//! Scenes of one queue, by itself or with what stands beside it.

use crate::{parts, pushes, queue, waits};
use std::alloc::Global;
use std::process::Abort;
use std::test::Fail;
use work_queue::WorkQueue;

/// What is done with the queue.
pub(crate) enum Script {
    /// Steps of the queue by itself.
    Queue(&'static [(queue::Step, &'static str)]),
    /// Calls of ranks that wait at server 0 of six ranks, in a run of this many servers.
    Waits(u32, &'static [(waits::Act, &'static str)]),
    /// Calls of pushes at server 2 of three, and the charge after them.
    Pushes(u64, &'static [(pushes::Act, &'static str)]),
    /// Steps at the common part of a batch.
    Parts(&'static [parts::Row]),
}

/// What it shows, the limit of the queue, and what is done with it, each call with its answer.
pub(crate) type Scene = (&'static str, u64, Script);

/// In each scene the calls are answered so.
pub(crate) fn play(rt: &impl Abort, alloc: Global, scenes: &[Scene]) -> Result<(), Fail> {
    for scene in scenes {
        with_queue(rt, alloc, scene)?;
    }
    Ok(())
}

fn with_queue(rt: &impl Abort, alloc: Global, scene: &Scene) -> Result<(), Fail> {
    let mut queue = WorkQueue::new(alloc, scene.1);
    follow(rt, alloc, &mut queue, scene)
}

fn follow(
    rt: &impl Abort,
    alloc: Global,
    queue: &mut WorkQueue,
    (shows, _, script): &Scene,
) -> Result<(), Fail> {
    match script {
        Script::Queue(rows) => queue::go_through(rt, alloc, queue, shows, rows),
        Script::Waits(servers, rows) => waits::follow(rt, alloc, queue, shows, *servers, rows),
        Script::Pushes(charge, rows) => pushes::follow(rt, alloc, queue, shows, *charge, rows),
        Script::Parts(rows) => parts::follow(rt, alloc, queue, shows, rows),
    }
}
