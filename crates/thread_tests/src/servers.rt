//! How a server ends.

ghost use Rattle.std.specs.Prelude.{◌≡◌, ◌≤◌, ◌<◌, ◌+◌};
ghost use Rattle.actor_desk.specs.Desks.{IsNew};

use crate::cast::{Others, POOL};
use crate::heard::Heard;
use crate::parts::{Fault, OWN, Part, Script, is_played};
use crate::says::{LATE, Line, Says};
use actor_desk::{Desk, Mailing};
use adlb_unit::{Config, NoMemory, Server, Trouble};
use std::alloc::Global;
use std::slice;
use std::sync::Wait;
use std::test::Fail;
use thread_actors::{ActorFault, ServerEnd, ServerJob};

/// What a server heard, and others heard of it, each by number. How many entries its journal has then.
pub struct Scene<'a> {
    pub me: u32,
    pub alone: bool,
    pub said: &'a [Line],
    pub heard: &'a [(u32, Heard)],
    pub entries: u64,
}

/// What there is before a letter, this letter, and what comes after it. The server's fault, and the ranks that are told of it.
pub type Row<'a> = (&'a Scene<'a>, &'a Line, &'a [Line], Fault, &'a [u32]);

// The part of a server with this fault, of which it tells these ranks, and the other server if there is one.
#[derive(Clone, Copy)]
struct Serves<'a> {
    fault: Fault,
    ranks: &'a [u32],
}

impl Part for Serves<'_> {
    ghost at = { λ part number. 3 ≤ number };

    fn last(&self, number: u32) -> Option<Heard> {
        let trouble = self.fault.0?.told();
        if number >= POOL {
            return Some(Heard::Abort { trouble, absent: 0 });
        }
        self.ranks
            .contains(&number)
            .then_some(Heard::Broken(trouble))
    }

    fn play<R: Wait + Copy, M: Mailing>(
        &self,
        rt: R,
        alloc: Global,
        config: Config,
        number: u32,
        desk: Desk<M>,
        others: &mut Others<M>,
    ) -> Result<bool, NoMemory> {
        let job = ServerJob::new(alloc, rt, config, Server(number - config.ranks), desk)?;
        has_ended(job.run(), self.fault, others)
    }
}

// The server has left this, with its desk.
fn has_ended<M: Mailing>(
    end: ServerEnd<M>,
    wanted: Fault,
    others: &mut Others<M>,
) -> Result<bool, NoMemory> {
    let ServerEnd {
        left,
        fault,
        own,
        desk,
    } = end;
    drop(left);
    others.put_back(desk)?;
    Ok(fault == wanted.0 && own == wanted.1)
}

/// The server ends as the row says, and tells whom the row says.
pub fn is_served<R: Wait + Copy>(rt: R, alloc: Global, row: &Row) -> Result<bool, Fail> {
    let (scene, line, after, fault, ranks) = *row;
    if scene.me < POOL {
        return Err("a rank".into());
    }
    let script = Script {
        number: scene.me,
        alone: scene.alone,
        said: scene.said,
        then: slice::from_ref(line),
        after,
        heard: scene.heard,
        entries: Some(scene.entries),
    };
    let part = Serves { fault, ranks };
    is_played(rt, alloc, &script, &part)
}

// Ranks 1 and 2 have finished at the only server.
const ONE_LEFT: Scene = Scene {
    me: POOL,
    alone: true,
    said: &[(1, 1, Says::Finish), (2, 1, Says::Finish)],
    heard: &[],
    entries: 0,
};

/// Rank 0 sends the bytes of a unit, which no rank sends, and then that it waits and that it is gone. Or it sends its last letter,
/// whose stamp is the last that is given, or the one before.
const ENDS: &[Row] = &[
    (
        &ONE_LEFT,
        &(0, 1, Says::Bytes(7, b"abc")),
        &[(0, 1, Says::Reserve), (0, 0, Says::Gone(Trouble::Memory))],
        (Some(ActorFault::Unexpected { from: 0 }), false),
        &[0],
    ),
    (&ONE_LEFT, &(0, LATE, Says::Finish), &[], OWN, &[]),
    (
        &ONE_LEFT,
        &(0, LATE - 1, Says::Finish),
        &[],
        (None, false),
        &[],
    ),
];

#[test]
fn what_is_not_expected_breaks_the_server(rt: HostRuntime) -> Result<(), Fail> {
    for row in ENDS {
        assert!(rt; is_served(rt, rt.alloc(), row)?);
    }
    Ok(())
}
