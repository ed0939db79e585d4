//! What a rank's thread leaves.

ghost use Rattle.std.specs.Prelude.{◌≡◌, ◌<◌, ◌+◌};
ghost use Rattle.actor_desk.specs.Desks.{IsNew};

use crate::cast::{Others, POOL};
use crate::heard::Heard;
use crate::parts::{Fault, Part, Script, is_played};
use crate::programs::{Plan, Worker};
use crate::says::Line;
use actor_desk::{Desk, Mailing};
use adlb_io::FreeGate;
use adlb_unit::{Config, NoMemory, Rank, Trouble};
use std::alloc::Global;
use std::sync::Wait;
use std::test::Fail;
use thread_actors::{ActorFault, RankEnd, RankJob};

/// What the servers hear before the rank's last letter to each, this letter, and how many entries its journal has.
pub type Left<'a> = (&'a [(u32, Heard)], Heard, u64);

/// What rank 0 does, what it is told, what it leaves, its outcome, and its fault.
pub type Row<'a> = (Plan, &'a [Line], Left<'a>, Option<u32>, Fault);

// The part of a rank, with its last letter to each server, its outcome and its fault.
#[derive(Clone, Copy)]
struct Runs {
    plan: Plan,
    last: Heard,
    outcome: Option<u32>,
    fault: Fault,
}

impl Part for Runs {
    ghost at = { λ part number. number < 3 };

    fn last(&self, number: u32) -> Option<Heard> {
        (number >= POOL).then_some(self.last)
    }

    fn play<R: Wait + Copy, M: Mailing>(
        &self,
        rt: R,
        alloc: Global,
        config: Config,
        number: u32,
        desk: Desk<M>,
        others: &mut Others<M>,
    ) -> Result<bool, NoMemory> {
        let plan = self.plan;
        let program = Worker { alloc, plan };
        let job = RankJob::new(alloc, rt, config, Rank(number), program, desk, FreeGate {})?;
        has_ended(job.run(), self, others)
    }
}

// The rank has left this, with its desk.
fn has_ended<M: Mailing>(
    end: RankEnd<u32, M>,
    wanted: &Runs,
    others: &mut Others<M>,
) -> Result<bool, NoMemory> {
    let RankEnd {
        said,
        outcome,
        fault,
        own,
        desk,
    } = end;
    drop(said);
    others.put_back(desk)?;
    Ok(outcome == wanted.outcome && fault == wanted.fault.0 && own == wanted.fault.1)
}

/// The rank leaves what the row says, and the other ranks hear nothing of it.
pub fn is_left<R: Wait + Copy>(rt: R, alloc: Global, row: &Row) -> Result<bool, Fail> {
    let (plan, told, (heard, last, entries), outcome, fault) = *row;
    let script = Script {
        number: 0,
        alone: false,
        said: told,
        then: &[],
        after: &[],
        heard,
        entries: Some(entries),
    };
    let part = Runs {
        plan,
        last,
        outcome,
        fault,
    };
    is_played(rt, alloc, &script, &part)
}

/// All that the rank says is its last letter.
const ENDS: &[Row] = &[
    (
        Plan::Rests,
        &[],
        (&[], Heard::Finish, 1),
        Some(5),
        (None, true),
    ),
    (
        Plan::Fails,
        &[],
        (&[], Heard::Gone(Trouble::Memory), 0),
        None,
        (Some(ActorFault::Memory), true),
    ),
];

#[test]
fn a_rank_has_an_outcome_or_is_gone(rt: HostRuntime) -> Result<(), Fail> {
    for row in ENDS {
        assert!(rt; is_left(rt, rt.alloc(), row)?);
    }
    Ok(())
}
