//! A rank that fails while its batch is going on.

use crate::cast::{NEXT, POOL};
use crate::heard::Heard;
use crate::parts::{Fault, MEMORY, OWN, TOLD};
use crate::programs::Plan;
use crate::ranks::{Row, is_left};
use crate::says::{LATE, Line, Says, TOO_LONG};
use adlb_unit::Trouble;
use std::test::Fail;
use thread_actors::ActorFault;

const FAILED: Fault = (Some(ActorFault::Memory), true);

const WELL: Fault = (None, true);

// A letter was not expected: of the server that was asked, of the other, and of a rank.
const STRANGE_NEXT: Fault = (Some(ActorFault::Unexpected { from: NEXT }), true);

const STRANGE_POOL: Fault = (Some(ActorFault::Unexpected { from: POOL }), true);

const STRANGE_RANK: Fault = (Some(ActorFault::Unexpected { from: 1 }), true);

// The batch begins, its units are put, and it ends. The beginning of a batch counts as a put where the next one goes.
const BEGUN: Line = (POOL, 1, Says::Accepted(0));

const FIRST: Line = (NEXT, 1, Says::Accepted(1));

const SECOND: Line = (POOL, 1, Says::Accepted(2));

const ENDED: Line = (POOL, 1, Says::Closed(3));

// What the servers hear until each of these.
const BEGINS: &[(u32, Heard)] = &[(POOL, Heard::Keep)];

const PUTS: &[(u32, Heard)] = &[(POOL, Heard::Keep), (NEXT, Heard::Put)];

const PUTS_AGAIN: &[(u32, Heard)] = &[(POOL, Heard::Keep), (NEXT, Heard::Put), (POOL, Heard::Put)];

const CLOSING: &[(u32, Heard)] = &[
    (POOL, Heard::Keep),
    (NEXT, Heard::Put),
    (POOL, Heard::Put),
    (POOL, Heard::Close),
];

const GONE: Heard = Heard::Gone(Trouble::Memory);

const GONE_LATE: Heard = Heard::Gone(TOO_LONG);

const ROWS: &[Row] = &[
    // Nothing fails.
    (
        Plan::Batches,
        &[BEGUN, FIRST, SECOND, ENDED],
        (CLOSING, Heard::Finish, 5),
        Some(2),
        WELL,
    ),
    // An answer is late, or the next event is.
    (
        Plan::Batches,
        &[(POOL, LATE, Says::Accepted(0))],
        (BEGINS, GONE_LATE, 1),
        None,
        OWN,
    ),
    (
        Plan::Batches,
        &[BEGUN, (NEXT, LATE, Says::Accepted(1))],
        (PUTS, GONE_LATE, 2),
        None,
        OWN,
    ),
    (
        Plan::Batches,
        &[BEGUN, (NEXT, LATE - 1, Says::Accepted(1))],
        (PUTS, GONE_LATE, 2),
        None,
        OWN,
    ),
    (
        Plan::Batches,
        &[BEGUN, FIRST, SECOND, (POOL, LATE, Says::Closed(3))],
        (CLOSING, GONE_LATE, 4),
        None,
        OWN,
    ),
    (
        Plan::Batches,
        &[BEGUN, FIRST, SECOND, (POOL, LATE - 1, Says::Closed(3))],
        (CLOSING, GONE_LATE, 4),
        None,
        OWN,
    ),
    // A server has failed: the one that was asked, and the other.
    (
        Plan::Batches,
        &[BEGUN, FIRST, (POOL, 0, Says::Broken(TOO_LONG))],
        (PUTS_AGAIN, GONE_LATE, 3),
        None,
        TOLD,
    ),
    (
        Plan::Batches,
        &[BEGUN, (POOL, 0, Says::Broken(Trouble::Memory)), FIRST],
        (PUTS, GONE, 2),
        None,
        MEMORY,
    ),
    (
        Plan::Batches,
        &[
            BEGUN,
            (NEXT, 0, Says::Broken(Trouble::TooLong { stamp: 5 })),
        ],
        (PUTS, GONE, 2),
        None,
        MEMORY,
    ),
    // An answer is of another call, of the other server, or of a rank.
    (
        Plan::Batches,
        &[BEGUN, (NEXT, 1, Says::Accepted(7))],
        (PUTS, GONE, 2),
        None,
        STRANGE_NEXT,
    ),
    (
        Plan::Batches,
        &[BEGUN, (POOL, 1, Says::Accepted(1))],
        (PUTS, GONE, 2),
        None,
        STRANGE_POOL,
    ),
    (
        Plan::Batches,
        &[BEGUN, (1, 1, Says::Accepted(1))],
        (PUTS, GONE, 2),
        None,
        STRANGE_RANK,
    ),
    // The program fails.
    (
        Plan::FailsInBatch,
        &[BEGUN, FIRST],
        (PUTS, GONE, 2),
        None,
        FAILED,
    ),
];

#[test]
fn a_rank_fails_in_its_batch(rt: HostRuntime) -> Result<(), Fail> {
    for (number, row) in ROWS.iter().enumerate() {
        assert!(rt; is_left(rt, rt.alloc(), row)?, "row {number}");
    }
    Ok(())
}
