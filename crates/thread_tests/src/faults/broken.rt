//! A server that breaks at each letter, while ranks wait, work and finish.

use crate::faults::scenes::After::{Absent, Finishes, Gone, Later, LaterNext, Rank0, Without2};
use crate::faults::scenes::Before::{
    Elsewhere, Holds, Keeps, OneLess, Pressed, Promised, Puts, Quiet, Sent, Waits,
};
use crate::faults::scenes::{After, Before};
use crate::parts::{Fault, MEMORY, OWN, TOLD};
use crate::says::{LATE, Line, Says, TOO_LONG};
use crate::servers::is_served;
use adlb_unit::{STAMP_LIMIT, Trouble};
use std::alloc::Global;
use std::sync::Wait;
use std::test::Fail;
use thread_actors::ActorFault;

// A letter of the actor of this number was not expected.
const STRANGE: Fault = (Some(ActorFault::Unexpected { from: 2 }), false);

const STRANGE_1: Fault = (Some(ActorFault::Unexpected { from: 1 }), false);

const STRANGE_4: Fault = (Some(ActorFault::Unexpected { from: 4 }), false);

const STRANGE_5: Fault = (Some(ActorFault::Unexpected { from: 5 }), false);

// Rank 0 waits, and rank 1 asks later; rank 2 waits for the answer to its letter.
const ASKS: &[u32] = &[0, 1, 2];

// The letter is of another, or waits for none.
const SAYS: &[u32] = &[0, 1];

/// A scene, the letter at which the server breaks, what comes after it, the server's fault, and the ranks that are told of it.
type Broken = (Before, Line, After, Fault, &'static [u32]);

/// In which scene a server breaks, at which letter, and what comes after it, until each rank is over. Its fault, and the ranks that
/// are told of it.
const ROWS: &[Broken] = &[
    // Letters of a rank that waits for the answer.
    (Waits, (2, LATE, Says::Put), Later, OWN, ASKS),
    (Waits, (2, LATE, Says::Wait), Later, OWN, ASKS),
    (Waits, (2, LATE, Says::Try), Later, OWN, ASKS),
    (Holds, (2, LATE, Says::Fetch), Later, OWN, ASKS),
    (Waits, (2, LATE, Says::Keep), Later, OWN, ASKS),
    (Keeps, (2, LATE, Says::FetchCommon), Later, OWN, ASKS),
    (Keeps, (2, LATE, Says::Close), Later, OWN, ASKS),
    (Waits, (2, LATE, Says::Count), Later, OWN, ASKS),
    (Waits, (2, LATE, Says::Done), Later, OWN, ASKS),
    // Letters of a rank that waits for none.
    (Waits, (2, LATE, Says::Finish), Without2, OWN, SAYS),
    (OneLess, (2, LATE, Says::Finish), Rank0, OWN, &[0]),
    // Letters of another server.
    (Waits, (4, LATE, Says::Ask), Finishes, OWN, &[0]),
    (Waits, (4, LATE, Says::AskGrant), Later, OWN, SAYS),
    (Waits, (4, LATE, Says::AskNone(0)), Later, OWN, SAYS),
    (Waits, (4, LATE, Says::Hint), Later, OWN, SAYS),
    (Waits, (4, LATE, Says::PushQuery), Later, OWN, SAYS),
    (Pressed, (4, LATE, Says::PushYes), Later, OWN, SAYS),
    (Pressed, (4, LATE, Says::PushNo), Later, OWN, SAYS),
    (Promised, (4, LATE, Says::PushUnit), Later, OWN, SAYS),
    (Promised, (4, LATE, Says::PushCancel), Later, OWN, SAYS),
    (Sent, (4, LATE, Says::PushAck), Later, OWN, SAYS),
    (Waits, (4, LATE, Says::Notice), Later, OWN, SAYS),
    (Quiet, (4, LATE, Says::Token), Later, OWN, ASKS),
    (Quiet, (4, LATE, Says::Failed), Later, OWN, ASKS),
    (Elsewhere, (3, LATE, Says::Token), LaterNext, OWN, SAYS),
    (Elsewhere, (3, LATE, Says::Exhaust), LaterNext, OWN, SAYS),
    (Elsewhere, (3, LATE, Says::Shutdown), LaterNext, OWN, SAYS),
    // Trouble that is told: a rank is gone, another server broke, and a thread was not started.
    (Waits, (2, 0, Says::Gone(TOO_LONG)), Without2, TOLD, SAYS),
    (
        Waits,
        (2, 0, Says::Gone(Trouble::TooLong { stamp: 5 })),
        Without2,
        MEMORY,
        SAYS,
    ),
    (Waits, (4, 0, Says::Abort(TOO_LONG, 0)), Later, TOLD, SAYS),
    (
        Waits,
        (5, 0, Says::Abort(Trouble::Memory, 0)),
        Later,
        MEMORY,
        SAYS,
    ),
    (
        Waits,
        (5, 0, Says::Abort(Trouble::Memory, 1)),
        Without2,
        MEMORY,
        SAYS,
    ),
    (
        Waits,
        (5, 0, Says::Abort(Trouble::Memory, 2)),
        Rank0,
        MEMORY,
        &[0],
    ),
    // A rank that is gone, or was not started, after the server broke.
    (Waits, (2, LATE, Says::Put), Gone, OWN, ASKS),
    (Waits, (1, LATE, Says::Try), Absent, OWN, SAYS),
    // Letters that are not expected.
    (Waits, (2, 1, Says::Bytes(0, b"abc")), Later, STRANGE, SAYS),
    (Waits, (2, STAMP_LIMIT, Says::Put), Later, STRANGE, ASKS),
    (Puts, (2, 1, Says::Put), Later, STRANGE, ASKS),
    (Waits, (1, 1, Says::Wait), Finishes, STRANGE_1, SAYS),
    (
        Waits,
        (2, 1, Says::Abort(TOO_LONG, 3)),
        Later,
        STRANGE,
        SAYS,
    ),
    (Waits, (4, 1, Says::Put), Later, STRANGE_4, SAYS),
    (Waits, (5, 1, Says::Finish), Later, STRANGE_5, SAYS),
];

// The server breaks as the row says.
fn breaks<R: Wait + Copy>(rt: R, alloc: Global, row: &Broken) -> Result<bool, Fail> {
    let (before, line, after, fault, ranks) = row;
    is_served(
        rt,
        alloc,
        &(before.scene(), line, after.lines(), *fault, ranks),
    )
}

#[test]
fn a_server_breaks_at_each_letter(rt: HostRuntime) -> Result<(), Fail> {
    for (number, row) in ROWS.iter().enumerate() {
        assert!(rt; breaks(rt, rt.alloc(), row)?, "row {number}");
    }
    Ok(())
}
