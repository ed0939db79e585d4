//! What is read off ids, ranks, places and parts: the definitions of these names as code.

ghost use Rattle.std.specs.Prelude.{◌≡◌, ◌==◌, ◌&&◌, ◌+◌, IsTrue, nat_lt};
ghost use Rattle.adlb_unit.specs.Ids.{same_unit, same_batch};
ghost use Rattle.adlb_unit.specs.declared.names.Server.{Server};
ghost use Rattle.bag_ledger.specs.Bag.{offer, wish, open_call, is_free, is_free_at, is_placed_at, is_travelling, is_due, is_asking, is_asking_or_finished};
ghost use Rattle.bag_ledger.specs.Step.{is_running, is_closing, trying, counting, fetching, is_pinned_to, is_pinned, is_travelling_to, is_of, same_info, same_top};

use adlb_unit::{BatchId, CommonRef, Info, Rank, Server, Types, UnitId, WorkType};
use bag_ledger::{Part, RankState, Status, UnitPlace};

/// The ids are equal.
pub fn same_unit(a: UnitId, b: UnitId) -> bool
    ensures { result ≡ same_unit a b }
{
    a.rank.0 == b.rank.0 && a.number == b.number
}

/// The batches are equal.
pub fn same_batch(a: BatchId, b: BatchId) -> bool
    ensures { result ≡ same_batch a b }
{
    a.rank.0 == b.rank.0 && a.number == b.number
}

/// The numbers are equal.
pub fn same_number(a: u64, b: u64) -> bool
    ensures { result ≡ (a == b) }
{
    a == b
}

/// The servers are equal.
pub fn same_server(a: Server, b: Server) -> bool
    ensures { result ≡ (a.0 == b.0) }
{
    a.0 == b.0
}

// What a rank does.

/// The rank runs, and its next call has this number.
pub fn begins(r: &RankState, call: u64) -> bool
    ensures { result ≡ is_running r.now.status && (r.now.next == call) }
{
    matches!(r.status, Status::Running) && r.next == call
}

/// What the rank brings, by a put or by beginning a batch: the number of the call, and how many bytes.
pub fn offer(r: &RankState) -> Option<(u64, u64)>
    ensures { result ≡ offer r.now.status }
{
    match &r.status {
        Status::Putting { unit } => Some((unit.id.number, unit.body.len() as u64)),
        Status::Keeping { call, common } => Some((*call, common.len() as u64)),
        _ => None,
    }
}

/// What the rank wants, by a reserve or a try: the number of the call, and the types.
pub fn wish(r: &RankState) -> Option<(u64, Types)>
    ensures { result ≡ wish r.now.status }
{
    match &r.status {
        Status::Asking { call, types } => Some((*call, types.twin())),
        Status::Trying { call, types } => Some((*call, types.twin())),
        _ => None,
    }
}

/// The number and the types of the try that is pending.
pub fn trying(r: &RankState) -> Option<(u64, Types)>
    ensures { result ≡ trying r.now.status }
{
    match &r.status {
        Status::Trying { call, types } => Some((*call, types.twin())),
        _ => None,
    }
}

/// The number and the type of the count that is pending.
pub fn counting(r: &RankState) -> Option<(u64, WorkType)>
    ensures { result ≡ counting r.now.status }
{
    match &r.status {
        Status::Counting { call, kind } => Some((*call, *kind)),
        _ => None,
    }
}

/// The unit that the rank fetches, and whether its own bytes came.
pub fn fetching(r: &RankState) -> Option<(UnitId, bool)>
    ensures { result ≡ fetching r.now.status }
{
    match &r.status {
        Status::Fetching { id, own, .. } => Some((*id, *own)),
        _ => None,
    }
}

/// The number of the pending call, where an end may answer it.
pub fn open_call(r: &RankState) -> Option<u64>
    ensures { result ≡ open_call r.now.status }
{
    match &r.status {
        Status::Putting { unit } => Some(unit.id.number),
        Status::Keeping { call, .. } => Some(*call),
        Status::Asking { call, .. } => Some(*call),
        Status::Trying { call, .. } => Some(*call),
        _ => None,
    }
}

/// The rank ends its batch.
pub fn is_closing(r: &RankState) -> bool
    ensures { result ≡ is_closing r.now.status }
{
    matches!(r.status, Status::Closing { .. })
}

/// The rank asks.
pub fn is_asking(r: &RankState) -> bool
    ensures { result ≡ is_asking r.now.status }
{
    matches!(r.status, Status::Asking { .. })
}

/// The rank asks or has finished.
pub fn is_asking_or_finished(r: &RankState) -> bool
    ensures { result ≡ is_asking_or_finished r.now.status }
{
    matches!(r.status, Status::Asking { .. } | Status::Finished)
}

/// The common part is that of the batch.
pub fn is_of(common: Option<CommonRef>, batch: BatchId) -> bool
    ensures { result ≡ is_of batch common }
{
    match common {
        None => false,
        Some(common) => same_batch(common.batch, batch),
    }
}

// Where a unit is.

/// The unit is free.
pub fn is_free(place: UnitPlace) -> bool
    ensures { result ≡ is_free place }
{
    matches!(place, UnitPlace::Free(_))
}

/// The unit is free at the server.
pub fn is_free_at(place: UnitPlace, server: Server) -> bool
    ensures { result ≡ is_free_at server place }
{
    matches!(place, UnitPlace::Free(at) if at.0 == server.0)
}

/// The unit is free or pinned at the server.
pub fn is_placed_at(place: UnitPlace, server: Server) -> bool
    ensures { result ≡ is_placed_at server place }
{
    match place {
        UnitPlace::Free(at) => at.0 == server.0,
        UnitPlace::Pinned(at, _) => at.0 == server.0,
        _ => false,
    }
}

/// The unit travels.
pub fn is_travelling(place: UnitPlace) -> bool
    ensures { result ≡ is_travelling place }
{
    matches!(place, UnitPlace::Travelling(_))
}

/// The unit travels to the server.
pub fn is_travelling_to(place: UnitPlace, server: Server) -> bool
    ensures { result ≡ is_travelling_to server place }
{
    matches!(place, UnitPlace::Travelling(to) if to.0 == server.0)
}

/// The unit is pinned to the rank.
pub fn is_pinned_to(place: UnitPlace, rank: Rank) -> bool
    ensures { result ≡ is_pinned_to rank place }
{
    matches!(place, UnitPlace::Pinned(_, to) if to.0 == rank.0)
}

/// The unit is pinned at the server to the rank.
pub fn is_pinned(place: UnitPlace, server: Server, rank: Rank) -> bool
    ensures { result ≡ is_pinned server rank place }
{
    matches!(place, UnitPlace::Pinned(at, to) if at.0 == server.0 && to.0 == rank.0)
}

/// The part has to be freed now.
pub fn is_due(part: &Part) -> bool
    ensures { result ≡ is_due part.now }
{
    part.closed && !part.freed && part.fetched == part.accepted
}

// The tops are equal, or neither is there.
fn same_top(a: Option<i32>, b: Option<i32>) -> bool
    ensures { result ≡ same_top a b }
{
    match (a, b) {
        (None, None) => true,
        (Some(a), Some(b)) => a == b,
        _ => false,
    }
}

/// Both infos are equal.
pub fn same_info(a: Info, b: Info) -> bool
    ensures { result ≡ same_info a b }
{
    a.free == b.free && same_top(a.top, b.top) && a.at_top == b.at_top
}

/// Two lengths together are over the limit.
pub fn is_over(limit: u64, used: u64, n: u64) -> bool
    ensures { result ≡ nat_lt limit (used + n) }
{
    used > limit || n > limit - used
}
