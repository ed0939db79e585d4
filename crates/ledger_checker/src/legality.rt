//! Where an entry is legal.

ghost use Rattle.std.specs.Prelude.{◌≡◌, ◌==◌, ◌&&◌, ◌%◌, ◌+◌, ◌≤◌, is_none, not, nat_lt, length, true};
ghost use Rattle.adlb_unit.specs.Ids.{same_unit};
ghost use Rattle.adlb_unit.specs.Permit.{permitted};
ghost use Rattle.bag_ledger.specs.declared.entries.Entry.TheVariants.{Putting, Refused, Accepted, Rejected, Keeping, Kept, Closing, Closed, Freed, Asked, Tried, Granted, Looked, NoCurrent, Fetching, Fetched, CommonFetched, Promised, Left, Arrived, Withdrawn, Counting, Counted, Done, Exhausted, Over, Finished};
ghost use Rattle.bag_ledger.specs.Bag.{rank_at, unit_of, part_of, promise_of, putting, keeping, offer, wish, open_call, has_declined, all_declined, charge, is_due, is_free_at, is_placed_at, is_travelling, has_fit_at, info_of};
ghost use Rattle.bag_ledger.specs.Step.{has, begins, anything, fits, is_closing, is_of, is_pinned, is_pinned_to, is_server, is_travelling_to, keeps, legal, trying, counting, fetching, same_info};
ghost use Rattle.bag_ledger.specs.Steps.{has_cause, in_turn};

use crate::machines::Machine;
use adlb_unit::{BatchId, End, Info, Rank, Server, Types, UnitId, permits};
use bag_ledger::{Entry, Placed, RankState, Status};
use bag_tables::reading::{
    begins, counting, fetching, is_closing, is_due, is_free_at, is_of, is_over, is_pinned,
    is_pinned_to, is_placed_at, is_travelling, is_travelling_to, offer, open_call, same_info,
    same_number, same_server, same_unit, trying, wish,
};

// A rank's calls that begin.
impl Machine {
    fn may_begin(&self, rank: Rank, call: u64) -> bool
        ensures { result ≡ begins self.now rank call anything }
    {
        match self.rank(rank) {
            None => false,
            Some(r) => begins(r, call),
        }
    }

    fn may_begin_outside(&self, rank: Rank, call: u64) -> bool
        ensures { result ≡ begins self.now rank call (λ r. is_none r.batch) }
    {
        match self.rank(rank) {
            None => false,
            Some(r) => begins(r, call) && r.batch.is_none(),
        }
    }

    fn may_begin_within(&self, rank: Rank, call: u64) -> bool
        ensures { result ≡ begins self.now rank call (λ r. not (is_none r.batch)) }
    {
        match self.rank(rank) {
            None => false,
            Some(r) => begins(r, call) && !r.batch.is_none(),
        }
    }

    fn is_pinned_for(&self, rank: Rank, id: UnitId) -> bool
        ensures { result ≡ has (unit_of self.now id) (λ u. is_pinned_to rank u.place) }
    {
        match self.unit(id) {
            None => false,
            Some(unit) => is_pinned_to(unit.place, rank),
        }
    }

    fn may_fetch(&self, rank: Rank, call: u64, id: UnitId) -> bool
        ensures { result ≡ legal self.now (Fetching rank call id) }
    {
        self.may_begin(rank, call) && self.is_pinned_for(rank, id)
    }
}

// What a rank brings.
impl Machine {
    fn refuses(&self, r: &RankState, server: Server, id: UnitId, used: u64) -> bool
        ensures { result ≡ has (offer r.now.status) (λ o. (o.0 == id.number) && is_server self.now server && not (has_declined r.now server) && (used == charge self.now server) && nat_lt self.now.limit (used + o.1)) }
    {
        match offer(r) {
            None => false,
            Some((pending, n)) => {
                same_number(pending, id.number)
                    && self.is_server(server)
                    && !r.declined.has(server)
                    && self.is_charge(server, used)
                    && is_over(self.limit(), used, n)
            }
        }
    }

    fn may_refuse(&self, server: Server, id: UnitId, used: u64) -> bool
        ensures { result ≡ legal self.now (Refused server id used) }
    {
        match self.rank(id.rank) {
            None => false,
            Some(r) => self.refuses(r, server, id, used),
        }
    }

    fn accepts(&self, r: &RankState, server: Server, id: UnitId) -> bool
        ensures { result ≡ has (putting r.now.status) (λ u. same_unit u.id id && is_server self.now server && not (has_declined r.now server) && fits self.now server (length u.body)) }
    {
        match &r.status {
            Status::Putting { unit } => {
                same_unit(unit.id, id)
                    && self.is_server(server)
                    && !r.declined.has(server)
                    && self.fits(server, unit.body.len() as u64)
            }
            _ => false,
        }
    }

    fn may_accept(&self, server: Server, id: UnitId) -> bool
        ensures { result ≡ legal self.now (Accepted server id) }
    {
        match self.rank(id.rank) {
            None => false,
            Some(r) => self.accepts(r, server, id),
        }
    }

    fn may_reject(&self, rank: Rank, call: u64) -> bool
        ensures { result ≡ legal self.now (Rejected rank call) }
    {
        match self.rank(rank) {
            None => false,
            Some(r) => match offer(r) {
                None => false,
                Some((pending, _)) => {
                    same_number(pending, call) && r.declined.has_all(self.servers())
                }
            },
        }
    }

    fn takes_common(&self, r: &RankState, server: Server, batch: BatchId) -> bool
        ensures { result ≡ has (keeping r.now.status) (λ k. (k.0 == batch.number) && is_server self.now server && not (has_declined r.now server) && fits self.now server (length k.1)) }
    {
        match &r.status {
            Status::Keeping { call, common } => {
                same_number(*call, batch.number)
                    && self.is_server(server)
                    && !r.declined.has(server)
                    && self.fits(server, common.len() as u64)
            }
            _ => false,
        }
    }

    fn may_keep(&self, server: Server, batch: BatchId) -> bool
        ensures { result ≡ legal self.now (Kept server batch) }
    {
        match self.rank(batch.rank) {
            None => false,
            Some(r) => self.takes_common(r, server, batch),
        }
    }
}

// Batches.
impl Machine {
    fn has_kept(&self, server: Server, batch: BatchId) -> bool
        ensures { result ≡ has (part_of self.now batch) (λ p. (p.server.0 == server.0) && not p.freed && true) }
    {
        match self.part(batch) {
            None => false,
            Some(part) => same_server(part.server, server) && !part.freed,
        }
    }

    fn keeps(&self, server: Server, batch: BatchId) -> bool
        ensures { result ≡ keeps self.now server batch (λ p. true) }
    {
        self.is_server(server) && self.has_kept(server, batch)
    }

    fn has_due_at(&self, server: Server, batch: BatchId) -> bool
        ensures { result ≡ has (part_of self.now batch) (λ p. (p.server.0 == server.0) && not p.freed && is_due p) }
    {
        match self.part(batch) {
            None => false,
            Some(part) => same_server(part.server, server) && !part.freed && is_due(part),
        }
    }

    fn may_free(&self, server: Server, batch: BatchId) -> bool
        ensures { result ≡ legal self.now (Freed server batch) }
    {
        self.is_server(server) && self.has_due_at(server, batch)
    }

    fn closes(&self, batch: BatchId) -> bool
        ensures { result ≡ has (rank_at self.now batch.rank) (λ r. is_closing r.status && is_of batch r.batch) }
    {
        match self.rank(batch.rank) {
            None => false,
            Some(r) => is_closing(r) && is_of(r.batch, batch),
        }
    }

    fn may_close(&self, server: Server, batch: BatchId) -> bool
        ensures { result ≡ legal self.now (Closed server batch) }
    {
        self.closes(batch) && self.keeps(server, batch)
    }
}

// What a rank wants.
impl Machine {
    fn offers(&self, server: Server, rank: Rank, types: &Types, id: UnitId) -> bool
        ensures { result ≡ has (unit_of self.now id) (λ u. is_free_at server u.place && permitted rank types.now u.unit.kind u.unit.target) }
    {
        match self.unit(id) {
            None => false,
            Some(u) => {
                is_free_at(u.place, server) && permits(rank, types, u.unit.kind, u.unit.target)
            }
        }
    }

    fn grants(&self, r: &RankState, server: Server, rank: Rank, call: u64, id: UnitId) -> bool
        ensures { result ≡ has (wish r.now.status) (λ w. (w.0 == call) && is_server self.now server && has (unit_of self.now id) (λ u. is_free_at server u.place && permitted rank w.1 u.unit.kind u.unit.target)) }
    {
        match wish(r) {
            None => false,
            Some((pending, types)) => {
                same_number(pending, call)
                    && self.is_server(server)
                    && self.offers(server, rank, &types, id)
            }
        }
    }

    fn may_grant(&self, server: Server, rank: Rank, call: u64, id: UnitId) -> bool
        ensures { result ≡ legal self.now (Granted server rank call id) }
    {
        match self.rank(rank) {
            None => false,
            Some(r) => self.grants(r, server, rank, call, id),
        }
    }

    fn looks(&self, r: &RankState, server: Server, rank: Rank, call: u64) -> bool
        ensures { result ≡ has (trying r.now.status) (λ w. (w.0 == call) && is_server self.now server && not (has_fit_at self.now server rank w.1)) }
    {
        match trying(r) {
            None => false,
            Some((pending, types)) => {
                same_number(pending, call)
                    && self.is_server(server)
                    && !self.has_fit_at(server, rank, &types)
            }
        }
    }

    fn may_look(&self, server: Server, rank: Rank, call: u64) -> bool
        ensures { result ≡ legal self.now (Looked server rank call) }
    {
        match self.rank(rank) {
            None => false,
            Some(r) => self.looks(r, server, rank, call),
        }
    }

    fn may_give_up(&self, rank: Rank, call: u64) -> bool
        ensures { result ≡ legal self.now (NoCurrent rank call) }
    {
        match self.rank(rank) {
            None => false,
            Some(r) => match trying(r) {
                None => false,
                Some((pending, _)) => {
                    same_number(pending, call) && r.declined.has_all(self.servers())
                }
            },
        }
    }
}

// Fetches.
impl Machine {
    fn awaits_own(&self, rank: Rank, id: UnitId) -> bool
        ensures { result ≡ has (rank_at self.now rank) (λ r. has (fetching r.status) (λ f. same_unit f.0 id && not f.1)) }
    {
        match self.rank(rank) {
            None => false,
            Some(r) => match fetching(r) {
                None => false,
                Some((fetched, own)) => same_unit(fetched, id) && !own,
            },
        }
    }

    fn is_pinned_at(&self, server: Server, rank: Rank, id: UnitId) -> bool
        ensures { result ≡ has (unit_of self.now id) (λ u. is_pinned server rank u.place) }
    {
        match self.unit(id) {
            None => false,
            Some(unit) => is_pinned(unit.place, server, rank),
        }
    }

    fn may_give(&self, server: Server, rank: Rank, id: UnitId) -> bool
        ensures { result ≡ legal self.now (Fetched server rank id) }
    {
        self.awaits_own(rank, id) && self.is_server(server) && self.is_pinned_at(server, rank, id)
    }

    fn is_unit_of(&self, id: UnitId, batch: BatchId) -> bool
        ensures { result ≡ has (unit_of self.now id) (λ u. is_of batch u.unit.common) }
    {
        match self.unit(id) {
            None => false,
            Some(unit) => is_of(unit.unit.common, batch),
        }
    }

    fn awaits(&self, r: &RankState, batch: BatchId) -> bool
        ensures { result ≡ has (fetching r.now.status) (λ f. f.1 && has (unit_of self.now f.0) (λ u. is_of batch u.unit.common)) }
    {
        match fetching(r) {
            None => false,
            Some((fetched, own)) => own && self.is_unit_of(fetched, batch),
        }
    }

    fn awaits_common(&self, rank: Rank, batch: BatchId) -> bool
        ensures { result ≡ has (rank_at self.now rank) (λ r. has (fetching r.status) (λ f. f.1 && has (unit_of self.now f.0) (λ u. is_of batch u.unit.common))) }
    {
        match self.rank(rank) {
            None => false,
            Some(r) => self.awaits(r, batch),
        }
    }

    fn may_give_common(&self, server: Server, rank: Rank, batch: BatchId) -> bool
        ensures { result ≡ legal self.now (CommonFetched server rank batch) }
    {
        self.awaits_common(rank, batch) && self.keeps(server, batch)
    }
}

// Pushes.
impl Machine {
    fn is_promisable(&self, unit: &Placed, server: Server, id: UnitId, n: u32) -> bool
        ensures { result ≡ ((length unit.now.unit.body == n) && is_server self.now server && not (is_travelling unit.now.place) && not (is_placed_at server unit.now.place) && is_none (promise_of self.now id) && fits self.now server n) }
    {
        same_number(unit.unit.body.len() as u64, n as u64)
            && self.is_server(server)
            && !is_travelling(unit.place)
            && !is_placed_at(unit.place, server)
            && self.promise(id).is_none()
            && self.fits(server, n as u64)
    }

    fn may_promise(&self, server: Server, id: UnitId, n: u32) -> bool
        ensures { result ≡ legal self.now (Promised server id n) }
    {
        match self.unit(id) {
            None => false,
            Some(unit) => self.is_promisable(unit, server, id, n),
        }
    }

    fn is_free_here(&self, server: Server, id: UnitId) -> bool
        ensures { result ≡ has (unit_of self.now id) (λ u. is_free_at server u.place) }
    {
        match self.unit(id) {
            None => false,
            Some(unit) => is_free_at(unit.place, server),
        }
    }

    fn is_promised_at(&self, server: Server, id: UnitId) -> bool
        ensures { result ≡ has (promise_of self.now id) (λ p. p.server.0 == server.0) }
    {
        match self.promise(id) {
            None => false,
            Some(promise) => same_server(promise.server, server),
        }
    }

    fn may_leave(&self, server: Server, to: Server, id: UnitId) -> bool
        ensures { result ≡ legal self.now (Left server to id) }
    {
        self.is_free_here(server, id)
            && self.is_server(server)
            && self.is_server(to)
            && self.is_promised_at(to, id)
    }

    fn goes_to(&self, server: Server, id: UnitId) -> bool
        ensures { result ≡ has (unit_of self.now id) (λ u. is_travelling_to server u.place) }
    {
        match self.unit(id) {
            None => false,
            Some(unit) => is_travelling_to(unit.place, server),
        }
    }

    fn may_arrive(&self, server: Server, id: UnitId) -> bool
        ensures { result ≡ legal self.now (Arrived server id) }
    {
        self.goes_to(server, id) && self.is_server(server)
    }

    fn stays(&self, id: UnitId) -> bool
        ensures { result ≡ has (unit_of self.now id) (λ u. not (is_travelling u.place)) }
    {
        match self.unit(id) {
            None => false,
            Some(unit) => !is_travelling(unit.place),
        }
    }

    fn may_withdraw(&self, server: Server, id: UnitId) -> bool
        ensures { result ≡ legal self.now (Withdrawn server id) }
    {
        self.stays(id) && self.is_server(server) && self.is_promised_at(server, id)
    }
}

// Counts and ends.
impl Machine {
    fn counts(&self, r: &RankState, server: Server, rank: Rank, call: u64, info: Info) -> bool
        ensures { result ≡ has (counting r.now.status) (λ c. (c.0 == call) && is_server self.now server && (server.0 == (rank.0 % self.now.servers)) && same_info info (info_of self.now server c.1)) }
    {
        match counting(r) {
            None => false,
            Some((pending, kind)) => {
                same_number(pending, call)
                    && self.is_server(server)
                    && server.0 == rank.0 % self.servers()
                    && same_info(info, self.info(server, kind))
            }
        }
    }

    fn may_count(&self, server: Server, rank: Rank, call: u64, info: Info) -> bool
        ensures { result ≡ legal self.now (Counted server rank call info) }
    {
        match self.rank(rank) {
            None => false,
            Some(r) => self.counts(r, server, rank, call, info),
        }
    }

    fn may_exhaust(&self) -> bool
        requires { length self.now.ranks ≤ 32 }
        ensures { result ≡ legal self.now Exhausted }
    {
        self.is_settled() && !self.exhausted()
    }

    fn has_cause(&self, end: End) -> bool
        ensures { result ≡ has_cause self.now end }
    {
        match end {
            End::NoMoreWork => self.done(),
            End::Exhausted => self.exhausted(),
        }
    }

    fn is_open(&self, rank: Rank, call: u64) -> bool
        ensures { result ≡ has (rank_at self.now rank) (λ r. has (open_call r.status) (λ c. c == call)) }
    {
        match self.rank(rank) {
            None => false,
            Some(r) => match open_call(r) {
                None => false,
                Some(pending) => same_number(pending, call),
            },
        }
    }

    fn may_end(&self, rank: Rank, call: u64, end: End) -> bool
        ensures { result ≡ legal self.now (Over rank call end) }
    {
        self.is_open(rank, call) && self.has_cause(end)
    }
}

// Any entry.
impl Machine {
    // The entry is legal, but for parts that are due.
    pub(crate) fn is_legal(&self, entry: &Entry) -> bool
        requires { length self.now.ranks ≤ 32 }
        ensures { result ≡ legal self.now entry.now }
    {
        match entry {
            Entry::Putting { rank, call, .. } => self.may_begin(*rank, *call),
            Entry::Refused { server, id, used } => self.may_refuse(*server, *id, *used),
            Entry::Accepted { server, id } => self.may_accept(*server, *id),
            Entry::Rejected { rank, call } => self.may_reject(*rank, *call),
            Entry::Keeping { rank, call, .. } => self.may_begin_outside(*rank, *call),
            Entry::Kept { server, batch } => self.may_keep(*server, *batch),
            Entry::Closing { rank, call } => self.may_begin_within(*rank, *call),
            Entry::Closed { server, batch } => self.may_close(*server, *batch),
            Entry::Freed { server, batch } => self.may_free(*server, *batch),
            Entry::Asked { rank, call, .. } => self.may_begin(*rank, *call),
            Entry::Tried { rank, call, .. } => self.may_begin(*rank, *call),
            Entry::Granted {
                server,
                rank,
                call,
                id,
            } => { self.may_grant(*server, *rank, *call, *id) }
            Entry::Looked { server, rank, call } => self.may_look(*server, *rank, *call),
            Entry::NoCurrent { rank, call } => self.may_give_up(*rank, *call),
            Entry::Fetching { rank, call, id } => self.may_fetch(*rank, *call, *id),
            Entry::Fetched { server, rank, id } => self.may_give(*server, *rank, *id),
            Entry::CommonFetched {
                server,
                rank,
                batch,
            } => { self.may_give_common(*server, *rank, *batch) }
            Entry::Promised { server, id, length } => self.may_promise(*server, *id, *length),
            Entry::Left { server, to, id } => self.may_leave(*server, *to, *id),
            Entry::Arrived { server, id } => self.may_arrive(*server, *id),
            Entry::Withdrawn { server, id } => self.may_withdraw(*server, *id),
            Entry::Counting { rank, call, .. } => self.may_begin(*rank, *call),
            Entry::Counted {
                server,
                rank,
                call,
                info,
            } => { self.may_count(*server, *rank, *call, *info) }
            Entry::Done { rank, call } => self.may_begin(*rank, *call),
            Entry::Exhausted => self.may_exhaust(),
            Entry::Over { rank, call, end } => self.may_end(*rank, *call, *end),
            Entry::Finished { rank, call } => self.may_begin_outside(*rank, *call),
        }
    }

    // Where a part is due, the entry frees one.
    pub(crate) fn in_turn(&self, entry: &Entry) -> bool
        ensures { result ≡ in_turn self.now entry.now }
    {
        matches!(entry, Entry::Freed { .. }) || !self.has_due()
    }
}
