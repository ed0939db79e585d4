//! What an entry changes.

ghost use Rattle.std.specs.Prelude.{◌≡◌, ◌≤◌, ◌^◌, ◌-◌, ◌+◌, ◌<◌, ◌++◌, ◌∷◌, [], IfOk, OnOk, IsTrue, MatchBool, MatchOption, All, None, Some, length, true, false, option_and_then};
ghost use Rattle.bag_ledger.specs.declared.entries.Entry.TheVariants.{Putting, Refused, Accepted, Rejected, Keeping, Kept, Closing, Closed, Freed, Asked, Tried, Granted, Looked, NoCurrent, Fetching, Fetched, CommonFetched, Promised, Left, Arrived, Withdrawn, Counting, Counted, Done, Exhausted, Over, Finished};
ghost use Rattle.bag_ledger.specs.declared.states.Status.TheVariants as does;
ghost use Rattle.bag_ledger.specs.declared.states.UnitPlace.TheVariants.{Free, Pinned, Spent};
ghost use Rattle.bag_ledger.specs.Bag.{rank_at, unit_of, putting, keeping};
ghost use Rattle.bag_ledger.specs.Step.{legal, step};
ghost use Rattle.bag_ledger.specs.Steps.{after, begun, ended, declined_by, kept, moved, new_part, own_fetched, shared, taken, unpromised, with_part, with_rank};
ghost use Rattle.bag_tables.specs.Changes.{rank_changed, part_changed};
ghost use Rattle.ledger_checker.specs.Calls.{begins_call};
ghost use Rattle.ledger_checker.specs.Room.{HasRoom};

use crate::machines::Machine;
use adlb_unit::{
    BatchId, CommonRef, NoMemory, Payload, Rank, Server, Target, Types, Unit, UnitId, WorkType,
};
use bag_ledger::{Entry, Part, Promise, Status, UnitPlace};
use bag_tables::{PartChange, RankChange};
use std::alloc::Global;

// A rank's call begins or ends.
impl Machine {
    // The rank is changed.
    fn change(&mut self, rank: Rank, change: RankChange) -> Result<(), NoMemory>
        requires { All (λ r. r.next + 1 < 2 ^ 64) self.old.ranks }
        ensures { OnOk result (self.new ≡ with_rank rank (rank_changed change) self.old) }
    {
        self.ranks.change(rank, change)
    }

    fn begin(&mut self, rank: Rank, status: Status) -> Result<(), NoMemory>
        requires { All (λ r. r.next + 1 < 2 ^ 64) self.old.ranks }
        ensures { OnOk result (self.new ≡ with_rank rank (begun status) self.old) }
    {
        self.change(rank, RankChange::Begins(status))
    }

    fn end(&mut self, rank: Rank) -> Result<(), NoMemory>
        requires { All (λ r. r.next + 1 < 2 ^ 64) self.old.ranks }
        ensures { OnOk result (self.new ≡ with_rank rank ended self.old) }
    {
        self.change(rank, RankChange::Ended)
    }

    fn keep(&mut self, rank: Rank, call: u64, common: &Payload) -> Result<(), NoMemory>
        requires { All (λ r. r.next + 1 < 2 ^ 64) self.old.ranks }
        ensures { OnOk result (self.new ≡ after self.old (Keeping rank call common.now)) }
    {
        let common = common.twin(self.alloc)?;
        self.begin(rank, Status::Keeping { call, common })
    }

    fn ask(&mut self, rank: Rank, call: u64, types: &Types) -> Result<(), NoMemory>
        requires { All (λ r. r.next + 1 < 2 ^ 64) self.old.ranks }
        ensures { OnOk result (self.new ≡ with_rank rank (begun (does.Asking call types.now)) self.old) }
    {
        let types = types.twin();
        self.begin(rank, Status::Asking { call, types })
    }

    fn try_for(&mut self, rank: Rank, call: u64, types: &Types) -> Result<(), NoMemory>
        requires { All (λ r. r.next + 1 < 2 ^ 64) self.old.ranks }
        ensures { OnOk result (self.new ≡ with_rank rank (begun (does.Trying call types.now)) self.old) }
    {
        let types = types.twin();
        self.begin(rank, Status::Trying { call, types })
    }

    fn call_done(&mut self, rank: Rank) -> Result<(), NoMemory>
        requires { All (λ r. r.next + 1 < 2 ^ 64) self.old.ranks }
        ensures { OnOk result (self.new ≡ with_rank rank (begun does.Running) (record self.old { done = true })) }
    {
        self.done = true;
        self.begin(rank, Status::Running)
    }
}

// What a rank brings.
impl Machine {
    // The unit that the rank puts.
    fn unit_put(&self, rank: Rank) -> Result<Option<Unit>, NoMemory>
        ensures { IfOk result (λ unit. unit ≡ option_and_then (λ r. putting r.status) (rank_at self.now rank)) }
    {
        let Some(r) = self.rank(rank) else {
            return Ok(None);
        };
        match &r.status {
            Status::Putting { unit } => Ok(Some(unit.twin(self.alloc)?)),
            _ => Ok(None),
        }
    }

    // One unit more of this common part was accepted.
    fn share(&mut self, common: Option<CommonRef>)
        requires accepted { All (λ p. p.accepted + 1 < 2 ^ 64) self.old.parts }
        requires fetched { All (λ p. p.fetched + 1 < 2 ^ 64) self.old.parts }
        ensures { self.new ≡ shared common self.old }
    {
        if let Some(common) = common {
            self.parts.change(common.batch, PartChange::Accepted);
        }
    }

    fn take(&mut self, server: Server, unit: Option<Unit>) -> Result<(), NoMemory>
        requires accepted { All (λ p. p.accepted + 1 < 2 ^ 64) self.old.parts }
        requires fetched { All (λ p. p.fetched + 1 < 2 ^ 64) self.old.parts }
        ensures { IfOk result (λ _. self.new ≡ taken server unit self.old) }
    {
        let Some(unit) = unit else {
            return Ok(());
        };
        let common = unit.common;
        self.units.add(unit, server)?;
        self.share(common);
        Ok(())
    }

    fn accept(&mut self, server: Server, id: UnitId) -> Result<(), NoMemory>
        requires calls { All (λ r. r.next + 1 < 2 ^ 64) self.old.ranks }
        requires accepted { All (λ p. p.accepted + 1 < 2 ^ 64) self.old.parts }
        requires fetched { All (λ p. p.fetched + 1 < 2 ^ 64) self.old.parts }
        ensures { OnOk result (self.new ≡ after self.old (Accepted server id)) }
    {
        let unit = self.unit_put(id.rank)?;
        self.take(server, unit)?;
        self.end(id.rank)
    }

    // The common part that the rank brings.
    fn common_kept(&self, rank: Rank) -> Result<Option<(u64, Payload)>, NoMemory>
        ensures { IfOk result (λ kept. kept ≡ option_and_then (λ r. keeping r.status) (rank_at self.now rank)) }
    {
        let Some(r) = self.rank(rank) else {
            return Ok(None);
        };
        match &r.status {
            Status::Keeping { call, common } => Ok(Some((*call, common.twin(self.alloc)?))),
            _ => Ok(None),
        }
    }
}

// Batches.
impl Machine {
    fn add_part(&mut self, server: Server, batch: BatchId, common: Payload) -> Result<(), NoMemory>
        ensures { OnOk result (self.new ≡ record self.old { parts = self.old.parts ++ new_part server batch common ∷ [] }) }
    {
        self.parts.add(Part {
            batch,
            server,
            common,
            accepted: 0,
            fetched: 0,
            closed: false,
            freed: false,
        })
    }

    fn change_part(&mut self, batch: BatchId, change: PartChange)
        requires accepted { All (λ p. p.accepted + 1 < 2 ^ 64) self.old.parts }
        requires fetched { All (λ p. p.fetched + 1 < 2 ^ 64) self.old.parts }
        ensures { self.new ≡ with_part batch (part_changed change) self.old }
    {
        self.parts.change(batch, change);
    }

    fn hold_common(
        &mut self,
        server: Server,
        batch: BatchId,
        call: u64,
        common: Payload,
    ) -> Result<(), NoMemory>
        requires short { length common < 2 ^ 32 }
        requires calls { All (λ r. r.next + 1 < 2 ^ 64) self.old.ranks }
        ensures { OnOk result (self.new ≡ kept server batch (Some (call, common)) self.old) }
    {
        let length = common.len() as u32;
        self.add_part(server, batch, common)?;
        let common = CommonRef {
            batch,
            server,
            length,
        };
        self.change(batch.rank, RankChange::GoesOn(Some(common)))
    }

    fn hold(&mut self, server: Server, batch: BatchId) -> Result<(), NoMemory>
        requires limit { self.old.limit ≤ 2 ^ 30 }
        requires calls { All (λ r. r.next + 1 < 2 ^ 64) self.old.ranks }
        requires legal { IsTrue (legal self.old (Kept server batch)) }
        ensures { OnOk result (self.new ≡ after self.old (Kept server batch)) }
    {
        let Some((call, common)) = self.common_kept(batch.rank)? else {
            return Ok(());
        };
        self.hold_common(server, batch, call, common)
    }

    fn close(&mut self, batch: BatchId) -> Result<(), NoMemory>
        requires calls { All (λ r. r.next + 1 < 2 ^ 64) self.old.ranks }
        requires accepted { All (λ p. p.accepted + 1 < 2 ^ 64) self.old.parts }
        requires fetched { All (λ p. p.fetched + 1 < 2 ^ 64) self.old.parts }
        ensures { OnOk result (self.new ≡ with_rank batch.rank (λ r. ended (record r { batch = None })) (with_part batch (λ p. record p { closed = true }) self.old)) }
    {
        self.change_part(batch, PartChange::Closed);
        self.change(batch.rank, RankChange::GoesOn(None))
    }

    fn give_common(&mut self, rank: Rank, batch: BatchId) -> Result<(), NoMemory>
        requires calls { All (λ r. r.next + 1 < 2 ^ 64) self.old.ranks }
        requires accepted { All (λ p. p.accepted + 1 < 2 ^ 64) self.old.parts }
        requires fetched { All (λ p. p.fetched + 1 < 2 ^ 64) self.old.parts }
        ensures { OnOk result (self.new ≡ with_rank rank ended (with_part batch (λ p. record p { fetched = p.fetched + 1 }) self.old)) }
    {
        self.change_part(batch, PartChange::Fetched);
        self.end(rank)
    }
}

// Units.
impl Machine {
    fn place(&mut self, id: UnitId, place: UnitPlace) -> Result<(), NoMemory>
        ensures { OnOk result (self.new ≡ moved id place self.old) }
    {
        self.units.move_to(id, place)
    }

    fn grant(&mut self, server: Server, rank: Rank, id: UnitId) -> Result<(), NoMemory>
        requires { All (λ r. r.next + 1 < 2 ^ 64) self.old.ranks }
        ensures { OnOk result (self.new ≡ with_rank rank ended (moved id (Pinned server rank) self.old)) }
    {
        self.place(id, UnitPlace::Pinned(server, rank))?;
        self.end(rank)
    }

    // The common part of the unit.
    fn common_of(&self, id: UnitId) -> Option<CommonRef>
        ensures { result ≡ option_and_then (λ u. u.unit.common) (unit_of self.now id) }
    {
        match self.unit(id) {
            None => None,
            Some(unit) => unit.unit.common,
        }
    }

    fn give(&mut self, rank: Rank, id: UnitId) -> Result<(), NoMemory>
        requires { All (λ r. r.next + 1 < 2 ^ 64) self.old.ranks }
        ensures { OnOk result (self.new ≡ with_rank rank (own_fetched (option_and_then (λ u. u.unit.common) (unit_of self.old id))) (moved id Spent self.old)) }
    {
        let common = self.common_of(id);
        self.place(id, UnitPlace::Spent)?;
        self.change(rank, RankChange::OwnCame(common))
    }

    fn promise_room(&mut self, server: Server, id: UnitId, length: u32) -> Result<(), NoMemory>
        requires { IsTrue (legal self.old (Promised server id length)) }
        ensures { OnOk result (self.new ≡ record self.old { promises = self.old.promises ++ record { server = server; id = id; length = length } ∷ [] }) }
    {
        self.promises.add(Promise { server, id, length })
    }

    fn withdraw(&mut self, id: UnitId)
        ensures { self.new ≡ unpromised id self.old }
    {
        self.promises.remove(id);
    }

    fn arrive(&mut self, server: Server, id: UnitId) -> Result<(), NoMemory>
        ensures { OnOk result (self.new ≡ unpromised id (moved id (Free server) self.old)) }
    {
        self.place(id, UnitPlace::Free(server))?;
        self.withdraw(id);
        Ok(())
    }
}

// Any entry.
impl Machine {
    fn put_copy(
        &mut self,
        rank: Rank,
        call: u64,
        kind: WorkType,
        prio: i32,
        target: Target,
        answer: Option<Rank>,
        body: &Payload,
    ) -> Result<(), NoMemory>
        requires { All (λ r. r.next + 1 < 2 ^ 64) self.old.ranks }
        ensures { OnOk result (self.new ≡ after self.old (Putting rank call kind prio target answer body.now)) }
    {
        let body = body.twin(self.alloc)?;
        let unit = Unit {
            id: UnitId { rank, number: call },
            kind,
            prio,
            target,
            answer,
            common: None,
            body,
        };
        self.change(rank, RankChange::Puts(unit))
    }

    // Takes the step of this entry, which is legal and by which a rank begins a call.
    fn follow_call(&mut self, entry: &Entry) -> Result<(), NoMemory>
        requires calls { All (λ r. r.next + 1 < 2 ^ 64) self.old.ranks }
        requires begins { begins_call entry.now ≡ true }
        ensures { OnOk result (self.new ≡ after self.old entry.now) }
    {
        match entry {
            Entry::Putting {
                rank,
                call,
                kind,
                prio,
                target,
                answer,
                body,
            } => { self.put_copy(*rank, *call, *kind, *prio, *target, *answer, body) }
            Entry::Keeping { rank, call, common } => self.keep(*rank, *call, common),
            Entry::Closing { rank, call } => { self.begin(*rank, Status::Closing { call: *call }) }
            Entry::Asked { rank, call, types } => self.ask(*rank, *call, types),
            Entry::Tried { rank, call, types } => self.try_for(*rank, *call, types),
            Entry::Fetching { rank, call, id } => {
                let (call, id, own) = (*call, *id, false);
                self.begin(*rank, Status::Fetching { call, id, own })
            }
            Entry::Counting { rank, call, kind } => {
                let (call, kind) = (*call, *kind);
                self.begin(*rank, Status::Counting { call, kind })
            }
            Entry::Done { rank, .. } => self.call_done(*rank),
            Entry::Finished { rank, .. } => self.begin(*rank, Status::Finished),
            _ => unreachable!(),
        }
    }

    // Takes the step of this entry, which is legal.
    fn follow(&mut self, entry: &Entry) -> Result<(), NoMemory>
        requires limit { self.old.limit ≤ 2 ^ 30 }
        requires calls { All (λ r. r.next + 1 < 2 ^ 64) self.old.ranks }
        requires accepted { All (λ p. p.accepted + 1 < 2 ^ 64) self.old.parts }
        requires fetched { All (λ p. p.fetched + 1 < 2 ^ 64) self.old.parts }
        requires legal { IsTrue (legal self.old entry.now) }
        ensures { OnOk result (self.new ≡ after self.old entry.now) }
    {
        match entry {
            Entry::Refused { server, id, .. } => {
                self.change(id.rank, RankChange::Declined(*server))
            }
            Entry::Accepted { server, id } => self.accept(*server, *id),
            Entry::Rejected { rank, .. } => self.end(*rank),
            Entry::Kept { server, batch } => self.hold(*server, *batch),
            Entry::Closed { batch, .. } => self.close(*batch),
            Entry::Freed { batch, .. } => {
                self.change_part(*batch, PartChange::Freed);
                Ok(())
            }
            Entry::Granted {
                server,
                rank,
                id,
                ..
            } => self.grant(*server, *rank, *id),
            Entry::Looked { server, rank, .. } => {
                self.change(*rank, RankChange::Declined(*server))
            }
            Entry::NoCurrent { rank, .. } => self.end(*rank),
            Entry::Fetched { rank, id, .. } => self.give(*rank, *id),
            Entry::CommonFetched { rank, batch, .. } => self.give_common(*rank, *batch),
            Entry::Promised { server, id, length } => self.promise_room(*server, *id, *length),
            Entry::Left { to, id, .. } => self.place(*id, UnitPlace::Travelling(*to)),
            Entry::Arrived { server, id } => self.arrive(*server, *id),
            Entry::Withdrawn { id, .. } => {
                self.withdraw(*id);
                Ok(())
            }
            Entry::Counted { rank, .. } => self.end(*rank),
            Entry::Exhausted => {
                self.exhausted = true;
                Ok(())
            }
            Entry::Over { rank, end, .. } => self.change(*rank, RankChange::Told(*end)),
            _ => self.follow_call(entry),
        }
    }

    /// Takes the step of this entry if it is one, and otherwise answers false and changes nothing (`step`). Each counter of the
    /// bag has room for one more, as it has after fewer than `2^64 - 2` steps (`HasRoom`). Its only error is `NoMemory`, and then
    /// the machine is of no use.
    pub fn apply(&mut self, entry: &Entry) -> Result<bool, NoMemory>
        requires { HasRoom (2 ^ 64 - 2) self.old }
        ensures { IfOk result (λ it. MatchBool it (step self.old entry.now ≡ Some self.new) ((step self.old entry.now ≡ None) × (self.new ≡ self.old))) }
    {
        if !self.in_turn(entry) {
            return Ok(false);
        }
        if !self.is_legal(entry) {
            return Ok(false);
        }
        self.follow(entry)?;
        Ok(true)
    }
}
