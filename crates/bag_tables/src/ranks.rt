//! The ranks.

ghost use Rattle.std.specs.Prelude.{◌≡◌, ◌<◌, ◌^◌, ◌+◌, All, None, Some, IfOk, OnOk, MatchOption, replicate, slice_get};
ghost use Rattle.std.specs.List.{list_all, list_any};
ghost use Rattle.bag_ledger.specs.Steps.{change_at, begun, ended, own_fetched};
ghost use Rattle.bag_ledger.specs.Bag.{fresh, is_asking, is_asking_or_finished};
ghost use Rattle.bag_tables.specs.Changes.{rank_changed};

use crate::changes::RankChange;
use crate::reading::{is_asking, is_asking_or_finished};
use adlb_unit::{CommonRef, NoMemory, Rank};
use bag_ledger::{RankState, Servers, Status};
use std::alloc::Global;
use std::marker::Model;

/// The ranks by number, seen as their list.
#[derive(Drop)]
pub struct Ranks {
    held: Vec<RankState>,
}

impl Model for Ranks {
    ghost use Rattle.std.specs.Prelude.{List};
    ghost use Rattle.bag_ledger.specs.declared.states.RankState.{RankState};

    ghost Value = { List RankState };

    ghost view = { λ r. r.held.items };
}

impl Ranks {
    /// The ranks at the start of a run, of this number. Its only error is `NoMemory`.
    pub fn new(alloc: Global, count: u32) -> Result<Ranks, NoMemory>
        ensures { IfOk result (λ ranks. ranks ≡ replicate count fresh) }
    {
        let held = fresh_ranks(alloc, count)?;
        Ok(Ranks { held })
    }

    /// The ranks by number.
    pub fn as_slice(&self) -> &[RankState]
        ensures { result.now ≡ self.now }
    {
        self.held.as_slice()
    }

    /// The rank of this number, if there is one.
    pub fn get(&self, rank: Rank) -> Option<&RankState>
        ensures { MatchOption result (slice_get self.now rank.0 ≡ None) (λ r. slice_get self.now rank.0 ≡ Some r.now) }
    {
        self.held.get(rank.0 as usize)
    }

    /// The rank of this number, if there is one, is changed. Its only error is `NoMemory`.
    pub fn change(&mut self, rank: Rank, change: RankChange) -> Result<(), NoMemory>
        requires { All (λ r. r.next + 1 < 2 ^ 64) self.old }
        ensures { OnOk result (self.new ≡ change_at (rank_changed change) rank.0 self.old) }
    {
        let place = rank.0 as usize;
        if place >= self.held.len() {
            return Ok(());
        }
        let r = &mut self.held[place];
        take(r, change)
    }

    /// Each rank asks or has finished.
    pub fn each_asks_or_finished(&self) -> bool
        ensures { result ≡ list_all (λ r. is_asking_or_finished r.status) self.now }
    {
        self.held.iter().all(|r| is_asking_or_finished(r))
    }

    /// Some rank asks.
    pub fn some_asks(&self) -> bool
        ensures { result ≡ list_any (λ r. is_asking r.status) self.now }
    {
        self.held.iter().any(|r| is_asking(r))
    }
}

fn begin(r: &mut RankState, status: Status)
    requires { r.old.next + 1 < 2 ^ 64 }
    ensures { r.new ≡ begun status r.old }
{
    r.status = status;
    r.next += 1;
}

fn end(r: &mut RankState)
    ensures { r.new ≡ ended r.old }
{
    r.status = Status::Running;
    r.declined.clear();
}

fn take_own(r: &mut RankState, common: Option<CommonRef>)
    ensures { r.new ≡ own_fetched common r.old }
{
    match common {
        None => end(r),
        Some(_) => {
            if let Status::Fetching { own, .. } = &mut r.status {
                *own = true;
            }
        }
    }
}

// The change of a rank.
fn take(r: &mut RankState, change: RankChange) -> Result<(), NoMemory>
    requires { r.old.next + 1 < 2 ^ 64 }
    ensures { OnOk result (r.new ≡ rank_changed change r.old) }
{
    match change {
        RankChange::Begins(status) => begin(r, status),
        RankChange::Puts(unit) => {
            let mut unit = unit;
            unit.common = r.batch;
            begin(r, Status::Putting { unit });
        }
        RankChange::Declined(server) => r.declined.push(server)?,
        RankChange::Ended => end(r),
        RankChange::GoesOn(batch) => {
            r.batch = batch;
            end(r);
        }
        RankChange::Told(told) => {
            r.end = Some(told);
            end(r);
        }
        RankChange::OwnCame(common) => take_own(r, common),
    }
    Ok(())
}

fn fresh_ranks(alloc: Global, count: u32) -> Result<Vec<RankState>, NoMemory>
    ensures { IfOk result (λ ranks. ranks.items ≡ replicate count fresh) }
{
    let mut ranks = Vec::new(alloc);
    for _place in 0..count {
        let fresh = RankState {
            status: Status::Running,
            declined: Servers::new(alloc),
            next: 0,
            batch: None,
            end: None,
        };
        if ranks.push(fresh).is_err() {
            return Err(NoMemory);
        }
    }
    Ok(ranks)
}
