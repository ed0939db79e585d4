//! The tour program of a rank.

ghost use Rattle.std.specs.Prelude.{◌≡◌, ◌≤◌, ◌∷◌, [], ◌^◌, ℕ, List, Option, None, Some, true, false, length, IfOk, OnOk};
ghost use Rattle.work_law.specs.Books.{Begin, End, bytes_on};
ghost use Rattle.tour_app.specs.Follows.{Follows, IsUnderWay};
ghost use Rattle.tour_app.specs.Working.{CanDo, Does, HasPut, IsGoing, IsOnWay, IsReady, IsStopped, Keeps, Passes};
ghost use Rattle.tour_app.specs.Works.{known, pairs, tasks};

use crate::calls::{begin, put, take};
use crate::desk::{Desk, pairs_of};
use crate::outcomes::TourOutcome;
use crate::starts::Start;
use adlb_rank::{Rank, Reply, Taken};
use adlb_unit::{NoMemory, Payload, Rank as RankName, Trouble, or_no_memory};
use rank_client::{Adlb, RankProgram};
use std::alloc::Global;
use std::collections::VecDeque;

/// The program of a rank. If it has four cities or more, it begins a batch whose common part is the costs and the
/// first tour, and puts each pair of cities in it. It works all pairs itself if no server keeps the common part. Then
/// it takes units until it is told an end: it works pairs, and keeps the tours that come to it.
#[derive(Drop)]
pub struct TourProgram {
    alloc: Global,
    start: Option<Start>,
}

impl TourProgram {
    /// The program of a rank. Rank 0 has the cities and a first tour, which is a least one if there are fewer than four cities; no other
    /// rank has any.
    pub fn new(alloc: Global, start: Option<Start>) -> TourProgram
        ensures { result.start ≡ start }
    {
        TourProgram { alloc, start }
    }

    // The desk at the start: the first tour stays. Its only error is `NoMemory`.
    fn desk(&self) -> Result<Desk, NoMemory>
        ensures none { IfOk result (λ desk. desk.waiting.items ≡ []) }
        ensures going { IfOk result (λ desk. IsGoing self.now [] desk (tasks self.now.start) None) }
    {
        let found = known_tours(self.alloc, &self.start)?;
        Ok(Desk {
            waiting: VecDeque::new(self.alloc),
            found,
        })
    }

    // Puts all that waits, over these common bytes of the batch that goes on. False: an end was told.
    fn put_all<R: Rank>(
        &self,
        link: &mut R,
        desk: &mut Desk,
        common: &[u8],
    ) -> Result<bool, Trouble>
        requires going { CanDo self.now (R.link link.old).said desk.old common.now }
        requires ready { IsReady (R.link link.old) }
        ensures told { (on : Option (List ℕ)) → bytes_on on ≡ common.now →
            Does self.now (R.link link.old) desk.old on (R.link link.new) desk.new on result }
        ensures so_far { IsOnWay self.now (R.link link.new) }
        ensures kept { Keeps (R.link link.old) (R.link link.new) (R.link link.old).batch result }
        ensures more { length (R.link link.old).said ≤ length (R.link link.new).said }
    {
        'puts: while let Some(unit) = desk.waiting.pop_front() {
            match put(self.alloc, link, &unit)? {
                Reply::Accepted => {}
                Reply::Rejected => {
                    let Ok(()) = desk.receive(self.alloc, common, unit) else {
                        return Err(Trouble::Memory);
                    };
                }
                Reply::Ended(_) => {
                    let Ok(()) = desk.put_back(unit) else {
                        return Err(Trouble::Memory);
                    };
                    return Ok(false);
                }
            }
        }
        Ok(true)
    }

    // Puts all that waits in the batch of these common bytes that goes on, and ends it. False: an end was told.
    fn put_kept<R: Rank>(
        &self,
        link: &mut R,
        desk: &mut Desk,
        common: &[u8],
    ) -> Result<bool, Trouble>
        requires going { IsGoing self.now (R.link link.old).said desk.old (End ∷ []) (Some common.now) }
        requires ready { IsReady (R.link link.old) }
        requires open { (R.link link.old).batch ≡ true }
        ensures told { IfOk result (λ all. Passes self.now (R.link link.new).said desk.new [] None all) }
        ensures so_far { IsOnWay self.now (R.link link.new) }
        ensures kept { Keeps (R.link link.old) (R.link link.new) false result }
    {
        let all = self.put_all(link, desk, common)?;
        match link.end_batch() {
            Ok(()) => Ok(all),
            Err(trouble) => Err(trouble),
        }
    }

    // Begins a batch of these common bytes and puts the pairs of `count` cities in it, or works them if no server
    // keeps the bytes. False: an end was told.
    fn put_batch<R: Rank>(
        &self,
        link: &mut R,
        desk: &mut Desk,
        common: &Payload,
        count: u8,
    ) -> Result<bool, Trouble>
        requires some { 1 ≤ count }
        requires none { desk.old.waiting.items ≡ [] }
        requires going { IsGoing self.now (R.link link.old).said desk.old (Begin common.now (pairs count) ∷ []) None }
        requires few { length common.now ≤ 2 ^ 20 }
        requires ready { IsReady (R.link link.old) }
        requires closed { (R.link link.old).batch ≡ false }
        ensures told { IfOk result (λ all. Passes self.now (R.link link.new).said desk.new [] None all) }
        ensures so_far { IsOnWay self.now (R.link link.new) }
        ensures kept { Keeps (R.link link.old) (R.link link.new) false result }
    {
        let Ok(pairs) = pairs_of(self.alloc, count) else {
            return Err(Trouble::Memory);
        };
        match begin(self.alloc, link, common)? {
            Reply::Accepted => {
                desk.waiting = pairs;
                self.put_kept(link, desk, common.bytes())
            }
            Reply::Rejected => {
                let Ok(()) = desk.take_over(self.alloc, common.bytes(), pairs) else {
                    return Err(Trouble::Memory);
                };
                self.put_all(link, desk, b"".as_slice())
            }
            Reply::Ended(_) => {
                desk.waiting = pairs;
                Ok(false)
            }
        }
    }

    // Does what its cities ask, if it has any. False: an end was told.
    fn put_own<R: Rank>(&self, link: &mut R, desk: &mut Desk) -> Result<bool, Trouble>
        requires none { desk.old.waiting.items ≡ [] }
        requires going { IsGoing self.now (R.link link.old).said desk.old (tasks self.now.start) None }
        requires ready { IsReady (R.link link.old) }
        requires closed { (R.link link.old).batch ≡ false }
        ensures told { IfOk result (λ all. Passes self.now (R.link link.new).said desk.new [] None all) }
        ensures so_far { IsOnWay self.now (R.link link.new) }
        ensures kept { Keeps (R.link link.old) (R.link link.new) false result }
    {
        match &self.start {
            Some(start) => self.put_start(link, desk, start),
            None => Ok(true),
        }
    }

    // Puts the pairs of its cities, unless they are few. False: an end was told.
    fn put_start<R: Rank>(
        &self,
        link: &mut R,
        desk: &mut Desk,
        start: &Start,
    ) -> Result<bool, Trouble>
        requires start { self.now.start ≡ Some start.now }
        requires none { desk.old.waiting.items ≡ [] }
        requires going { IsGoing self.now (R.link link.old).said desk.old (tasks self.now.start) None }
        requires ready { IsReady (R.link link.old) }
        requires closed { (R.link link.old).batch ≡ false }
        ensures told { IfOk result (λ all. Passes self.now (R.link link.new).said desk.new [] None all) }
        ensures so_far { IsOnWay self.now (R.link link.new) }
        ensures kept { Keeps (R.link link.old) (R.link link.new) false result }
    {
        if !start.has_many() {
            return Ok(true);
        }
        let Ok(common) = start.common(self.alloc) else {
            return Err(Trouble::Memory);
        };
        self.put_batch(link, desk, &common, start.cities().count())
    }

    // Takes units, works, and puts what was made, until an end is told.
    fn take_all<R: Rank>(&self, link: &mut R, desk: &mut Desk) -> Result<(), Trouble>
        requires going { HasPut self.now (R.link link.old).said desk.old [] None }
        requires ready { IsReady (R.link link.old) }
        ensures stopped { OnOk result (IsStopped self.now (R.link link.new).said desk.new None) }
        ensures so_far { IsOnWay self.now (R.link link.new) }
        ensures kept { Keeps (R.link link.old) (R.link link.new) (R.link link.old).batch result }
    {
        'rounds: loop {
            match take(link)? {
                Taken::Unit(note, body) => {
                    let Ok(()) = desk.bring(self.alloc, &note, &body) else {
                        return Err(Trouble::Memory);
                    };
                    if !self.put_all(link, desk, b"".as_slice())? {
                        return Ok(());
                    }
                }
                Taken::NoneNow => unreachable!(),
                Taken::Ended(_) => return Ok(()),
            }
        }
    }

    // Does what its cities ask, and takes units until an end is told.
    fn work<R: Rank>(&self, link: &mut R, desk: &mut Desk) -> Result<(), Trouble>
        requires none { desk.old.waiting.items ≡ [] }
        requires going { IsGoing self.now (R.link link.old).said desk.old (tasks self.now.start) None }
        requires ready { IsReady (R.link link.old) }
        requires closed { (R.link link.old).batch ≡ false }
        ensures stopped { OnOk result (IsStopped self.now (R.link link.new).said desk.new None) }
        ensures so_far { IsOnWay self.now (R.link link.new) }
        ensures kept { Keeps (R.link link.old) (R.link link.new) false result }
    {
        if !self.put_own(link, desk)? {
            return Ok(());
        }
        self.take_all(link, desk)
    }
}

impl RankProgram for TourProgram {
    type Outcome = TourOutcome;

    ghost fits = { λ p ranks. Unit {0} };

    ghost so_far = { λ p rank said begun. IsUnderWay p said begun };

    ghost follows = { λ p rank said outcome. Follows p said outcome };

    fn run<A: Adlb>(&self, rank: RankName, link: &mut A) -> Result<TourOutcome, Trouble> {
        let Ok(mut desk) = self.desk() else {
            return Err(Trouble::Memory);
        };
        self.work(link, &mut desk)?;
        let Ok(outcome) = desk.outcome() else {
            return Err(Trouble::Memory);
        };
        Ok(outcome)
    }
}

// The tour that a rank has at first, with its cost, if it has one. Its only error is `NoMemory`.
fn known_tours(alloc: Global, start: &Option<Start>) -> Result<Vec<(u64, Payload)>, NoMemory>
    ensures { IfOk result (λ found. found.items ≡ known start.now) }
{
    match start {
        Some(start) => {
            let order = Payload::copy(alloc, start.order())?;
            let mut found = Vec::new(alloc);
            or_no_memory(found.push((start.cost(), order)))?;
            Ok(found)
        }
        None => Ok(Vec::new(alloc)),
    }
}
