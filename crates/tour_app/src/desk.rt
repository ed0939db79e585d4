//! What a rank has while it works: the units that it is still to put, and the tours that stay with it.

ghost use Rattle.std.specs.Prelude.{◌≡◌, ◌≤◌, ◌++◌, ◌∷◌, [], IfOk, OnOk, flat_map, length, option_to_list};
ghost use Rattle.adlb_unit.specs.Totals.{common_length, total_of};
ghost use Rattle.work_law.specs.Work.{arrival, common_bytes, fetched_unit, made_by};
ghost use Rattle.tour_app.specs.Desk.{Brings, Receives, TakesOver};
ghost use Rattle.tour_app.specs.Works.{found_in, made_of, pairs, pairs_among, pairs_with, tours};

use crate::outcomes::TourOutcome;
use crate::units::TourUnit;
use crate::working::work;
use adlb_unit::{NoMemory, Payload, UnitNote, or_no_memory};
use bag_ledger::Body;
use std::alloc::Global;
use std::collections::VecDeque;

/// The units that wait to be put, in order, and the tours that stay with the rank, with their costs.
#[derive(Drop)]
pub struct Desk {
    pub waiting: VecDeque<TourUnit>,
    pub found: Vec<(u64, Payload)>,
}

impl Desk {
    /// A unit comes to the rank (`Receives`): a pair is worked over these common bytes, and a tour stays. Its only error is `NoMemory`.
    pub(crate) fn receive(
        &mut self,
        alloc: Global,
        common: &[u8],
        unit: TourUnit,
    ) -> Result<(), NoMemory>
        ensures { OnOk result (Receives (arrival tours common.now unit) self.old self.new) }
    {
        let made = self.take_in(alloc, common, unit)?;
        put_front(&mut self.waiting, made)?;
        Ok(())
    }

    /// A fetch of a unit of this note comes (`Brings`). A unit that has not the form of its type is dropped. Its only error is `NoMemory`.
    pub(crate) fn bring(
        &mut self,
        alloc: Global,
        note: &UnitNote,
        body: &Body,
    ) -> Result<(), NoMemory>
        requires { length body.now ≡ total_of note.now }
        ensures { OnOk result (Brings (common_bytes note.now.length body.now) (fetched_unit tours note.now body.now) self.old self.new) }
    {
        let mut room = Vec::new(alloc);
        let parts = body.parted(common_count(note), &mut room)?;
        let unit = TourUnit::read(alloc, note.kind, note.answer, parts.1)?;
        self.receive_if(alloc, parts.0, unit)
    }

    // A unit comes to the rank, if there is one. Its only error is `NoMemory`.
    fn receive_if(
        &mut self,
        alloc: Global,
        common: &[u8],
        unit: Option<TourUnit>,
    ) -> Result<(), NoMemory>
        ensures { OnOk result (Brings common.now unit self.old self.new) }
    {
        match unit {
            Some(unit) => self.receive(alloc, common, unit),
            None => Ok(()),
        }
    }

    /// The units of a batch that no server takes come to the rank (`TakesOver`). Its only error is `NoMemory`.
    pub(crate) fn take_over(
        &mut self,
        alloc: Global,
        common: &[u8],
        mut units: VecDeque<TourUnit>,
    ) -> Result<(), NoMemory>
        ensures { OnOk result (TakesOver common.now units.items self.old self.new) }
    {
        'units: while let Some(unit) = units.pop_front() {
            self.receive_last(alloc, common, unit)?;
        }
        Ok(())
    }

    // A unit comes to the rank, and what the work on it makes waits after all else. Its only error is `NoMemory`.
    fn receive_last(&mut self, alloc: Global, common: &[u8], unit: TourUnit) -> Result<(), NoMemory>
        ensures waiting { OnOk result (self.new.waiting.items ≡
            self.old.waiting.items ++ made_by tours (arrival tours common.now unit)) }
        ensures found { OnOk result (self.new.found.items ≡ self.old.found.items ++ found_in unit) }
    {
        let made = self.take_in(alloc, common, unit)?;
        put_behind(&mut self.waiting, made)?;
        Ok(())
    }

    /// The unit waits before all else. Its only error is `NoMemory`.
    pub(crate) fn put_back(&mut self, unit: TourUnit) -> Result<(), NoMemory>
        ensures waiting { OnOk result (self.new.waiting.items ≡ unit ∷ self.old.waiting.items) }
        ensures found { self.new.found ≡ self.old.found }
    {
        or_no_memory(self.waiting.push_front(unit))
    }

    /// What the rank has at its end: the tours that stay with it, and those that wait still. Its only error is `NoMemory`.
    pub(crate) fn outcome(self) -> Result<TourOutcome, NoMemory>
        ensures { IfOk result (λ outcome. outcome.found.items ≡ self.found.items ++ flat_map found_in self.waiting.items) }
    {
        let Desk {
            mut waiting,
            mut found,
        } = self;
        'left: while let Some(unit) = waiting.pop_front() {
            keep(&mut found, unit)?;
        }
        Ok(TourOutcome { found })
    }

    // A tour stays; what the work on a pair makes is given. Its only error is `NoMemory`.
    fn take_in(
        &mut self,
        alloc: Global,
        common: &[u8],
        unit: TourUnit,
    ) -> Result<Option<TourUnit>, NoMemory>
        ensures made { IfOk result (λ made. made ≡ made_of common.now unit) }
        ensures found { OnOk result (self.new.found.items ≡ self.old.found.items ++ found_in unit) }
        ensures waiting { self.new.waiting ≡ self.old.waiting }
    {
        match unit {
            TourUnit::Pair { second, third } => work(alloc, common, second, third),
            TourUnit::Answer { cost, tour } => {
                or_no_memory(self.found.push((cost, tour.payload())))?;
                Ok(None)
            }
        }
    }
}

// What was made waits before all else, if there is something. Its only error is `NoMemory`.
fn put_front(waiting: &mut VecDeque<TourUnit>, made: Option<TourUnit>) -> Result<(), NoMemory>
    ensures { OnOk result (waiting.new.items ≡ option_to_list made ++ waiting.old.items) }
{
    match made {
        Some(unit) => or_no_memory(waiting.push_front(unit)),
        None => Ok(()),
    }
}

// What was made, if anything, waits after all else. Its only error is `NoMemory`.
fn put_behind(waiting: &mut VecDeque<TourUnit>, made: Option<TourUnit>) -> Result<(), NoMemory>
    ensures { OnOk result (waiting.new.items ≡ waiting.old.items ++ option_to_list made) }
{
    match made {
        Some(unit) => or_no_memory(waiting.push_back(unit)),
        None => Ok(()),
    }
}

// A tour stays. Its only error is `NoMemory`.
fn keep(found: &mut Vec<(u64, Payload)>, unit: TourUnit) -> Result<(), NoMemory>
    ensures { OnOk result (found.new.items ≡ found.old.items ++ found_in unit) }
{
    match unit {
        TourUnit::Pair { .. } => Ok(()),
        TourUnit::Answer { cost, tour } => or_no_memory(found.push((cost, tour.payload()))),
    }
}

// How many bytes the common part has.
fn common_count(note: &UnitNote) -> usize
    ensures { result ≡ common_length note.now.common }
{
    match note.common {
        Some(part) => part.length as usize,
        None => 0,
    }
}

/// The pairs of `count` cities, in order. Its only error is `NoMemory`.
pub(crate) fn pairs_of(alloc: Global, count: u8) -> Result<VecDeque<TourUnit>, NoMemory>
    requires { 1 ≤ count }
    ensures { IfOk result (λ units. units.items ≡ pairs count) }
{
    let mut units = VecDeque::new(alloc);
    for second in 1..count {
        append_pairs(&mut units, count, second)?;
    }
    Ok(units)
}

// Appends the pairs with this second city. Its only error is `NoMemory`.
fn append_pairs(units: &mut VecDeque<TourUnit>, count: u8, second: u8) -> Result<(), NoMemory>
    requires { 1 ≤ count }
    ensures { OnOk result (units.new.items ≡ units.old.items ++ pairs_with count second) }
{
    for third in 1..count {
        append_pair(units, second, third)?;
    }
    Ok(())
}

// Appends the pair of two cities, if they are different. Its only error is `NoMemory`.
fn append_pair(units: &mut VecDeque<TourUnit>, second: u8, third: u8) -> Result<(), NoMemory>
    ensures { OnOk result (units.new.items ≡ units.old.items ++ pairs_among second (third ∷ [])) }
{
    if third == second {
        return Ok(());
    }
    or_no_memory(units.push_back(TourUnit::Pair { second, third }))?;
    Ok(())
}
