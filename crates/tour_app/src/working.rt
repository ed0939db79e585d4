//! The work on a pair.

ghost use Rattle.std.specs.Prelude.{◌≡◌, ◌≤◌, Some, true, IfOk};
ghost use Rattle.tour_search.specs.Cities.{IsKnown};
ghost use Rattle.tour_app.specs.Bodies.{shared};
ghost use Rattle.tour_app.specs.Works.{answer_of as answer_to, answer_over, is_pair as is_pair_of, pair_tour};

use crate::starts::Start;
use crate::units::{Order, TourUnit};
use adlb_unit::{NoMemory, Payload};
use std::alloc::Global;
use tour_search::{Tour, search_from};

/// What the work on a pair makes, over these common bytes (`made_of`): its best tour, if that is better than the first. Its only error is
/// `NoMemory`.
pub(crate) fn work(
    alloc: Global,
    common: &[u8],
    second: u8,
    third: u8,
) -> Result<Option<TourUnit>, NoMemory>
    ensures { IfOk result (λ made. made ≡ answer_over (shared common.now) second third) }
{
    match Start::read(alloc, common)? {
        Some(start) => work_from(alloc, &start, second, third),
        None => Ok(None),
    }
}

// What the work on a pair makes, from this start. Its only error is `NoMemory`.
fn work_from(
    alloc: Global,
    start: &Start,
    second: u8,
    third: u8,
) -> Result<Option<TourUnit>, NoMemory>
    ensures { IfOk result (λ made. made ≡ answer_over (Some start.now) second third) }
{
    if !is_pair(start.cities().count(), second, third) {
        return Ok(None);
    }
    answer_of(alloc, start, second, third)
}

// Two different cities of these, neither of them city 0.
fn is_pair(count: u8, second: u8, third: u8) -> bool
    ensures { result ≡ is_pair_of count second third }
{
    (1 <= second && second < count) && (1 <= third && third < count) && second != third
}

// The answer of a pair. Its only error is `NoMemory`.
fn answer_of(
    alloc: Global,
    start: &Start,
    second: u8,
    third: u8,
) -> Result<Option<TourUnit>, NoMemory>
    requires pair { is_pair_of start.now.cities.count second third ≡ true }
    requires few { start.now.cities.count ≤ 12 }
    ensures { IfOk result (λ made. made ≡ answer_to start.now second third) }
{
    let best = best_of(alloc, start, second, third)?;
    if !start.is_beaten_by(&best) {
        return Ok(None);
    }
    let tour = Order::new(Payload::from_vec(best.cities));
    Ok(Some(TourUnit::Answer {
        cost: best.cost,
        tour,
    }))
}

// The best of the first tour and of those that begin with city 0 and a pair. Its only error is `NoMemory`.
fn best_of(alloc: Global, start: &Start, second: u8, third: u8) -> Result<Tour, NoMemory>
    requires { is_pair_of start.now.cities.count second third ≡ true }
    ensures known { IfOk result (IsKnown start.now.cities) }
    ensures best { IfOk result (λ t. t.cities.items ≡ pair_tour start.now second third) }
{
    let mut best = start.tour(alloc)?;
    let beginning = [0, second, third];
    search_from(alloc, start.cities(), beginning.as_slice(), &mut best)?;
    Ok(best)
}
