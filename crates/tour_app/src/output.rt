//! What is written of a run over cities.

ghost use Rattle.std.specs.Prelude.{◌≡◌, ◌++◌, ℕ, List, None, Some, IfOk, OnOk};
ghost use Rattle.tour_law.specs.Tours.{IsLeast, cost};
ghost use Rattle.tour_search.specs.Cities.{costs};
ghost use Rattle.tour_app.specs.Found.{HoldLeast, all_found, best_from, better, seen};
ghost use Rattle.tour_app.specs.Output.{cities_text, tour_text};

use crate::bodies::append;
use crate::outcomes::TourOutcome;
use adlb_unit::{NoMemory, Payload, or_no_memory};
use itoa::Buffer;
use std::alloc::Global;
use tour_search::{Cities, Tour};

/// The text of the best tour of the outcomes, which hold a least one (`tour_text`). Its only error is `NoMemory`.
pub fn render_tour(
    alloc: Global,
    cities: &Cities,
    outcomes: &[TourOutcome],
) -> Result<Vec<u8>, NoMemory>
    requires { HoldLeast cities.now.count (costs cities.now) (all_found outcomes.now) }
    ensures { IfOk result (λ text. (tour : List ℕ) × IsLeast cities.now.count (costs cities.now) tour
        × (text.items ≡ tour_text cities.now.count (cost (costs cities.now) tour) tour)) }
{
    let Some(best) = best_of(alloc, outcomes)? else {
        unreachable!()
    };
    text_of(alloc, cities.count(), best.cost, &best.cities)
}

// The best of the tours: the cheapest, and the first in order of these, if there are tours. Its only error is `NoMemory`.
fn best_of(alloc: Global, outcomes: &[TourOutcome]) -> Result<Option<Tour>, NoMemory>
    ensures { IfOk result (λ best. seen best ≡ best_from None (all_found outcomes.now)) }
{
    let mut best = None;
    for outcome in outcomes {
        best = best_in(alloc, best, &outcome.found)?;
    }
    Ok(best)
}

// The best of these tours and of what it was. Its only error is `NoMemory`.
fn best_in(
    alloc: Global,
    known: Option<Tour>,
    found: &[(u64, Payload)],
) -> Result<Option<Tour>, NoMemory>
    ensures { IfOk result (λ best. seen best ≡ best_from (seen known) found.now) }
{
    let mut best = known;
    for tour in found {
        best = better_of(alloc, best, tour.0, tour.1.bytes())?;
    }
    Ok(best)
}

// The better of two tours: the cheaper, or as cheap the one before the other. Its only error is `NoMemory`.
fn better_of(
    alloc: Global,
    known: Option<Tour>,
    cost: u64,
    tour: &[u8],
) -> Result<Option<Tour>, NoMemory>
    ensures { IfOk result (λ best. seen best ≡ better (seen known) (record { 0 = cost; 1 = tour.now })) }
{
    match known {
        Some(known) => {
            if !known.is_beaten_by(cost, tour) {
                return Ok(Some(known));
            }
            copy_of(alloc, cost, tour)
        }
        None => copy_of(alloc, cost, tour),
    }
}

// A tour of this cost. Its only error is `NoMemory`.
fn copy_of(alloc: Global, cost: u64, tour: &[u8]) -> Result<Option<Tour>, NoMemory>
    ensures { IfOk result (λ best. seen best ≡ Some (record { 0 = cost; 1 = tour.now })) }
{
    let cities = or_no_memory(Vec::from_slice(alloc, tour))?;
    Ok(Some(Tour { cost, cities }))
}

// The text of a tour (`tour_text`). Its only error is `NoMemory`.
fn text_of(alloc: Global, count: u8, cost: u64, tour: &[u8]) -> Result<Vec<u8>, NoMemory>
    ensures { IfOk result (λ text. text.items ≡ tour_text count cost tour.now) }
{
    let mut text = Vec::new(alloc);
    append(&mut text, b"cities ")?;
    append(&mut text, Buffer::new().format(count).as_bytes())?;
    append(&mut text, b"\ncost ")?;
    append(&mut text, Buffer::new().format(cost).as_bytes())?;
    append(&mut text, b"\ntour")?;
    append_cities(&mut text, tour)?;
    append(&mut text, b"\n")?;
    Ok(text)
}

// Appends each city after one space. Its only error is `NoMemory`.
fn append_cities(text: &mut Vec<u8>, tour: &[u8]) -> Result<(), NoMemory>
    ensures { OnOk result (text.new.items ≡ text.old.items ++ cities_text tour.now) }
{
    for city in tour {
        append(text, b" ")?;
        append(text, Buffer::new().format(*city).as_bytes())?;
    }
    Ok(())
}
