//! What is written of a run over cities.

ghost use Rattle.std.specs.Prelude.{IfOk};
ghost use Rattle.tour_app.specs.Found.{HoldLeast, all_found};
ghost use Rattle.run_command.specs.Kept.{HasRun, IsWorkedUp};
ghost use Rattle.tour_command.specs.Tours.{ArePrograms, FollowsTours, TellsLeast};
ghost use Rattle.tour_search.specs.Cities.{costs};

use adlb_unit::NoMemory;
use run_command::{Kept, Report};
use std::alloc::Global;
use tour_app::{TourOutcome, render_tour};
use tour_search::Cities;

/// The text of a least tour of these cities, by a run over them of which this is kept. All work of the run is done. Its only error is
/// `NoMemory`.
pub(crate) fn tell_run(
    alloc: Global,
    cities: &Cities,
    kept: &Kept<TourOutcome>,
) -> Result<Vec<u8>, NoMemory>
    requires { HasRun (λ ranks. ArePrograms) FollowsTours cities.now kept.now.report }
    ensures told { IfOk result (λ text. TellsLeast cities.now text.items) }
    ensures worked_up { IfOk result (λ text. IsWorkedUp kept.now.report) }
{
    text_of(alloc, cities, kept.report())
}

// The text of a least tour, which the outcomes hold. Its only error is `NoMemory`.
fn text_of(
    alloc: Global,
    cities: &Cities,
    report: &Report<TourOutcome>,
) -> Result<Vec<u8>, NoMemory>
    requires { HoldLeast cities.now.count (costs cities.now) (all_found report.now.outcomes) }
    ensures { IfOk result (λ text. TellsLeast cities.now text.items) }
{
    render_tour(alloc, cities, &report.outcomes)
}
