//! Runs over cities, as a command.

ghost use Rattle.std.specs.Prelude.{◌≡◌, ◌≤◌, ◌<◌, ◌^◌, [], IfOk, OnOk, IfErr, length, vec_capacity};
ghost use Rattle.least_law.specs.Joined.{StartsWell};
ghost use Rattle.run_command.specs.Reading.{RefusesBy};
ghost use Rattle.tour_command.specs.Tours.{ArePrograms, HasCities, RefusesLine, TellsLeast};

use crate::telling::tell_run;
use adlb_unit::NoMemory;
use run_command::{Command, Kept, ReadFault};
use std::alloc::Global;
use tour_app::{Start, TourOutcome, TourProgram};
use tour_search::{Cities, CitiesFault, CitiesWhy, first_tour, read_cities};

/// A run over the cities of an input.
#[derive(Clone, Copy)]
pub struct Tours {}

impl Command for Tours {
    type Asked = Cities;

    type Why = CitiesWhy;

    type Program = TourProgram;

    ghost asks = { λ tours bytes cities. HasCities bytes cities };

    ghost refuses = { λ tours bytes line why. RefusesLine bytes line why };

    ghost are_programs = { λ tours ranks cities programs. ArePrograms cities programs };

    ghost tells = { λ tours cities kept told. TellsLeast cities told };

    ghost may_take = { λ tours cities ranks many. Unit {0} };

    fn read(&self, alloc: Global, bytes: &[u8]) -> Result<Cities, ReadFault<CitiesWhy>> {
        read_tours(alloc, bytes)
    }

    fn fill(
        &self,
        alloc: Global,
        programs: &mut Vec<TourProgram>,
        ranks: u32,
        asked: &Cities,
    ) -> Result<(), NoMemory> {
        fill(alloc, programs, ranks, asked)
    }

    fn tell(
        &self,
        alloc: Global,
        asked: &Cities,
        kept: &Kept<TourOutcome>,
    ) -> Result<Vec<u8>, NoMemory> {
        tell_run(alloc, asked, kept)
    }

    ghost takes = { λ tours cities ranks many begun. tt };
}

// The cities of an input of these bytes.
fn read_tours(alloc: Global, bytes: &[u8]) -> Result<Cities, ReadFault<CitiesWhy>>
    ensures asked { IfOk result (HasCities bytes.now) }
    ensures refused { IfErr result (RefusesBy (RefusesLine bytes.now)) }
{
    match read_cities(alloc, bytes) {
        Ok(cities) => Ok(cities),
        Err(CitiesFault::Refused { line, why }) => Err(ReadFault::Refused { line, why }),
        Err(CitiesFault::Memory) => Err(ReadFault::Memory),
    }
}

// Adds the programs of the ranks to an empty list: the first has the cities. Its only error is `NoMemory`.
fn fill(
    alloc: Global,
    programs: &mut Vec<TourProgram>,
    ranks: u32,
    cities: &Cities,
) -> Result<(), NoMemory>
    requires some { 0 < ranks }
    requires empty { programs.old.items ≡ [] }
    requires room { ranks ≤ vec_capacity programs.old }
    ensures all { OnOk result (length programs.new.items ≡ ranks) }
    ensures programs { OnOk result (ArePrograms cities.now programs.new.items) }
{
    let start = start_of(alloc, cities)?;
    programs.push_reserved(TourProgram::new(alloc, Some(start)));
    for _rank in 1..ranks {
        programs.push_reserved(TourProgram::new(alloc, None));
    }
    Ok(())
}

// The cities, and a tour to begin with. Its only error is `NoMemory`.
fn start_of(alloc: Global, cities: &Cities) -> Result<Start, NoMemory>
    ensures cities { IfOk result (λ start. start.cities ≡ cities.now) }
    ensures well { IfOk result StartsWell }
{
    let first = first_tour(alloc, cities)?;
    let cities = cities.twin(alloc)?;
    Ok(Start::new(cities, first))
}
