//! Inputs of cities, accepted and refused, and first tours.

use std::alloc::Global;
use std::test::Fail;
use tour_search::{CitiesFault, CitiesWhy, first_tour, read_cities};

const SQUARE: &str = "cities 4\n0 10 15 20\n10 0 35 25\n15 35 0 30\n20 25 30 0\n";

const COSTS: &[u32] = &[0, 10, 15, 20, 10, 0, 35, 25, 15, 35, 0, 30, 20, 25, 30, 0];

// Cities, and their first tour with its cost.
const TOURS: &[(&str, u64, &[u8])] = &[
    (SQUARE, 80, &[0, 1, 3, 2]),
    ("cities 3\n0 9 1\n1 0 9\n9 1 0", 3, &[0, 2, 1]),
    ("cities 1\r\n7\r\n", 0, &[0]),
];

// The first tour of these cities is this one, and costs this.
fn is_first(alloc: Global, text: &str, cost: u64, tour: &[u8]) -> Result<bool, Fail> {
    let cities = read_cities(alloc, text.as_bytes())?;
    let first = first_tour(alloc, &cities)?;
    Ok(first.cost == cost && first.cities.as_slice() == tour)
}

#[test]
fn reads_and_makes(rt: HostRuntime) -> Result<(), Fail> {
    let cities = read_cities(rt.alloc(), SQUARE.as_bytes())?;
    assert!(rt; cities.count() == 4 && cities.rows() == COSTS);
    for (text, cost, tour) in TOURS {
        assert!(rt; is_first(rt.alloc(), text, *cost, tour)?, "{text}");
    }
    Ok(())
}

fn refusal(rt: &HostRuntime, text: &[u8]) -> (u64, u8) {
    match read_cities(rt.alloc(), text) {
        Err(CitiesFault::Refused { line, why }) => (line, code(why)),
        Err(CitiesFault::Memory) => (0, 9),
        Ok(_) => (0, 0),
    }
}

fn code(why: CitiesWhy) -> u8 {
    match why {
        CitiesWhy::Long => 1,
        CitiesWhy::Cities => 2,
        CitiesWhy::Cost => 3,
        CitiesWhy::Extra => 4,
    }
}

// Texts of cities, and in which line each is refused, by which code; line 0 says that it is accepted.
const TEXTS: &[(&str, u64, u8)] = &[
    ("", 1, 2),
    ("cities 13", 1, 2),
    ("cities 0", 1, 2),
    ("cities 01\n7", 1, 2),
    ("cities  1\n7", 1, 2),
    ("cities 2\n0 1\n", 3, 3),
    ("cities 2\n0 1 \n0 1", 2, 3),
    ("cities 2\n0 1\n0 1000001", 3, 3),
    ("cities 1\n0\n\n", 3, 4),
    ("cities 1\n0\n\r", 3, 4),
    ("cities 1\n0\n", 0, 0),
];

#[test]
fn refuses(rt: HostRuntime) -> Result<(), Fail> {
    for (text, line, code) in TEXTS {
        assert!(rt; refusal(&rt, text.as_bytes()) == (*line, *code), "{text}");
    }
    Ok(())
}
