//! Least tours: worked rows, refused lines, and drawn cities beside a search of all orders.

use crate::draws::Draws;
use crate::rows::{Row, Shows, must_show, show};
use adlb_io::{RealThreads, Spawner};
use std::alloc::Global;
use std::fmt::Write;
use std::sync::Wait;
use std::test::Fail;
use std::thread::Threads;

/// Each way to run: one rank, four ranks over two servers, and servers that take no common part.
const WAYS: &[&str] = &[
    "tour --ranks 1 --servers 1",
    "tour --ranks 4 --servers 2",
    "tour --limit 64",
];

/// Four cities, and the least tour through them.
pub const SQUARE: &str = "cities 4\n0 10 15 20\n10 0 35 25\n15 35 0 30\n20 25 30 0\n";

pub const SQUARE_TOURED: &str = "cities 4\ncost 80\ntour 0 1 3 2\n";

const WORKED: &[Row] = &[
    (WAYS, &[SQUARE], Shows::Is(SQUARE_TOURED)),
    (
        WAYS,
        &["cities 4\n", "5 5 5 5\n5 5 5 5\n", "5 5 5 5\n5 5 5 5\n"],
        Shows::Is("cities 4\ncost 20\ntour 0 1 2 3\n"),
    ),
    (
        WAYS,
        &["cities 1\n7\n"],
        Shows::Is("cities 1\ncost 0\ntour 0\n"),
    ),
    // Lines may end with a carriage return, and the last without a line feed. The costs of staying are not used.
    (
        WAYS,
        &["cities 2\r\n", "9 1\r\n", "1000000 9"],
        Shows::Is("cities 2\ncost 1000001\ntour 0 1\n"),
    ),
    // The way round is cheap one way alone.
    (
        WAYS,
        &[
            "cities 5\n",
            "0 9 9 9 1\n1 0 9 9 9\n9 1 0 9 9\n9 9 1 0 9\n9 9 9 1 0\n",
        ],
        Shows::Is("cities 5\ncost 5\ntour 0 4 3 2 1\n"),
    ),
];

#[test]
fn writes_the_tour_of_each_worked_row(rt: HostRuntime) -> Result<(), Fail> {
    show(rt, rt.alloc(), WORKED)
}

const REFUSED: &[Row] = &[
    (WAYS, &[], Shows::Refused(1, "line 1: cities")),
    (WAYS, &["cities 13\n"], Shows::Refused(1, "line 1: cities")),
    (WAYS, &["cities 0\n"], Shows::Refused(1, "line 1: cities")),
    (
        WAYS,
        &["cities 01\n7\n"],
        Shows::Refused(1, "line 1: cities"),
    ),
    (
        WAYS,
        &["cities  1\n7\n"],
        Shows::Refused(1, "line 1: cities"),
    ),
    (
        WAYS,
        &["cities 2\n0 1\n"],
        Shows::Refused(1, "line 3: cost"),
    ),
    (
        WAYS,
        &["cities 2\n0 1 \n1 0\n"],
        Shows::Refused(1, "line 2: cost"),
    ),
    (
        WAYS,
        &["cities 2\n0 1000001\n1 0\n"],
        Shows::Refused(1, "line 2: cost"),
    ),
    (
        WAYS,
        &["cities 2\n0 1\n1 00\n"],
        Shows::Refused(1, "line 3: cost"),
    ),
    (
        WAYS,
        &["cities 1\n7\n\n"],
        Shows::Refused(1, "line 3: extra"),
    ),
    (
        WAYS,
        &["cities 1\n7\nx"],
        Shows::Refused(1, "line 3: extra"),
    ),
];

#[test]
fn refuses_the_first_line_that_is_wrong(rt: HostRuntime) -> Result<(), Fail> {
    show(rt, rt.alloc(), REFUSED)
}

/// How many tours nine cities have.
const ORDERS: u32 = 40_320;

/// Cities with what it costs to go from each to each, by rows.
#[derive(Drop)]
struct Map {
    count: usize,
    costs: Vec<u64>,
}

impl Map {
    // From 1 to 9 cities, drawn with costs below a bound that is drawn too, so that many cost the same. Nine are drawn less often than few.
    fn drawn(alloc: Global, draws: &mut Draws) -> Result<Map, Fail> {
        let count = match draws.below(20) {
            0 => 9,
            1 | 2 => 8,
            _ => draws.below(7) as usize + 1,
        };
        let bound = match draws.below(4) {
            0 => 2,
            1 => 4,
            2 => 100,
            _ => 1_000_001,
        };
        let mut costs = Vec::new(alloc);
        for _ in 0..count.saturating_mul(count) {
            costs.push(draws.below(bound) as u64)?;
        }
        Ok(Map { count, costs })
    }

    fn cost_of_way(&self, from: usize, to: usize) -> u64 {
        let place = from.saturating_mul(self.count).saturating_add(to);
        self.costs.get(place).copied().unwrap_or(0)
    }

    // What this tour costs; a tour of one city costs nothing.
    fn cost(&self, tour: &[usize]) -> u64 {
        let mut sum = 0_u64;
        let mut at = 0;
        for city in tour.iter().skip(1) {
            sum = sum.saturating_add(self.cost_of_way(at, *city));
            at = *city;
        }
        if at == 0 {
            return 0;
        }
        sum.saturating_add(self.cost_of_way(at, 0))
    }

    // The text of these cities, as an input.
    fn text(&self, alloc: Global) -> Result<String, Fail> {
        let mut text = format!(in alloc; "cities {}", self.count as u64)?;
        for (place, cost) in self.costs.iter().enumerate() {
            let before = if place % self.count.max(1) == 0 {
                "\n"
            } else {
                " "
            };
            write!(text, "{before}{cost}")?;
        }
        text.push_str("\n")?;
        Ok(text)
    }

    // The first of the cheapest tours, by going over all in the order of lists.
    fn best(&self, alloc: Global) -> Result<Vec<usize>, Fail> {
        let mut tour = first_tour(alloc, self.count)?;
        let mut best = tour.to_vec(alloc)?;
        self.improve(&mut best, &mut tour)?;
        Ok(best)
    }

    // The best tour becomes the first of the cheapest, of itself and of those that follow the other one.
    fn improve(&self, best: &mut Vec<usize>, tour: &mut [usize]) -> Result<(), Fail> {
        let mut least = self.cost(best);
        for _ in 0..ORDERS {
            if !go_on(tour) {
                break;
            }
            let cost = self.cost(tour);
            if cost < least {
                least = cost;
                best.clear();
                best.extend_from_slice(tour)?;
            }
        }
        Ok(())
    }

    // What is to be said of these cities.
    fn told(&self, alloc: Global) -> Result<String, Fail> {
        let tour = self.best(alloc)?;
        let mut text = String::new(alloc);
        self.tell(&mut text, &tour)?;
        Ok(text)
    }

    // Says of these cities that this is the least tour.
    fn tell(&self, text: &mut String, tour: &[usize]) -> Result<(), Fail> {
        let count = self.count as u64;
        write!(text, "cities {count}\ncost {}\ntour", self.cost(tour))?;
        for city in tour {
            write!(text, " {}", *city as u64)?;
        }
        text.push_str("\n")?;
        Ok(())
    }
}

// The first tour through so many cities, in the order of lists.
fn first_tour(alloc: Global, count: usize) -> Result<Vec<usize>, Fail> {
    let mut tour = Vec::new(alloc);
    for city in 0..count {
        tour.push(city)?;
    }
    Ok(tour)
}

// Makes the tour the next one in the order of lists, which begins with city 0 too. False: it is the last.
fn go_on(tour: &mut [usize]) -> bool {
    let Some(rise) = last_rise(tour) else {
        return false;
    };
    let before = rise.saturating_sub(1);
    let city = tour.get(before).copied().unwrap_or(0);
    let other = last_above(tour, rise, city);
    if before < tour.len() && other < tour.len() && rise < tour.len() {
        tour.swap(before, other);
        tour[rise..].reverse();
    }
    true
}

// The last place after the second city's at which the tour rises, if there is one.
fn last_rise(tour: &[usize]) -> Option<usize> {
    let mut rise = None;
    for place in 2..tour.len() {
        if tour[place - 1] < tour[place] {
            rise = Some(place);
        }
    }
    rise
}

// The last place, from this one on, at which a greater city stands.
fn last_above(tour: &[usize], from: usize, city: usize) -> usize {
    let mut last = from;
    for place in from..tour.len() {
        if tour[place] > city {
            last = place;
        }
    }
    last
}

// The words of a run with threads.
fn drawn_line(alloc: Global, draws: &mut Draws) -> Result<String, Fail> {
    let ranks = draws.below(6) as u64 + 1;
    let servers = draws.below(3) as u64 + 1;
    let limit = match draws.below(3) {
        0 => 64,
        1 => 400,
        _ => 0x400_0000,
    };
    Ok(format!(in alloc; "tour --ranks {ranks} --servers {servers} --limit {limit}")?)
}

// A run with these words tells the least tour through these cities, and keeps a ledger that is a legal run.
fn must_be_least<T: Spawner>(
    alloc: Global,
    threads: &mut T,
    map: &Map,
    line: &str,
) -> Result<(), Fail> {
    let text = map.text(alloc)?;
    let told = map.told(alloc)?;
    must_show(
        alloc,
        threads,
        line,
        text.as_str(),
        &Shows::Legal(told.as_str()),
    )
}

// Of the cities that are drawn from this seed least tours are told.
fn all_are_least<R: Threads + Wait + Send + Copy + 'static>(
    rt: R,
    alloc: Global,
    seed: u64,
) -> Result<(), Fail> {
    let mut threads = RealThreads::new(rt);
    let mut draws = Draws::new(seed);
    for _ in 0..250 {
        let map = Map::drawn(alloc, &mut draws)?;
        let line = drawn_line(alloc, &mut draws)?;
        must_be_least(alloc, &mut threads, &map, line.as_str())?;
    }
    Ok(())
}

#[test]
fn drawn_tours_are_least_in_the_first_part(rt: HostRuntime) -> Result<(), Fail> {
    all_are_least(rt, rt.alloc(), 11)
}

#[test]
fn drawn_tours_are_least_in_the_second_part(rt: HostRuntime) -> Result<(), Fail> {
    all_are_least(rt, rt.alloc(), 12)
}

#[test]
fn drawn_tours_are_least_in_the_third_part(rt: HostRuntime) -> Result<(), Fail> {
    all_are_least(rt, rt.alloc(), 13)
}

#[test]
fn drawn_tours_are_least_in_the_fourth_part(rt: HostRuntime) -> Result<(), Fail> {
    all_are_least(rt, rt.alloc(), 14)
}
