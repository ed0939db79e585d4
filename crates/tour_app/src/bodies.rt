//! The bytes of a common part.

ghost use Rattle.std.specs.Prelude.{◌≡◌, ◌≤◌, ◌*◌, ◌^◌, ◌++◌, nat_le, true, IfOk, OnOk, length};
ghost use Rattle.std.specs.List.{list_all};
ghost use Rattle.std.specs.Int.{from_be_bytes, w32};
ghost use Rattle.tour_law.specs.Tours.{IsTour};
ghost use Rattle.tour_search.specs.Cities.{AreCities};
ghost use Rattle.tour_app.specs.Bodies.{behind_words, common_part, is_sized as is_sized_for, shared, start_if, words, words_in};
ghost use Rattle.tour_app.specs.Starts.{is_whole as is_whole_for};

use crate::starts::{Start, is_tour};
use adlb_unit::{NoMemory, Payload, or_no_memory};
use std::alloc::Global;
use tour_search::{Cities, Tour, cost_of};

/// The most cities.
const MOST_CITIES: u8 = 12;

/// The greatest cost.
const MOST_COST: u32 = 1_000_000;

impl Start {
    /// The common part of these cities and the tour (`common_part`). Its only error is `NoMemory`.
    pub(crate) fn common(&self, alloc: Global) -> Result<Payload, NoMemory>
        ensures common { IfOk result (λ p. p ≡ common_part self.now) }
        ensures few { IfOk result (λ p. length p ≤ 2 ^ 20) }
    {
        let mut bytes = Vec::new(alloc);
        or_no_memory(bytes.push(self.cities().count()))?;
        append_words(&mut bytes, self.cities().rows())?;
        append(&mut bytes, self.order())?;
        Payload::from_vec(bytes).share(alloc)
    }

    /// What a common part says, if it has the form of one (`shared`). Its only error is `NoMemory`.
    pub(crate) fn read(alloc: Global, bytes: &[u8]) -> Result<Option<Start>, NoMemory>
        ensures { IfOk result (λ start. start ≡ shared bytes.now) }
    {
        if bytes.is_empty() {
            return Ok(None);
        }
        let count = bytes[0];
        let rest = &bytes[1..];
        if !is_sized(count, rest) {
            return Ok(None);
        }
        read_sized(alloc, count, rest)
    }
}

// There are from 1 to 12 cities, and enough bytes for their costs.
fn is_sized(count: u8, bytes: &[u8]) -> bool
    ensures { result ≡ is_sized_for count bytes.now }
{
    (1 <= count && count <= MOST_CITIES) && 4 * (count as usize * count as usize) <= bytes.len()
}

// What the bytes after the number of cities say. Its only error is `NoMemory`.
fn read_sized(alloc: Global, count: u8, bytes: &[u8]) -> Result<Option<Start>, NoMemory>
    requires { is_sized_for count bytes.now ≡ true }
    ensures { IfOk result (λ start. start ≡ start_if count bytes.now) }
{
    let cells = count as usize * count as usize;
    let mut rows = Vec::new(alloc);
    let tour = read_words(cells, bytes, &mut rows)?;
    if !is_whole(count, &rows, tour) {
        return Ok(None);
    }
    let start = whole_start(alloc, count, rows, tour)?;
    Ok(Some(start))
}

// Cities of these costs, and this tour. Its only error is `NoMemory`.
fn whole_start(alloc: Global, count: u8, rows: Vec<u32>, tour: &[u8]) -> Result<Start, NoMemory>
    requires cities { AreCities (record { count = count; rows = rows.items }) }
    requires tour { IsTour count tour.now }
    ensures { IfOk result (λ start. start ≡ record { cities = record { count = count; rows = rows.items }; first = tour.now }) }
{
    let cities = Cities::new(count, rows);
    let cost = cost_of(&cities, tour);
    let order = or_no_memory(Vec::from_slice(alloc, tour))?;
    let first = Tour {
        cost,
        cities: order,
    };
    Ok(Start::new(cities, first))
}

// No cost is too high, and the list is a tour.
fn is_whole(count: u8, rows: &[u32], tour: &[u8]) -> bool
    ensures { result ≡ is_whole_for count rows.now tour.now }
{
    are_low(rows) && is_tour(count, tour)
}

// Appends the numbers. Its only error is `NoMemory`.
fn append_words(bytes: &mut Vec<u8>, numbers: &[u32]) -> Result<(), NoMemory>
    ensures { OnOk result (bytes.new.items ≡ bytes.old.items ++ words numbers.now) }
{
    for number in numbers {
        append(bytes, &number.to_be_bytes())?;
    }
    Ok(())
}

// Appends the piece. Its only error is `NoMemory`.
pub(crate) fn append(bytes: &mut Vec<u8>, piece: &[u8]) -> Result<(), NoMemory>
    ensures { OnOk result (bytes.new.items ≡ bytes.old.items ++ piece.now) }
{
    or_no_memory(bytes.extend_from_slice(piece))
}

// Appends `count` numbers, and gives the bytes after them.
fn read_words<'a>(count: usize, bytes: &'a [u8], rows: &mut Vec<u32>) -> Result<&'a [u8], NoMemory>
    requires few { count ≤ 144 }
    requires enough { 4 * count ≤ length bytes.now }
    ensures words { OnOk result (rows.new.items ≡ rows.old.items ++ words_in count bytes.now) }
    ensures behind { IfOk result (λ rest. rest.now ≡ behind_words count bytes.now) }
{
    let mut rest = bytes;
    for _word in 0..count {
        let (word, behind) = rest.split_at(4);
        or_no_memory(rows.push(number_of(word)))?;
        rest = behind;
    }
    Ok(rest)
}

// The number of four bytes.
fn number_of(word: &[u8]) -> u32
    requires { length word.now ≡ 4 }
    ensures { result ≡ from_be_bytes w32 word.now }
{
    let mut bytes = [0u8; 4];
    bytes.copy_from_slice(word);
    u32::from_be_bytes(bytes)
}

// No cost is too high.
fn are_low(rows: &[u32]) -> bool
    ensures { result ≡ list_all (λ cost. nat_le cost 1000000) rows.now }
{
    rows.iter().all(|cost| *cost <= MOST_COST)
}
