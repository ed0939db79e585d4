//! The cities of an input.

ghost use Rattle.std.specs.Prelude.{◌≡◌, ◌≤◌, ◌+◌, ◌++◌, ◌*◌, ◌^◌, ◌<◌, ℕ, List, Ok, Err, None, Some, MatchBool, IfOk, OnOk, if◌then◌else◌};
ghost use Rattle.tour_search.specs.inside.Left.{lines_left};
ghost use Rattle.tour_search.specs.inside.Parts.{RefusedBy, Tacks, head_read, row_read};
ghost use Rattle.tour_search.specs.Lines.{is_long as is_long_line};
ghost use Rattle.tour_search.specs.Numbers.{number_to};
ghost use Rattle.tour_search.specs.Reading.{count_of as count_in, if_some, input_cities, named_in, row_of, rows_in};

use crate::cities::Cities;
use crate::faults::{CitiesFault, CitiesWhy};
use crate::lines::Lines;
use crate::numbers::number_up_to;
use crate::pieces::Pieces;
use adlb_unit::{NoMemory, or_no_memory};
use std::alloc::Global;

/// The most bytes of a line.
const LINE_LIMIT: usize = 1 << 20;

/// The most cities.
const MOST_CITIES: u32 = 12;

/// The greatest cost.
const MOST_COST: u32 = 1_000_000;

/// Reads the cities of an input (`input_cities`). `Refused` is answered exactly if a line is refused, with the first such line and its
/// reason, unless `Memory` is answered, which may come of any input.
pub fn read_cities(alloc: Global, bytes: &[u8]) -> Result<Cities, CitiesFault>
    ensures cities { IfOk result (λ cities. input_cities bytes.now ≡ Ok cities) }
    ensures refused { (line : ℕ) (why : CitiesWhy) → result ≡ Err (CitiesFault.Refused line why) →
        input_cities bytes.now ≡ Err (line, why) }
{
    let mut lines = Lines::of(bytes);
    let count = match read_head(lines.next()) {
        Ok(count) => count,
        Err(fault) => return Err(fault),
    };
    match read_rows(alloc, &mut lines, count) {
        Ok(costs) => Ok(Cities::new(count, costs)),
        Err(fault) => Err(fault),
    }
}

fn refused(line: u64, why: CitiesWhy) -> CitiesFault
    ensures { result ≡ CitiesFault.Refused line why }
{
    CitiesFault::Refused { line, why }
}

// How many cities there are by the first line.
fn read_head(first: Option<&[u8]>) -> Result<u8, CitiesFault>
    ensures count { IfOk result (λ n. head_read first.entry ≡ Ok n) }
    ensures refused { RefusedBy (head_read first.entry) result }
{
    let Some(line) = first else {
        return Err(refused(1, CitiesWhy::Cities));
    };
    if is_long(line) {
        return Err(refused(1, CitiesWhy::Long));
    }
    match count_of(line) {
        Some(count) => Ok(count),
        None => Err(refused(1, CitiesWhy::Cities)),
    }
}

// The line is too long.
fn is_long(line: &[u8]) -> bool
    ensures { result ≡ is_long_line line.now }
{
    line.len() > LINE_LIMIT
}

// How many cities a line says that there are (`count_of`).
fn count_of(line: &[u8]) -> Option<u8>
    ensures { result ≡ count_in line.now }
{
    let mut words = Pieces::of(line, b' ');
    let name = words.next()?;
    let number = words.next()?;
    if !words.is_done() {
        return None;
    }
    named_count(name, number)
}

// How many cities there are by these words (`named_in`).
fn named_count(name: &[u8], number: &[u8]) -> Option<u8>
    ensures { result ≡ named_in name.now number.now }
{
    if name != b"cities".as_slice() {
        return None;
    }
    count_up_to(number)
}

// A number of cities is from 1 to 12.
fn count_up_to(number: &[u8]) -> Option<u8>
    ensures { result ≡ if_some (number_to 12 number.now) }
{
    match number_up_to(number, MOST_CITIES) {
        Some(count) => some_count(count),
        None => None,
    }
}

fn some_count(count: u32) -> Option<u8>
    requires { count ≤ 12 }
    ensures { result ≡ if_some (Some count) }
{
    if count == 0 {
        return None;
    }
    Some(count as u8)
}

// The costs of this number of rows, the first of which is line 2. No line follows them.
fn read_rows(alloc: Global, lines: &mut Lines, count: u8) -> Result<Vec<u32>, CitiesFault>
    ensures rows { IfOk result (λ costs. rows_in count count 2 (lines_left lines.old) ≡ Ok costs.items) }
    ensures refused { RefusedBy (rows_in count count 2 (lines_left lines.old)) result }
{
    let mut costs = Vec::new(alloc);
    let mut number = 2;
    for _row in 0..count {
        match read_line(lines.next(), number, count, &mut costs) {
            Ok(()) => number += 1,
            Err(fault) => return Err(fault),
        }
    }
    match lines.next() {
        None => Ok(costs),
        Some(line) => Err(CitiesFault::Refused {
            line: number,
            why: extra_why(line),
        }),
    }
}

// Why a line after the rows is refused.
fn extra_why(line: &[u8]) -> CitiesWhy
    ensures { result ≡ (if is_long_line line.now then CitiesWhy.Long else CitiesWhy.Extra) }
{
    if is_long(line) {
        return CitiesWhy::Long;
    }
    CitiesWhy::Extra
}

// Appends the costs of a row that is line `number`.
fn read_line(
    line: Option<&[u8]>,
    number: u64,
    count: u8,
    costs: &mut Vec<u32>,
) -> Result<(), CitiesFault>
    ensures row { OnOk result (Tacks (row_read count number line.entry) costs.old.items costs.new.items) }
    ensures refused { RefusedBy (row_read count number line.entry) result }
{
    let Some(line) = line else {
        return Err(refused(number, CitiesWhy::Cost));
    };
    if is_long(line) {
        return Err(refused(number, CitiesWhy::Long));
    }
    if !read_row(line, count, costs)? {
        return Err(refused(number, CitiesWhy::Cost));
    }
    Ok(())
}

// Appends the costs of a row. False: it is no such line.
fn read_row(line: &[u8], count: u8, costs: &mut Vec<u32>) -> Result<bool, NoMemory>
    ensures { IfOk result (λ is. MatchBool is
        ((row : List ℕ) × (row_of count line.now ≡ Some row) × (costs.new.items ≡ costs.old.items ++ row))
        (row_of count line.now ≡ None)) }
{
    let mut words = Pieces::of(line, b' ');
    for _city in 0..count {
        let Some(word) = words.next() else {
            return Ok(false);
        };
        let Some(cost) = number_up_to(word, MOST_COST) else {
            return Ok(false);
        };
        or_no_memory(costs.push(cost))?;
    }
    Ok(words.is_done())
}
