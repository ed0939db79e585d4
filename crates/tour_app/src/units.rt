//! The units of a run over cities.

ghost use Rattle.std.specs.Prelude.{◌≡◌, ◌≤◌, ◌<◌, ◌++◌, ℕ, true, length, IfOk};
ghost use Rattle.std.specs.Int.{from_be_bytes, w64};
ghost use Rattle.adlb_unit.specs.Limits.{body_limit};
ghost use Rattle.adlb_unit.specs.Targets.{Aims};
ghost use Rattle.work_law.specs.Work.{put_of};
ghost use Rattle.tour_app.specs.Bodies.{answer_in, body_of, pair_in};
ghost use Rattle.tour_app.specs.Works.{fits, is_for_answers, tours, unit_of};
ghost use Rattle.tour_app.specs.Puts.{call_of};

use crate::bodies::append;
use adlb_unit::{NoMemory, Payload, Rank, Target, WorkType};
use std::alloc::Global;
use std::marker::Model;

/// The rank that has the answers.
const ANSWERS: Rank = Rank(0);

/// The work type of pairs.
const PAIR: WorkType = WorkType(0);

/// The work type of answers.
const ANSWER: WorkType = WorkType(1);

/// The priority of an answer.
const ANSWER_PRIORITY: i32 = 100;

/// The most cities of a tour.
const MOST: usize = 12;

/// Cities in the order of a tour, at most 12, a byte for each. Seen as their list.
#[derive(Drop)]
pub struct Order {
    cities: Payload,
}

impl Model for Order {
    ghost use Rattle.std.specs.Prelude.{◌≤◌, ℕ, List, length};

    ghost Value = { List ℕ };

    ghost view = { λ order. order.cities };

    ghost invariant = { λ order. length order.cities ≤ 12 };
}

impl Order {
    /// These cities, at most 12.
    pub fn new(cities: Payload) -> Order
        requires { length cities ≤ 12 }
        ensures { result ≡ cities }
    {
        Order { cities }
    }

    /// The cities.
    pub fn bytes(&self) -> &[u8]
        ensures bytes { result.now ≡ self.now }
        ensures few { length self.now ≤ 12 }
    {
        self.cities.bytes()
    }

    /// The cities as a payload.
    pub fn payload(self) -> Payload
        ensures { result ≡ self }
    {
        let Order { cities } = self;
        cities
    }
}

/// Two cities that a tour visits first, after city 0; or a tour and its cost, which answers such a pair.
#[derive(Drop)]
pub enum TourUnit {
    Pair { second: u8, third: u8 },
    Answer { cost: u64, tour: Order },
}

/// How a unit is put.
#[derive(Drop)]
pub struct Putting {
    pub kind: WorkType,
    pub prio: i32,
    pub target: Target,
    pub answer: Option<Rank>,
    pub body: Payload,
}

impl TourUnit {
    /// How the unit is put (`put_of`). The target is any rank or rank 0, and the unit is read back from its body (`form`). Its only error
    /// is `NoMemory`.
    pub(crate) fn putting(&self, alloc: Global) -> Result<Putting, NoMemory>
        ensures put { IfOk result (λ p. call_of p ≡ put_of tours self.now) }
        ensures few { IfOk result (λ p. length p.body ≤ body_limit) }
        ensures target { (ranks : ℕ) → 0 < ranks → IfOk result (λ p. Aims p.target ranks) }
        ensures form { fits self.now ≡ true }
    {
        match self {
            TourUnit::Pair { second, third } => as_work(alloc, *second, *third),
            TourUnit::Answer { cost, tour } => as_answer(alloc, *cost, tour),
        }
    }

    /// The unit of this work type, answer rank and body, if it has the form of one (`unit_of`). Its only error is `NoMemory`.
    pub(crate) fn read(
        alloc: Global,
        kind: WorkType,
        answer: Option<Rank>,
        body: &[u8],
    ) -> Result<Option<TourUnit>, NoMemory>
        ensures { IfOk result (λ unit. unit ≡ unit_of kind.0 answer body.now) }
    {
        if kind == PAIR && is_answer_rank(answer) {
            return Ok(pair_of(body));
        }
        if kind == ANSWER && answer.is_none() {
            return answer_of(alloc, body);
        }
        Ok(None)
    }
}

// A pair is for any rank. Its only error is `NoMemory`.
fn as_work(alloc: Global, second: u8, third: u8) -> Result<Putting, NoMemory>
    ensures put { IfOk result (λ p. call_of p ≡ put_of tours (TourUnit.Pair second third)) }
    ensures few { IfOk result (λ p. length p.body ≤ body_limit) }
    ensures target { (ranks : ℕ) → 0 < ranks → IfOk result (λ p. Aims p.target ranks) }
    ensures form { fits (TourUnit.Pair second third) ≡ true }
{
    let body = Payload::copy(alloc, [second, third].as_slice())?;
    Ok(Putting {
        kind: PAIR,
        prio: 0,
        target: Target::Any,
        answer: Some(ANSWERS),
        body,
    })
}

// An answer is for the rank that has the answers alone. Its only error is `NoMemory`.
fn as_answer(alloc: Global, cost: u64, tour: &Order) -> Result<Putting, NoMemory>
    ensures put { IfOk result (λ p. call_of p ≡ put_of tours (TourUnit.Answer cost tour.now)) }
    ensures few { IfOk result (λ p. length p.body ≤ body_limit) }
    ensures target { (ranks : ℕ) → 0 < ranks → IfOk result (λ p. Aims p.target ranks) }
    ensures form { fits (TourUnit.Answer cost tour.now) ≡ true }
{
    let body = answer_body(alloc, cost, tour.bytes())?;
    Ok(Putting {
        kind: ANSWER,
        prio: ANSWER_PRIORITY,
        target: Target::Only(ANSWERS),
        answer: None,
        body,
    })
}

// The bytes of an answer: the cost, and the cities of the tour. Its only error is `NoMemory`.
fn answer_body(alloc: Global, cost: u64, tour: &[u8]) -> Result<Payload, NoMemory>
    requires { length tour.now ≤ 12 }
    ensures body { IfOk result (λ p. p ≡ body_of (TourUnit.Answer cost tour.now)) }
    ensures few { IfOk result (λ p. length p ≤ 20) }
{
    let mut bytes = Vec::new(alloc);
    append(&mut bytes, &cost.to_be_bytes())?;
    append(&mut bytes, tour)?;
    Ok(Payload::from_vec(bytes))
}

// The pair of a body, if it has the form of one.
fn pair_of(body: &[u8]) -> Option<TourUnit>
    ensures { result ≡ pair_in body.now }
{
    if body.len() != 2 {
        return None;
    }
    Some(TourUnit::Pair {
        second: body[0],
        third: body[1],
    })
}

// The answer of a body, if it has the form of one. Its only error is `NoMemory`.
fn answer_of(alloc: Global, body: &[u8]) -> Result<Option<TourUnit>, NoMemory>
    ensures { IfOk result (λ unit. unit ≡ answer_in body.now) }
{
    if body.len() < 8 || body.len() > 8 + MOST {
        return Ok(None);
    }
    let (cost, tour) = body.split_at(8);
    let cost = number_of(cost);
    let tour = Order::new(Payload::copy(alloc, tour)?);
    Ok(Some(TourUnit::Answer { cost, tour }))
}

// The rank is the one that has the answers.
fn is_answer_rank(answer: Option<Rank>) -> bool
    ensures { result ≡ is_for_answers answer }
{
    match answer {
        Some(rank) => rank == ANSWERS,
        None => false,
    }
}

// The number of eight bytes.
fn number_of(word: &[u8]) -> u64
    requires { length word.now ≡ 8 }
    ensures { result ≡ from_be_bytes w64 word.now }
{
    let mut bytes = [0u8; 8];
    bytes.copy_from_slice(word);
    u64::from_be_bytes(bytes)
}
