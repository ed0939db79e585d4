//! The units of a flow, as they are put and as they come.

ghost use Rattle.std.specs.Prelude.{◌≡◌, ◌<◌, ◌≤◌, true, length, IfOk};
ghost use Rattle.adlb_unit.specs.Limits.{body_limit};
ghost use Rattle.adlb_unit.specs.Targets.{Aims};
ghost use Rattle.adlb_unit.specs.Totals.{common_length, total_of};
ghost use Rattle.work_law.specs.Work.{fetched_unit, put_of};
ghost use Rattle.flow_run_law.specs.Units.{flows};
ghost use Rattle.flow_units.specs.Bodies.{answer_in, forms, is_rank_0, rule_in, unit_fits, unit_in};
ghost use Rattle.flow_work.specs.Pieces.{call_of, piece, piece_read};

use adlb_unit::{NoMemory, Payload, Rank, Target, UnitNote, WorkType};
use bag_ledger::Body;
use flow_units::{AnswerUnit, RuleUnit};
use std::alloc::Global;

/// The rank that has the flow.
const HOME: Rank = Rank(0);

/// The work type of rules.
const RULE: WorkType = WorkType(0);

/// The work type of answers.
const ANSWER: WorkType = WorkType(1);

/// The priority of an answer.
const ANSWER_PRIORITY: i32 = 100;

/// A rule with the values of its inputs, or the value of a rule.
#[derive(Clone, Copy, Drop)]
pub enum Piece {
    Rule(RuleUnit),
    Answer(AnswerUnit),
}

/// How a unit is put.
#[derive(Drop)]
pub struct Putting {
    pub kind: WorkType,
    pub prio: i32,
    pub target: Target,
    pub answer: Option<Rank>,
    pub body: Payload,
}

impl Piece {
    /// How the unit is put in a run of this many ranks (`put_of`). The target is a rank of the run. Its only error is `NoMemory`.
    pub(crate) fn putting(&self, alloc: Global, ranks: u32) -> Result<Putting, NoMemory>
        requires some { 0 < ranks }
        ensures put { IfOk result (λ p. call_of p ≡ put_of (flows (forms ranks)) (piece self.now)) }
        ensures few { IfOk result (λ p. length p.body ≤ body_limit) }
        ensures target { IfOk result (λ p. Aims p.target ranks) }
        ensures fits { unit_fits (piece self.now) ≡ true }
    {
        match self {
            Piece::Rule(rule) => as_rule(alloc, ranks, *rule),
            Piece::Answer(answer) => as_answer(alloc, ranks, *answer),
        }
    }

    /// The unit of this work type, answer rank and body, if it has the form of one (`unit_in`).
    pub(crate) fn read(kind: WorkType, answer: Option<Rank>, body: &[u8]) -> Option<Piece>
        ensures { piece_read result ≡ unit_in kind answer body.now }
    {
        if kind == RULE && is_home(answer) {
            return rule_of(body);
        }
        if kind == ANSWER && answer.is_none() {
            return answer_of(body);
        }
        None
    }

    /// The unit of this note whose fetch gave this body, if it has the form of one (`fetched_unit`). Its only error is `NoMemory`.
    pub(crate) fn fetched(
        alloc: Global,
        ranks: u32,
        note: &UnitNote,
        body: &Body,
    ) -> Result<Option<Piece>, NoMemory>
        requires { length body.now ≡ total_of note.now }
        ensures { IfOk result (λ unit. piece_read unit ≡ fetched_unit (flows (forms ranks)) note.now body.now) }
    {
        let mut room = Vec::new(alloc);
        let parts = body.parted(common_count(note), &mut room)?;
        Ok(Piece::read(note.kind, note.answer, parts.1))
    }
}

// A rule is for rank `i mod ranks`, if another does not take it, and its answer for rank 0. Its only error is `NoMemory`.
fn as_rule(alloc: Global, ranks: u32, rule: RuleUnit) -> Result<Putting, NoMemory>
    requires some { 0 < ranks }
    ensures put { IfOk result (λ p. call_of p ≡ put_of (flows (forms ranks)) (piece (Piece.Rule rule))) }
    ensures few { IfOk result (λ p. length p.body ≤ body_limit) }
    ensures target { IfOk result (λ p. Aims p.target ranks) }
    ensures fits { unit_fits (piece (Piece.Rule rule)) ≡ true }
{
    let body = rule.body(alloc)?;
    Ok(Putting {
        kind: RULE,
        prio: 0,
        target: Target::Soft(Rank(rule.number % ranks)),
        answer: Some(HOME),
        body,
    })
}

// An answer is for rank 0 alone. Its only error is `NoMemory`.
fn as_answer(alloc: Global, ranks: u32, answer: AnswerUnit) -> Result<Putting, NoMemory>
    requires some { 0 < ranks }
    ensures put { IfOk result (λ p. call_of p ≡ put_of (flows (forms ranks)) (piece (Piece.Answer answer))) }
    ensures few { IfOk result (λ p. length p.body ≤ body_limit) }
    ensures target { IfOk result (λ p. Aims p.target ranks) }
    ensures fits { unit_fits (piece (Piece.Answer answer)) ≡ true }
{
    let body = answer.body(alloc)?;
    Ok(Putting {
        kind: ANSWER,
        prio: ANSWER_PRIORITY,
        target: Target::Only(HOME),
        answer: None,
        body,
    })
}

// The rule of a body, if it has the form of one.
fn rule_of(body: &[u8]) -> Option<Piece>
    ensures { piece_read result ≡ rule_in body.now }
{
    match RuleUnit::read(body) {
        Some(rule) => Some(Piece::Rule(rule)),
        None => None,
    }
}

// The answer of a body, if it has the form of one.
fn answer_of(body: &[u8]) -> Option<Piece>
    ensures { piece_read result ≡ answer_in body.now }
{
    match AnswerUnit::read(body) {
        Some(answer) => Some(Piece::Answer(answer)),
        None => None,
    }
}

// The rank is the one that has the flow.
fn is_home(answer: Option<Rank>) -> bool
    ensures { result ≡ is_rank_0 answer }
{
    match answer {
        Some(rank) => rank == HOME,
        None => false,
    }
}

// How many bytes the common part has.
fn common_count(note: &UnitNote) -> usize
    ensures { result ≡ common_length note.now.common }
{
    match note.common {
        Some(part) => part.length as usize,
        None => 0,
    }
}
