//! A link of one rank, which keeps its own units.

ghost use Rattle.std.specs.Prelude.{◌≡◌, ◌<◌, ◌≤◌, ◌^◌, ◌++◌, ◌∷◌, [], ℕ, Option, length, Some, None, false, true, OnOk, OnErr, IfOk, IfErr};
ghost use Rattle.std.specs.List.{list_any};
ghost use Rattle.adlb_unit.specs.Ids.{same_unit};
ghost use Rattle.adlb_unit.specs.Totals.{total_of};
ghost use Rattle.adlb_unit.specs.declared.notes.End.{End};
ghost use Rattle.adlb_unit.specs.declared.notes.UnitNote.{UnitNote};
ghost use Rattle.bag_ledger.specs.declared.entries.Call.{Call};
ghost use Rattle.rank_client.specs.Answers.{IsAnswer, IsAnswerTo, answers_put, answers_reserve, answers_try};
ghost use Rattle.rank_client.specs.Calls.{TellsAgain, end_of, end_told, fetches, goes_on, granted, grants, is_fetched, is_granted};
ghost use Rattle.rank_client.specs.Link.{Can};
ghost use Rattle.unit_tests.specs.Fake.{IsShort, fake_link, misfits};

use adlb_unit::{
    BatchId, CommonRef, End, Handle, Info, NoMemory, Payload, Rank, Server, Trouble, UnitId,
    UnitNote, WorkType,
};
use bag_ledger::{Answer, Body, Call, Said};
use rank_client::Carrier;
use std::alloc::Global;
use std::collections::VecDeque;

/// It rejects no put and no batch, or each, or each second or third one. It tells an end when no unit is left, or after
/// a number of calls.
pub struct Fake {
    alloc: Global,
    said: Vec<Said>,
    units: VecDeque<(UnitNote, Body)>,
    common: Option<Payload>,
    trouble: Option<Trouble>,
    every: u64,
    stops: usize,
    going: bool,
    ghost within: { length said.items < 2 ^ 48 },
}

// By hand, so that a test lets it go by one call.
impl Drop for Fake {
    fn drop(self) {
        let Fake {
            alloc,
            said,
            units,
            common,
            trouble,
            every,
            stops,
            going,
        } = self;
    }
}

impl Fake {
    /// A link that rejects nothing if `every` is 0, and otherwise each put and batch after a multiple of that many
    /// calls. It tells an end to each call after `stops` calls.
    pub fn new(alloc: Global, every: u64, stops: usize) -> Fake
        ensures said { result.said.items ≡ [] }
        ensures trouble { result.trouble ≡ None }
        ensures going { result.going ≡ false }
    {
        Fake {
            alloc,
            said: Vec::new(alloc),
            units: VecDeque::new(alloc),
            common: None,
            trouble: None,
            every,
            stops,
            going: false,
        }
    }

    /// How many calls were answered.
    pub fn calls(&self) -> usize {
        self.said.len()
    }

    // One more call with its answer, if it can be kept. Otherwise the link has failed.
    fn say(&mut self, call: Call, answer: Answer) -> Result<Answer, Trouble>
        ensures said { IfOk result (λ a. self.new.said.items ≡ self.old.said.items ++ record { call = call; answer = a } ∷ []) }
        ensures same { IfOk result (λ a. a ≡ answer) }
        ensures kept { OnErr result (self.new.said.items ≡ self.old.said.items) }
        ensures fine { OnOk result (self.new.trouble ≡ self.old.trouble) }
        ensures trouble { IfErr result (λ t. self.new.trouble ≡ Some t) }
        ensures going { IfOk result (λ a. self.new.going ≡ goes_on call a self.old.going) }
        ensures shut { OnErr result (self.new.going ≡ false) }
    {
        if self.said.len() >= (1 << 48) - 1 {
            return Err(self.fail(Trouble::TooLong { stamp: 1 << 48 }));
        }
        let Ok(shown) = twin(self.alloc, &answer) else {
            return Err(self.fail(Trouble::Memory));
        };
        let going = goes_on(&call, &answer, self.going);
        match self.said.push(Said {
            call,
            answer: shown,
        }) {
            Ok(()) => {
                self.going = going;
                Ok(answer)
            }
            Err(_) => Err(self.fail(Trouble::Memory)),
        }
    }

    // The link has failed, and has no batch.
    fn fail(&mut self, trouble: Trouble) -> Trouble
        ensures said { self.new.said ≡ self.old.said }
        ensures trouble { (self.new.trouble ≡ Some trouble) × (result ≡ trouble) }
        ensures going { self.new.going ≡ false }
    {
        self.trouble = Some(trouble);
        self.going = false;
        trouble
    }

    // An end that is to be told: one that was told, or the first.
    fn end(&self) -> Option<End>
        ensures again { (end : End) → end_told self.now.said.items ≡ Some end → result ≡ Some end }
    {
        match end_in(&self.said) {
            Some(end) => Some(end),
            None if self.said.len() >= self.stops => Some(End::Exhausted),
            None => None,
        }
    }

    // This put or batch is to be rejected.
    fn rejects(&self) -> bool {
        match self.every {
            0 => false,
            every => self.said.len() as u64 % every == 0,
        }
    }

    // The note of the next unit.
    fn next(&self) -> Option<UnitNote> {
        match self.units.front() {
            Some((note, _)) => Some(*note),
            None => None,
        }
    }

    // The common part of the batch that goes on.
    fn part(&self) -> Option<CommonRef> {
        match &self.common {
            Some(common) if self.going => Some(CommonRef {
                batch: BatchId {
                    rank: Rank(0),
                    number: 0,
                },
                server: Server(0),
                length: u32::try_from(common.len()).ok()?,
            }),
            _ => None,
        }
    }

    // The bytes that a fetch of a unit with this body will give.
    fn whole(&self, body: &Payload) -> Result<Body, NoMemory> {
        let own = body.twin(self.alloc)?;
        match &self.common {
            Some(common) if self.going => Ok(Body::joined(common.twin(self.alloc)?, own)),
            _ => Ok(Body::alone(own)),
        }
    }

    // The unit waits.
    fn keep(
        &mut self,
        kind: WorkType,
        prio: i32,
        answer: Option<Rank>,
        body: &Payload,
    ) -> Result<(), Trouble>
        requires body { length body.now ≤ 2 ^ 20 }
        ensures said { self.new.said ≡ self.old.said }
        ensures trouble { self.new.trouble ≡ self.old.trouble }
        ensures going { self.new.going ≡ self.old.going }
    {
        let id = UnitId {
            rank: Rank(0),
            number: self.said.len() as u64,
        };
        let note = UnitNote {
            id,
            kind,
            prio,
            answer,
            server: Server(0),
            common: self.part(),
            length: body.len() as u32,
        };
        let Ok(body) = self.whole(body) else {
            return Err(Trouble::Memory);
        };
        match self.units.push_back((note, body)) {
            Ok(()) => Ok(()),
            Err(_) => Err(Trouble::Memory),
        }
    }
}

// The first end that was told.
#[tactic(auto, unfolding(rank_client::specs::Calls::end_told))]
fn end_in(said: &[Said]) -> Option<End>
    ensures { result ≡ end_told said.now }
{
    for s in said {
        let told = end_by(&s.answer, None);
        if told.is_some() {
            return told;
        }
    }
    None
}

fn end_by(answer: &Answer, later: Option<End>) -> Option<End>
    ensures { result ≡ end_of answer.now later }
{
    match answer {
        Answer::Ended(end) => Some(*end),
        _ => later,
    }
}

// The unit was granted or fetched.
fn is_known(id: UnitId, said: &[Said]) -> bool
    ensures granted { result ≡ false → is_granted id said.now ≡ false }
    ensures fetched { result ≡ false → is_fetched id said.now ≡ false }
{
    was_granted(id, said) || was_fetched(id, said)
}

#[tactic(auto, unfolding(rank_client::specs::Calls::is_granted))]
fn was_granted(id: UnitId, said: &[Said]) -> bool
    ensures { result ≡ is_granted id said.now }
{
    said.iter().any(|s| is_grant(id, &s.answer))
}

fn is_grant(id: UnitId, answer: &Answer) -> bool
    ensures { result ≡ grants id answer.now }
{
    match answer {
        Answer::Granted(note) => same(note.id, id),
        _ => false,
    }
}

#[tactic(auto, unfolding(rank_client::specs::Calls::is_fetched))]
fn was_fetched(id: UnitId, said: &[Said]) -> bool
    ensures { result ≡ is_fetched id said.now }
{
    said.iter().any(|s| is_fetch(id, &s.call))
}

fn is_fetch(id: UnitId, call: &Call) -> bool
    ensures { result ≡ fetches id call.now }
{
    match call {
        Call::Fetch { id: fetched } => same(*fetched, id),
        _ => false,
    }
}

fn same(a: UnitId, b: UnitId) -> bool
    ensures { result ≡ same_unit a b }
{
    a.rank.0 == b.rank.0 && a.number == b.number
}

// The bytes of the unit are as many as each note says by which a unit of this id was granted.
fn all_fit(id: UnitId, total: u64, said: &[Said]) -> bool
    ensures { result ≡ true → (note : UnitNote) → granted note said.now → note.id ≡ id → total ≡ total_of note }
{
    !is_misfit(id, total, said)
}

// A unit of this id was granted with another number of bytes.
fn is_misfit(id: UnitId, total: u64, said: &[Said]) -> bool
    ensures { result ≡ list_any (λ s. misfits id total s.answer) said.now }
{
    said.iter().any(|s| misfits(id, total, &s.answer))
}

fn misfits(id: UnitId, total: u64, answer: &Answer) -> bool
    ensures { result ≡ misfits id total answer.now }
{
    match answer {
        Answer::Granted(note) => same(note.id, id) && total_of(note) != total,
        _ => false,
    }
}

fn total_of(note: &UnitNote) -> u64
    ensures { result ≡ total_of note.now }
{
    let handle = Handle::of(*note);
    let total = handle.total();
    let _ = handle.spend();
    total
}

// Whether a batch goes on after a call with this answer.
fn goes_on(call: &Call, answer: &Answer, on: bool) -> bool
    ensures { result ≡ goes_on call.now answer.now on }
{
    match (call, answer) {
        (Call::BeginBatch { .. }, Answer::Fine) => true,
        (Call::EndBatch, Answer::Fine) => false,
        _ => on,
    }
}

fn twin(alloc: Global, answer: &Answer) -> Result<Answer, NoMemory>
    ensures { IfOk result (λ a. a ≡ answer.now) }
{
    Ok(match answer {
        Answer::Fine => Answer::Fine,
        Answer::Rejected => Answer::Rejected,
        Answer::Ended(end) => Answer::Ended(*end),
        Answer::Granted(note) => Answer::Granted(*note),
        Answer::NoCurrent => Answer::NoCurrent,
        Answer::Body(body) => Answer::Body(body.twin(alloc)?),
        Answer::Info(info) => Answer::Info(*info),
    })
}

impl Fake {
    // What a put is answered: a unit that is accepted waits.
    fn answer_put(
        &mut self,
        kind: WorkType,
        prio: i32,
        answer: Option<Rank>,
        body: &Payload,
    ) -> Result<Answer, Trouble>
        requires body { length body.now ≤ 2 ^ 20 }
        ensures kind { IfOk result (λ a. answers_put a ≡ true) }
        ensures again { IfOk result (λ a. TellsAgain (end_told self.old.said.items) (Some a)) }
        ensures said { self.new.said ≡ self.old.said }
        ensures trouble { self.new.trouble ≡ self.old.trouble }
        ensures going { self.new.going ≡ self.old.going }
    {
        if let Some(end) = self.end() {
            return Ok(Answer::Ended(end));
        }
        if self.rejects() {
            return Ok(Answer::Rejected);
        }
        self.keep(kind, prio, answer, body)?;
        Ok(Answer::Fine)
    }

    // What the beginning of a batch is answered: a common part that is accepted is kept.
    fn answer_begin(&mut self, common: &Payload) -> Result<Answer, Trouble>
        ensures kind { IfOk result (λ a. answers_put a ≡ true) }
        ensures again { IfOk result (λ a. TellsAgain (end_told self.old.said.items) (Some a)) }
        ensures said { self.new.said ≡ self.old.said }
        ensures trouble { self.new.trouble ≡ self.old.trouble }
        ensures going { self.new.going ≡ self.old.going }
    {
        if let Some(end) = self.end() {
            return Ok(Answer::Ended(end));
        }
        if self.rejects() {
            return Ok(Answer::Rejected);
        }
        let Ok(common) = common.twin(self.alloc) else {
            return Err(Trouble::Memory);
        };
        self.common = Some(common);
        Ok(Answer::Fine)
    }

    // What a reserve is answered: the next unit, if no end was told.
    fn answer_reserve(&self) -> Result<Answer, Trouble>
        ensures kind { IfOk result (λ a. answers_reserve a ≡ true) }
        ensures known { (types : _) → IfOk result (λ a. IsAnswer self.now.said.items (Call.Reserve types) a) }
        ensures again { IfOk result (λ a. TellsAgain (end_told self.now.said.items) (Some a)) }
    {
        if let Some(end) = self.end() {
            return Ok(Answer::Ended(end));
        }
        match self.next() {
            Some(note) if is_known(note.id, &self.said) => Err(Trouble::Memory),
            Some(note) => Ok(Answer::Granted(note)),
            None => Ok(Answer::Ended(End::Exhausted)),
        }
    }

    // What a try is answered: that there is no unit now, if no end was told.
    fn answer_try(&self) -> Answer
        ensures kind { answers_try result ≡ true }
        ensures known { (types : _) → IsAnswer self.now.said.items (Call.Try types) result }
        ensures again { TellsAgain (end_told self.now.said.items) (Some result) }
    {
        match self.end() {
            Some(end) => Answer::Ended(end),
            None => Answer::NoCurrent,
        }
    }

    // What a fetch is answered: the bytes of the next unit, if they are as many as its note says.
    fn answer_fetch(&mut self, id: UnitId) -> Result<Answer, Trouble>
        ensures fits { IfOk result (λ a. IsAnswerTo self.old.said.items (Call.Fetch id) a) }
        ensures said { self.new.said ≡ self.old.said }
        ensures trouble { self.new.trouble ≡ self.old.trouble }
        ensures going { self.new.going ≡ self.old.going }
    {
        match self.units.pop_front() {
            Some((_, body)) if all_fit(id, body.len() as u64, &self.said) => Ok(Answer::Body(body)),
            _ => Err(Trouble::Memory),
        }
    }

    // What a call is answered.
    fn answer(&mut self, call: &Call) -> Result<Answer, Trouble>
        requires short { IsShort call.now }
        ensures fits { IfOk result (λ a. IsAnswerTo self.old.said.items call.now a) }
        ensures said { self.new.said ≡ self.old.said }
        ensures trouble { self.new.trouble ≡ self.old.trouble }
        ensures going { self.new.going ≡ self.old.going }
    {
        match call {
            Call::Put {
                kind,
                prio,
                answer,
                body,
                ..
            } => self.answer_put(*kind, *prio, *answer, body),
            Call::BeginBatch { common } => self.answer_begin(common),
            Call::Reserve { .. } => self.answer_reserve(),
            Call::Try { .. } => Ok(self.answer_try()),
            Call::Fetch { id } => self.answer_fetch(*id),
            Call::Count { .. } => Ok(Answer::Info(Info {
                free: 0,
                top: None,
                at_top: 0,
            })),
            Call::EndBatch | Call::SetDone | Call::Finish => Ok(Answer::Fine),
        }
    }
}

impl Carrier for Fake {
    ghost carried = { λ l. fake_link l.said.items l.going l.trouble };

    fn exchange(&mut self, call: Call) -> Result<Answer, Trouble> {
        if let Some(trouble) = self.trouble {
            return Err(self.fail(trouble));
        }
        match self.answer(&call) {
            Ok(answer) => self.say(call, answer),
            Err(trouble) => Err(self.fail(trouble)),
        }
    }

    fn has_batch(&self) -> bool {
        self.going
    }

    fn count_ranks(&self) -> u32 {
        1
    }

    ghost few = { λ l. l.within };
}
