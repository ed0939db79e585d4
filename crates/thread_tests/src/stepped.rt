//! A batch of two puts with a count in it, two reserves with their fetches, and Finish, of one rank at one server, taken step
//! by step.

use crate::keeping::keep;
use adlb_unit::{
    Actor, Config, Letter, Payload, Rank, Sending, Server, Target, Types, UnitId, WorkType,
};
use bag_ledger::{Call, Entry};
use ledger_checker::first_illegal;
use merge_history::merge;
use packed_ledger::{Kept, Ledger};
use rank_client::{ClientCore, ClientStep};
use server_core::{ServerState, Spare, Step};
use std::alloc::Global;
use std::mem;
use std::test::Fail;

const RANK: Actor = Actor::Rank(Rank(0));

// The call of this number.
fn call(alloc: Global, number: u32) -> Result<Call, Fail> {
    Ok(match number {
        0 => Call::BeginBatch {
            common: Payload::copy(alloc, b"xy")?,
        },
        1 => put(alloc, b"a")?,
        2 => put(alloc, b"b")?,
        3 => Call::Count { kind: WorkType(1) },
        4 => Call::EndBatch,
        5 | 7 => Call::Reserve {
            types: Types::any(),
        },
        6 => Call::Fetch { id: unit(1) },
        8 => Call::Fetch { id: unit(2) },
        _ => Call::Finish,
    })
}

fn put(alloc: Global, body: &[u8]) -> Result<Call, Fail> {
    Ok(Call::Put {
        kind: WorkType(1),
        prio: 0,
        target: Target::Any,
        answer: None,
        body: Payload::copy(alloc, body)?,
    })
}

fn unit(number: u64) -> UnitId {
    UnitId {
        rank: Rank(0),
        number,
    }
}

// What an actor keeps of its events, how many there were, and what the last of them sends.
#[derive(Drop)]
struct Journal {
    events: usize,
    kept: Kept,
    sends: Vec<Sending>,
}

impl Journal {
    fn new(alloc: Global) -> Journal {
        Journal {
            events: 0,
            kept: Kept::new(alloc),
            sends: Vec::new(alloc),
        }
    }

    // Keeps the entries of one event more, of this stamp, and what it sends.
    fn enter(&mut self, stamp: u64, sends: Vec<Sending>, entries: Vec<Entry>) -> Result<(), Fail> {
        drop(mem::replace(&mut self.sends, sends));
        self.events = self.events.wrapping_add(1);
        self.enter_all(stamp, entries)
    }

    // Keeps these entries, of an event of this stamp.
    fn enter_all(&mut self, stamp: u64, entries: Vec<Entry>) -> Result<(), Fail> {
        for entry in entries {
            keep(&mut self.kept, stamp, entry)?;
        }
        Ok(())
    }

    // The letter that was sent, which is then taken. No event here sends more than one.
    fn letter(&mut self) -> Option<Letter> {
        let Sending { letter, .. } = self.sends.pop()?;
        Some(letter)
    }

    // All that is kept, which is then kept no longer.
    fn take(&mut self, alloc: Global) -> Kept {
        mem::replace(&mut self.kept, Kept::new(alloc))
    }
}

// The rank, the step that is lent to it, and its journal so far.
#[derive(Drop)]
struct SteppedRank {
    client: ClientCore,
    step: ClientStep,
    journal: Journal,
}

impl SteppedRank {
    fn new(alloc: Global, config: Config) -> Result<SteppedRank, Fail> {
        let step = ClientStep::new(alloc)?;
        match ClientCore::new(alloc, config, Rank(0)) {
            Ok(client) => Ok(SteppedRank {
                client,
                step,
                journal: Journal::new(alloc),
            }),
            Err(fault) => {
                drop(step);
                Err(fault.into())
            }
        }
    }

    // The rank begins the call of this number.
    fn begin(&mut self, alloc: Global, number: u32) -> Result<(), Fail> {
        let made = call(alloc, number)?;
        if !self.client.ready(&made) {
            drop(made);
            return Err("not ready".into());
        }
        self.client.begin(&mut self.step, made)?;
        self.keep(alloc)
    }

    // The rank hears the letter of the server.
    fn hear(&mut self, alloc: Global, letter: Letter) -> Result<(), Fail> {
        if !self.client.expects(Server(0), &letter) {
            drop(letter);
            return Err("not expected by the rank".into());
        }
        self.client.hear(&mut self.step, Server(0), letter)?;
        self.keep(alloc)
    }

    // Keeps what the step gave in the journal. The next event has a new one.
    fn keep(&mut self, alloc: Global) -> Result<(), Fail> {
        let next = ClientStep::new(alloc)?;
        let ClientStep {
            stamp,
            sends,
            entries,
            answer,
            ..
        } = mem::replace(&mut self.step, next);
        drop(answer);
        self.journal.enter(stamp, sends, entries)
    }
}

// The server with its journal so far.
#[derive(Drop)]
struct SteppedServer {
    server: ServerState,
    journal: Journal,
}

impl SteppedServer {
    fn new(alloc: Global, config: Config) -> Result<SteppedServer, Fail> {
        Ok(SteppedServer {
            server: ServerState::new(alloc, config, Server(0))?,
            journal: Journal::new(alloc),
        })
    }

    // The server handles the letter of the rank.
    fn serve(&mut self, alloc: Global, letter: Letter) -> Result<(), Fail> {
        if self.server.broken().is_some() || !self.server.expects(RANK, &letter) {
            drop(letter);
            return Err("not expected by the server".into());
        }
        let Step {
            stamp,
            sends,
            entries,
        } = self.server.step(Spare::new(alloc), RANK, letter)?;
        self.journal.enter(stamp, sends, entries)
    }
}

// The call of this number, and each letter that follows it. The bytes of a unit are followed by those of its common part.
fn round(
    alloc: Global,
    rank: &mut SteppedRank,
    server: &mut SteppedServer,
    number: u32,
) -> Result<(), Fail> {
    rank.begin(alloc, number)?;
    for _ in 0..3 {
        if !is_exchanged(alloc, rank, server)? {
            return Ok(());
        }
    }
    Err("a call goes on".into())
}

// The server handles the letter that the rank has sent, and the rank hears what it answers. Whether there was a letter.
fn is_exchanged(
    alloc: Global,
    rank: &mut SteppedRank,
    server: &mut SteppedServer,
) -> Result<bool, Fail> {
    let Some(asked) = rank.journal.letter() else {
        return Ok(false);
    };
    server.serve(alloc, asked)?;
    if let Some(answer) = server.journal.letter() {
        rank.hear(alloc, answer)?;
    }
    Ok(true)
}

// The ledger of both.
fn merged(alloc: Global, rank: &mut Journal, server: &mut Journal) -> Result<Ledger, Fail> {
    let mut kept = Vec::new(alloc);
    kept.push(rank.take(alloc))?;
    kept.push(server.take(alloc))?;
    Ok(merge(alloc, kept)?)
}

// How many events there were after all ten calls, and how many entries their ledger has; and the first entry that is not legal.
fn counts(
    alloc: Global,
    config: &Config,
    rank: &mut SteppedRank,
    server: &mut SteppedServer,
) -> Result<(usize, u64, Option<u64>), Fail> {
    for number in 0..10 {
        round(alloc, rank, server, number)?;
    }
    let events = rank.journal.events.wrapping_add(server.journal.events);
    let ledger = merged(alloc, &mut rank.journal, &mut server.journal)?;
    let illegal = first_illegal(alloc, &ledger, config);
    let entries = ledger.len();
    drop(ledger);
    Ok((events, entries, illegal?))
}

// The rank and a server take all steps.
fn counted_of(
    alloc: Global,
    config: &Config,
    rank: &mut SteppedRank,
) -> Result<(usize, u64, Option<u64>), Fail> {
    let mut server = SteppedServer::new(alloc, *config)?;
    let counted = counts(alloc, config, rank, &mut server);
    drop(server);
    counted
}

fn counted(alloc: Global, config: &Config) -> Result<(usize, u64, Option<u64>), Fail> {
    let mut rank = SteppedRank::new(alloc, *config)?;
    let counted = counted_of(alloc, config, &mut rank);
    drop(rank);
    counted
}

#[test]
fn stepped_journals_merge_to_a_legal_run(rt: HostRuntime) -> Result<(), Fail> {
    let config = Config::new(1, 1, 64)?;
    assert_eq!(rt; counted(rt.alloc(), &config)?, (33, 22, None));
    Ok(())
}
