//! What a client keeps of its rank.

ghost use Rattle.std.specs.Prelude.{◌≡◌, ◌<◌, ◌≤◌, ◌+◌, ◌∷◌, ◌++◌, [], false, length, map, Some, is_some, IfOk, slice_index_or, slice_set};
ghost use Rattle.std.specs.Vec.{vec_len, vec_capacity};
ghost use Rattle.adlb_unit.specs.Limits.{stamp_limit};
ghost use Rattle.adlb_unit.specs.Links.{sending};
ghost use Rattle.adlb_unit.specs.declared.actors.Actor.{Actor};
ghost use Rattle.rank_client.specs.Calls.{plus};
ghost use Rattle.rank_client.specs.State.{ClientModel, start};
ghost use Rattle.rank_client.specs.Step.{first_trouble};
ghost use Rattle.adlb_unit.specs.Ring.{behind};

use crate::pendings::Pending;
use crate::rooms::Room;
use crate::said::Transcript;
use adlb_unit::{
    Actor, CommonRef, Config, End, Letter, Message, NoMemory, Rank, Sending, Server, Trouble,
    UnitNote, or_no_memory,
};
use bag_ledger::Said;
use ghost_list::Trace;
use std::alloc::Global;
use std::marker::Model;

/// One rank as its client sees it: what is beneath every implementation of `Adlb`.
pub struct ClientCore {
    pub(crate) config: Config,
    pub(crate) me: Rank,
    pub(crate) pending: Pending,
    pub(crate) room: Room,
    pub(crate) next: u64,
    pub(crate) puts: u64,
    pub(crate) batch: Option<CommonRef>,
    pub(crate) accepted: u64,
    pub(crate) end: Option<End>,
    pub(crate) handles: Vec<UnitNote>,
    pub(crate) clock: u64,
    pub(crate) sent: Vec<u64>,
    pub(crate) finished: bool,
    pub(crate) said: Transcript,
    pub(crate) trouble: Option<Trouble>,
    // Room for the letters of Finish.
    pub(crate) farewell: Vec<Sending>,
    pub(crate) alloc: Global,
}

// By hand, so that whoever holds a client lets it go by one call, and does not look at what it keeps.
impl Drop for ClientCore {
    fn drop(self) {
        self.into_transcript();
    }
}

impl Model for ClientCore {
    ghost use Rattle.rank_client.specs.State.{ClientModel};

    ghost Value = { ClientModel };

    ghost use Rattle.rank_client.specs.inside.{state_of, IsInside};

    ghost view = { state_of };

    ghost invariant = { IsInside };
}

impl ClientCore {
    /// A client of this rank at the start of a run. It makes the room for Finish. Its only error is `NoMemory`.
    pub fn new(alloc: Global, config: Config, me: Rank) -> Result<ClientCore, NoMemory>
        requires { me.0 < config.ranks }
        ensures { IfOk result (λ c. c ≡ start config me) }
    {
        let servers = config.servers as usize;
        let said = Transcript::new(alloc)?;
        let farewell = or_no_memory(Vec::with_capacity(alloc, servers))?;
        let sent = or_no_memory(vec![in alloc; 0; servers])?;
        Ok(ClientCore {
            config,
            me,
            pending: Pending::Nothing,
            room: Room::none(alloc),
            next: 0,
            puts: 0,
            batch: None,
            accepted: 0,
            end: None,
            handles: Vec::new(alloc),
            clock: 0,
            sent,
            finished: false,
            said,
            trouble: None,
            farewell,
            alloc,
        })
    }

    /// The calls with their answers, in order, with the client used up. Nothing of them is held.
    pub fn into_transcript(self) -> Trace<Said>
        ensures { result.items ≡ self.transcript }
    {
        let ClientCore {
            config,
            me,
            pending,
            room,
            next,
            puts,
            batch,
            accepted,
            end,
            handles,
            clock,
            sent,
            finished,
            said,
            trouble,
            farewell,
            alloc,
        } = self;
        said.into_calls()
    }

    /// What made the client fail, if anything did.
    pub fn failed(&self) -> Option<Trouble>
        ensures { result ≡ self.now.trouble }
    {
        self.trouble
    }

    /// A batch is going on.
    pub fn batch_open(&self) -> bool
        ensures { result ≡ is_some self.now.batch }
    {
        self.batch.is_some()
    }

    /// The number of the next call.
    pub fn next_call(&self) -> u64
        ensures { result ≡ self.now.next }
    {
        self.next
    }

    /// The client has failed, and gives what made it fail: the trouble of its first failure, which stays, and otherwise this one.
    /// Nothing else changes.
    pub fn fail(&mut self, trouble: Trouble) -> Trouble
        ensures failed { self.new ≡ record self.old { trouble = Some result } }
        ensures first { Some result ≡ first_trouble self.old.trouble (Some trouble) }
    {
        let first = self.trouble.unwrap_or(trouble);
        self.trouble = Some(first);
        first
    }
}

// Writes a letter to the server, in the event of this stamp. `sent` counts the letters to each server.
pub(crate) fn write(sent: &mut Vec<u64>, stamp: u64, to: Server, message: Message) -> Sending
    requires server { to.0 < length sent.old.items }
    requires first { slice_index_or sent.old.items to.0 0 < stamp }
    ensures counted { sent.new.items ≡ slice_set sent.old.items to.0 (slice_index_or sent.old.items to.0 0 + 1) }
    ensures letter { result ≡ sending stamp (slice_index_or sent.old.items to.0 0) (Actor.Server to) message }
{
    let at = to.0 as usize;
    let place = sent[at];
    sent[at] = place + 1;
    Sending {
        to: Actor::Server(to),
        letter: Letter {
            stamp,
            place,
            message,
        },
    }
}

// The server that is this number of places after this one in ring order.
pub(crate) fn behind(config: &Config, server: Server, places: u64) -> Server
    requires server { server.0 < config.now.servers }
    requires places { places < stamp_limit }
    ensures behind { result ≡ behind config.now server places }
    ensures there { result.0 < config.now.servers }
{
    let servers = config.servers as u64;
    Server(((server.0 as u64 + places) % servers) as u32)
}
