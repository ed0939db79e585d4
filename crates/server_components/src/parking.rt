//! What waits at one server.

ghost use Rattle.std.specs.Prelude.{◌≡◌, ◌<◌, ◌++◌, ◌∷◌, [], IfOk, Some, None, drop, false, length, map, position, slice_get, slice_set, if◌then◌else◌};
ghost use Rattle.std.specs.List.{list_any};
ghost use Rattle.std.specs.Option.{option_map};
ghost use Rattle.server_components.specs.Calls.{asks_next, forgotten, gone, hears_of, is_since, request_of, step_of, wants, wished};
ghost use Rattle.server_components.specs.Parked.{IsAway, IsOther, IsParked, IsWaiting, empty, entry_of, is_asked, is_idle, is_of, is_parked, with_waiting};
ghost use Rattle.server_components.specs.declared.waits.Waiting.{Waiting as Entry};

use crate::steps::ReserveStep;
use crate::waits::Waiting;
use crate::wishes::Wish;
use adlb_unit::{Config, NoMemory, RANK_LIMIT, Rank, Server, Types, or_no_memory};
use std::alloc::Global;
use std::marker::Model;

/// The ranks that wait at one server, in the order in which they came, and the wishes of ranks that wait elsewhere.
/// Contracts see it as a `ParkedModel` of `specs/Parked.antt`. It has room for each rank and for its wish from its
/// making, and no call but `new` takes memory.
#[derive(Drop)]
pub struct Parked {
    pub(crate) config: Config,
    pub(crate) me: Server,
    pub(crate) waiting: Vec<Waiting>,
    pub(crate) wishes: Vec<Wish>,
}

impl Model for Parked {
    ghost use Rattle.server_components.specs.Parked.{ParkedModel};

    ghost Value = { ParkedModel };

    ghost use Rattle.server_components.specs.inside.Reserving.{IsInside, parked_of};

    ghost view = { parked_of };

    ghost invariant = { IsInside };
}

impl Parked {
    /// No rank waits at this server of a run, and nothing is wished. Its only error is `NoMemory`.
    pub fn new(alloc: Global, config: Config, me: Server) -> Result<Parked, NoMemory>
        requires { me.0 < config.servers }
        ensures { IfOk result (λ p. p ≡ empty config me) }
    {
        let waiting = or_no_memory(Vec::with_capacity(alloc, config.ranks as usize))?;
        let wishes = or_no_memory(Vec::with_capacity(alloc, config.ranks as usize))?;
        Ok(Parked {
            config,
            me,
            waiting,
            wishes,
        })
    }

    /// The numbers of the run, and this server of it.
    pub fn seat(&self) -> (Config, Server)
        ensures { result ≡ (self.now.config, self.now.me) }
    {
        (self.config, self.me)
    }

    /// For some rank that waits, a server that was asked is unanswered. Besides, it says what is so of all that wait
    /// (`IsParked`). No rank waits twice or has two wishes, and each waits at its home. Only other servers are asked,
    /// and for an idle rank no server is still to be asked.
    pub fn unanswered(&self) -> bool
        ensures some { result ≡ list_any is_asked self.now.parked.waiting }
        ensures sound { IsParked self.now }
    {
        self.waiting.iter().any(|waits| waits.asked.is_some())
    }

    /// The request since which the rank waits, and the server that is unanswered, if one is. `None` exactly if the
    /// rank does not wait here.
    pub fn awaits(&self, rank: Rank) -> Option<(u64, Option<Server>)>
        ensures { result ≡ option_map request_of (entry_of self.now rank) }
    {
        let waiting = self.waiting.as_slice();
        let waits = waiting.iter().find(|waits| waits.wish.rank.0 == rank.0);
        match waits {
            Some(waits) => Some((waits.wish.request, waits.asked)),
            None => None,
        }
    }

    /// The types that the rank wants, which waits here. `None` exactly if it does not wait here.
    pub fn types_of(&self, rank: Rank) -> Option<Types>
        ensures { result ≡ option_map (λ (e : Entry). e.wish.types) (entry_of self.now rank) }
    {
        let waiting = self.waiting.as_slice();
        let waits = waiting.iter().find(|waits| waits.wish.rank.0 == rank.0);
        match waits {
            Some(waits) => Some(waits.wish.types.twin()),
            None => None,
        }
    }

    /// How many ranks wait here, and how many that wait elsewhere have a wish.
    pub fn counts(&self) -> (usize, usize)
        ensures waiting { result.0 ≡ length self.now.parked.waiting }
        ensures wishes { result.1 ≡ length self.now.parked.wishes }
    {
        (self.waiting.as_slice().len(), self.wishes.len())
    }

    /// Copies the ranks that wait, each with the types that it wants, to the front of the room, in the order in which
    /// they came, and counts them. The rest of the room stays as it was.
    pub fn asked(&self, room: &mut [(Rank, Types); RANK_LIMIT as usize]) -> u32
        ensures count { result ≡ length self.now.parked.waiting }
        ensures room { room.new ≡ map wants self.now.parked.waiting ++ drop (length self.now.parked.waiting) room.old }
    {
        let waiting = self.waiting.as_slice();
        let mut count = 0;
        for waits in waiting {
            room[count as usize] = (waits.wish.rank, waits.wish.types.twin());
            count += 1;
        }
        count
    }

    // The place of the rank among those that wait.
    pub(crate) fn place_of(&self, rank: Rank) -> Option<usize>
        ensures { result ≡ position (is_of rank) self.now.parked.waiting }
    {
        let waiting = self.waiting.as_slice();
        waiting.iter().position(|waits| waits.wish.rank.0 == rank.0)
    }

    // The place of the rank, if it waits since this request.
    pub(crate) fn place_since(&self, rank: Rank, request: u64) -> Option<usize>
        ensures place { result ≡ position (is_since rank request) self.now.parked.waiting }
        ensures sound { IsParked self.now }
    {
        let waiting = self.waiting.as_slice();
        waiting.iter().position(|waits| waits.wish.rank.0 == rank.0
            && waits.wish.request == request)
    }

    // Who waits at this place.
    pub(crate) fn at(&self, place: usize) -> &Waiting
        requires { place < length self.now.parked.waiting }
        ensures { slice_get self.now.parked.waiting place ≡ Some result.now }
    {
        &self.waiting.as_slice()[place]
    }

    // For the rank at this place, the next server is asked.
    pub(crate) fn ask_next(&mut self, place: usize) -> ReserveStep
        requires { place < length self.old.parked.waiting }
        ensures step { (e : Entry) → slice_get self.old.parked.waiting place ≡ Some e →
            result ≡ step_of (slice_get e.to_ask 0) }
        ensures asked { (e : Entry) → slice_get self.old.parked.waiting place ≡ Some e →
            self.new ≡ with_waiting self.old (slice_set self.old.parked.waiting place (asks_next e)) }
    {
        self.waiting[place].ask_next()
    }

    // For the rank at this place, another server has hinted.
    pub(crate) fn hear_of(&mut self, place: usize, from: Server) -> Option<Server>
        requires there { place < length self.old.parked.waiting }
        requires other { IsOther self.old.config self.old.me from }
        ensures ask { (e : Entry) → slice_get self.old.parked.waiting place ≡ Some e →
            result ≡ (if is_idle e then Some from else None) }
        ensures heard { (e : Entry) → slice_get self.old.parked.waiting place ≡ Some e →
            self.new ≡ with_waiting self.old
            (slice_set self.old.parked.waiting place (hears_of self.old.config self.old.me from e)) }
    {
        self.waiting[place].hear_of(&self.config, self.me, from)
    }

    // The rank waits from now on, after the others.
    pub(crate) fn park(&mut self, waits: Waiting)
        requires each { IsWaiting self.old.config self.old.me waits }
        requires new { is_parked self.old waits.wish.rank ≡ false }
        ensures { self.new ≡ with_waiting self.old (self.old.parked.waiting ++ waits ∷ []) }
    {
        self.waiting.push_reserved(waits);
    }

    // The rank waits no longer.
    pub(crate) fn leave(&mut self, rank: Rank)
        ensures { self.new ≡ gone self.old rank }
    {
        if let Some(place) = self.place_of(rank) {
            let _left = self.waiting.remove(place);
        }
    }

    // The rank has no wish any more.
    pub(crate) fn forget(&mut self, rank: Rank)
        ensures { self.new ≡ forgotten self.old rank }
    {
        self.wishes.retain(|wish| wish.rank.0 != rank.0);
    }

    // The rank's wish is this one, the last of all.
    pub(crate) fn keep(&mut self, wish: Wish)
        requires { IsAway self.old.config self.old.me wish.rank }
        ensures { self.new ≡ wished self.old wish }
    {
        self.wishes.retain(|other| other.rank.0 != wish.rank.0);
        self.wishes.push_reserved(wish);
    }
}
