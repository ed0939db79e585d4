//! The letters that are under way, from each actor to each actor.

ghost use Rattle.std.specs.Prelude.{◌≡◌, ◌++◌, ◌∷◌, [], List, length, replicate, slice_index_or, slice_set, IfOk, OnOk, MatchOption};
ghost use Rattle.std.specs.Vec.{vec_capacity};
ghost use Rattle.adlb_unit.specs.Links.{place_of};
ghost use Rattle.adlb_unit.specs.declared.letters.Letter.{Letter};
ghost use Rattle.core_run.specs.World.{link, post, put_link};

use adlb_unit::{Actor, Config, Letter, NoMemory, Sending, or_no_memory};
use std::alloc::Global;
use std::collections::VecDeque;
use std::marker::Model;

// The letters from one actor to another, in order.
#[derive(Drop)]
struct Link {
    letters: VecDeque<Letter>,
}

impl Model for Link {
    ghost use Rattle.std.specs.Prelude.{List};
    ghost use Rattle.adlb_unit.specs.declared.letters.Letter.{Letter};

    ghost Value = { List Letter };

    ghost view = { λ l. l.letters.items };
}

impl Link {
    fn new(alloc: Global) -> Link
        ensures { result ≡ [] }
    {
        Link {
            letters: VecDeque::new(alloc),
        }
    }

    fn push(&mut self, letter: Letter) -> Result<(), NoMemory>
        ensures { OnOk result (self.new ≡ self.old ++ letter ∷ []) }
    {
        or_no_memory(self.letters.push_back(letter))
    }

    fn pop(&mut self) -> Option<Letter>
        ensures { MatchOption result (self.old ≡ []) (λ letter. self.old ≡ letter ∷ self.new) }
    {
        self.letters.pop_front()
    }

    fn len(&self) -> u64
        ensures { result ≡ length self.now }
    {
        self.letters.len() as u64
    }
}

// The letters from one actor, by the place of the receiver.
#[derive(Drop)]
struct Row {
    links: Vec<Link>,
}

impl Model for Row {
    ghost use Rattle.std.specs.Prelude.{List};
    ghost use Rattle.adlb_unit.specs.declared.letters.Letter.{Letter};

    ghost Value = { List (List Letter) };

    ghost view = { λ r. r.links.items };
}

impl Row {
    // Empty lists, of this number.
    fn new(alloc: Global, actors: usize) -> Result<Row, NoMemory>
        ensures { IfOk result (λ row. row ≡ replicate actors []) }
    {
        let mut links = Vec::new(alloc);
        for _list in 0..actors {
            if links.push(Link::new(alloc)).is_err() {
                return Err(NoMemory);
            }
        }
        Ok(Row { links })
    }

    // Takes the front letter off the list to this place.
    fn pop(&mut self, to: usize) -> Option<Letter>
        ensures { MatchOption result (slice_index_or self.old to [] ≡ []) (λ letter.
            (rest : List Letter) × (slice_index_or self.old to [] ≡ letter ∷ rest) × (self.new ≡ slice_set self.old to rest)) }
    {
        if to >= self.links.len() {
            return None;
        }
        let link = &mut self.links[to];
        link.pop()
    }

    // Appends a letter to the list to this place, if there is one.
    fn push(&mut self, to: usize, letter: Letter) -> Result<(), NoMemory>
        ensures { OnOk result (self.new ≡ slice_set self.old to (slice_index_or self.old to [] ++ letter ∷ [])) }
    {
        if to < self.links.len() {
            let link = &mut self.links[to];
            link.push(letter)?;
        }
        Ok(())
    }
}

// The letters under way, by the places of sender and receiver: the ranks come before the servers.
#[derive(Drop)]
pub(crate) struct Links {
    rows: Vec<Row>,
}

impl Model for Links {
    ghost use Rattle.std.specs.Prelude.{List};
    ghost use Rattle.adlb_unit.specs.declared.letters.Letter.{Letter};

    ghost Value = { List (List (List Letter)) };

    ghost view = { λ l. l.rows.items };
}

impl Links {
    // No letter, among this number of actors.
    pub(crate) fn new(alloc: Global, actors: usize) -> Result<Links, NoMemory>
        ensures { IfOk result (λ links. links ≡ replicate actors (replicate actors [])) }
    {
        let mut rows = Vec::new(alloc);
        for _list in 0..actors {
            if rows.push(Row::new(alloc, actors)?).is_err() {
                return Err(NoMemory);
            }
        }
        Ok(Links { rows })
    }

    // How many letters the list has.
    pub(crate) fn waiting(&self, from: usize, to: usize) -> u64
        ensures { result ≡ length (link self.now from to) }
    {
        match self.at(from, to) {
            Some(link) => link.len(),
            None => 0,
        }
    }

    // The list from one place to another.
    fn at(&self, from: usize, to: usize) -> Option<&Link>
        ensures { MatchOption result (link self.now from to ≡ []) (λ letters. link self.now from to ≡ letters.now) }
    {
        if from >= self.rows.len() {
            return None;
        }
        let row = &self.rows[from];
        if to >= row.links.len() {
            return None;
        }
        Some(&row.links[to])
    }

    // Takes the front letter off the list.
    pub(crate) fn pop(&mut self, from: usize, to: usize) -> Option<Letter>
        ensures { MatchOption result (link self.old from to ≡ []) (λ letter.
            (rest : List Letter) × (link self.old from to ≡ letter ∷ rest) × (self.new ≡ put_link self.old from to rest)) }
    {
        if from >= self.rows.len() {
            return None;
        }
        let row = &mut self.rows[from];
        row.pop(to)
    }

    // Appends a letter to the list. Does nothing if there is no such list.
    fn push(&mut self, from: usize, to: usize, letter: Letter) -> Result<(), NoMemory>
        ensures { OnOk result (self.new ≡ put_link self.old from to (link self.old from to ++ letter ∷ [])) }
    {
        if from < self.rows.len() {
            let row = &mut self.rows[from];
            row.push(to, letter)?;
        }
        Ok(())
    }

    // Appends the letters that the actor of this place sends to their lists, in order, and takes them off their own, which keeps
    // its room.
    pub(crate) fn post(
        &mut self,
        config: &Config,
        from: usize,
        sends: &mut Vec<Sending>,
    ) -> Result<(), NoMemory>
        ensures posted { OnOk result (self.new ≡ post config.now self.old from sends.old.items) }
        ensures room { vec_capacity sends.new ≡ vec_capacity sends.old }
    {
        for sending in sends.drain(..) {
            let Sending { to, letter } = sending;
            self.push(from, place_of(config, to), letter)?;
        }
        Ok(())
    }
}

// The place of an actor among all.
pub(crate) fn place_of(config: &Config, actor: Actor) -> usize
    ensures { result ≡ place_of config.now actor }
{
    match actor {
        Actor::Rank(rank) => rank.0 as usize,
        Actor::Server(server) => config.ranks as usize + server.0 as usize,
    }
}
