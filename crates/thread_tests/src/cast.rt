//! Three ranks, two servers or one, and whoever made the run. One of them is tried, and the others are played by hand.

ghost use Rattle.std.specs.Prelude.{◌≡◌, ◌≤◌, ◌<◌, ◌+◌, ℕ, IfOk, IsTrue, Some, length, map, slice_get, vec_len};
ghost use Rattle.actor_desk.specs.Desks.{DeskModel, IsNew};
ghost use Rattle.rank_mail.specs.Mailboxes.{PostModel, fresh_inbox, fresh_post, places_of};

use crate::heard::{Heard, heard_of};
use crate::says::{Line, Says, message};
use actor_desk::{Desk, Mailing, called, clear, desks};
use adlb_unit::{Actor, Config, Letter, Message, NoMemory, Rank, Sending, Server, or_no_memory};
use bag_ledger::Call;
use merge_history::{Cause, merge};
use rank_mail::{Inbox, Post, mailboxes};
use std::alloc::Global;
use std::mem;
use std::snapshot::Snapshot;
use std::sync::Wait;
use std::test::Fail;

/// The numbers of server 0, of server 1 and of whoever made the run, after those of three ranks.
pub const POOL: u32 = 3;

pub const NEXT: u32 = 4;

pub const CALLER: u32 = 5;

/// The mailboxes of three ranks, two servers and the caller, and of nobody, all of one making.
#[derive(Drop)]
pub struct Mail {
    pub posts: Vec<Post>,
    pub inboxes: Vec<Inbox>,
    pub ghost seven: { (vec_len posts ≡ 7) × (vec_len inboxes ≡ 7) },
    pub ghost fresh: { inboxes.items ≡ map (fresh_inbox 7) (places_of inboxes.items) },
    pub ghost numbered: { (k : ℕ) (p : PostModel) → slice_get posts.items k ≡ Some p → p ≡ fresh_post k (places_of inboxes.items) },
}

impl Mail {
    /// Its only error is that there is no memory.
    pub fn new(alloc: Global) -> Result<Mail, Fail> {
        let (posts, inboxes) = mailboxes(alloc, 7, 32)?;
        Ok(Mail { posts, inboxes })
    }
}

/// The desks of all actors, by number. That of nobody stands in place of the desk of the actor that is tried.
#[derive(Drop)]
pub struct Others<M: Mailing> {
    desks: Vec<Desk<M>>,
    tried: u32,
}

/// The desk of the actor that is tried, at the start of a run, and all others.
pub fn cast<M: Mailing>(
    alloc: Global,
    config: Config,
    mail: Mail,
    tried: u32,
) -> Result<(Desk<M>, Others<M>), NoMemory>
    requires reach { config.ranks + config.servers ≤ 7 }
    requires mail { M.places ≡ places_of mail.inboxes.items }
    requires tried { tried < 7 }
    ensures { IfOk result (λ all. IsNew config tried all.0) }
{
    let Mail { posts, inboxes } = mail;
    let mut desks = desks::<M>(alloc, config, posts, inboxes)?;
    let desk = desks.swap_remove(tried as usize);
    Ok((desk, Others { desks, tried }))
}

impl<M: Mailing> Others<M> {
    /// Puts letters into the mailbox of the actor that is tried.
    pub fn say_all<R: Wait>(
        &mut self,
        rt: &R,
        alloc: Global,
        lines: &[Line],
    ) -> Result<(), NoMemory> {
        let to = actor(self.tried);
        for (from, stamp, says) in lines {
            if let Some(desk) = self.desks.get_mut(*from as usize) {
                send(rt, alloc, desk, to, *stamp, says)?;
            }
        }
        Ok(())
    }

    /// The actor of this number heard what stands beside its number, in this order, then the last, if there is one, and nothing
    /// else.
    pub fn heard<R: Wait>(
        &mut self,
        rt: &R,
        number: u32,
        before: &[(u32, Heard)],
        last: Option<Heard>,
    ) -> bool {
        self.end_of(rt, number);
        for (to, wanted) in before {
            if *to == number && self.next(rt, number) != *wanted {
                return false;
            }
        }
        if let Some(wanted) = last {
            if self.next(rt, number) != wanted {
                return false;
            }
        }
        self.next(rt, number) == Heard::End
    }

    // The caller tells the actor of this number that no more letters come.
    fn end_of<R: Wait>(&mut self, rt: &R, number: u32) {
        if let Some(desk) = self.desks.get_mut(CALLER as usize) {
            desk.tell(rt, actor(number), Message::Notice);
        }
    }

    // What the actor of this number hears next.
    fn next<R: Wait>(&mut self, rt: &R, number: u32) -> Heard {
        let Some(desk) = self.desks.get_mut(number as usize) else {
            return Heard::Other;
        };
        let (from, letter) = desk.receive(rt);
        let heard = heard_of(from, self.tried, &letter.message);
        drop(letter);
        heard
    }

    /// Puts the desk of the actor that was tried at its place.
    pub fn put_back(&mut self, desk: Desk<M>) -> Result<(), NoMemory> {
        or_no_memory(self.desks.push(desk))?;
        let last = self.desks.len().saturating_sub(1);
        if (self.tried as usize) < last {
            self.desks.swap(self.tried as usize, last);
        }
        Ok(())
    }

    /// The journals of all desks have this number of entries, if the desk of the actor that was tried is at its place. Then no
    /// desk is left.
    pub fn have_entered(&mut self, alloc: Global, wanted: Option<u64>) -> Result<bool, NoMemory>
        requires { length M.places ≡ 7 }
    {
        if self.desks.len() != 7 || !are_numbered(self.desks.as_slice()) {
            return Ok(wanted.is_none());
        }
        let desks = mem::replace(&mut self.desks, Vec::new(alloc));
        let ledger = merge(alloc, clear(alloc, desks)?)?;
        let entries = ledger.len();
        drop(ledger);
        Ok(wanted == Some(entries))
    }
}

// The desks stand by their numbers.
fn are_numbered<M: Mailing>(desks: &[Desk<M>]) -> bool
    ensures { IsTrue result → (k : ℕ) (d : DeskModel) → slice_get desks.now k ≡ Some d → d.number ≡ k }
{
    for place in 0..desks.len() {
        if desks[place].number() as usize != place {
            return false;
        }
    }
    true
}

// The actor of this number.
fn actor(number: u32) -> Actor {
    match number.checked_sub(POOL) {
        None => Actor::Rank(Rank(number)),
        Some(server) => Actor::Server(Server(server)),
    }
}

// Sends a letter of this stamp that says this to an actor, as an event of the desk.
fn send<M: Mailing, R: Wait>(
    rt: &R,
    alloc: Global,
    desk: &mut Desk<M>,
    to: Actor,
    stamp: u64,
    says: &Says,
) -> Result<(), NoMemory> {
    let letter = Letter {
        stamp,
        place: 0,
        message: message(alloc, says)?,
    };
    let mut sends = Vec::new(alloc);
    let fits = sends.push(Sending { to, letter });
    if fits.is_ok() {
        let (cause, call) = called(Call::Finish);
        drop(call);
        enter(rt, alloc, desk, stamp, cause, &mut sends);
    }
    drop(sends);
    or_no_memory(fits)
}

/// An event of the desk of this stamp sends these letters, and enters nothing.
pub fn enter<M: Mailing, R: Wait>(
    rt: &R,
    alloc: Global,
    desk: &mut Desk<M>,
    stamp: u64,
    cause: Snapshot<Cause>,
    sends: &mut Vec<Sending>,
) {
    let mut entries = Vec::new(alloc);
    desk.enter(rt, stamp, cause, sends, &mut entries);
    drop(entries);
}
