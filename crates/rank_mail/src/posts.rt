//! One actor as the sender of each mailbox.

ghost use Rattle.std.specs.Prelude.{◌≡◌, ◌<◌, ◌↔◌, ℕ, length, map, IfOk, IsTrue, OnOk, slice_get, Some};
ghost use Rattle.rank_mail.specs.inside.{LineModel, line_of, with_line, closed_by};
ghost use Rattle.rank_mail.specs.Mailboxes.{InboxModel, PostModel, after_sending, fresh_post, places_of};

use crate::inboxes::Inbox;
use crate::lines::Line;
use adlb_unit::Letter;
use std::alloc::{AllocError, Global};
use std::marker::Model;
use std::sync::Wait;

/// By which an actor sends letters, to each actor of its making. Contracts see it as `PostModel`.
pub struct Post {
    number: u32,
    lines: Vec<Line>,
}

// By hand, so that whoever holds a post lets it go by one call, and does not look at its lines.
impl Drop for Post {
    fn drop(self) {
        let Post { number, lines } = self;
    }
}

impl Model for Post {
    ghost Value = { PostModel };

    ghost view = { λ p. record { number = p.number; places = map (λ l. l.place) p.lines.items; sent = map (λ l. l.sent) p.lines.items } };

    ghost invariant = { λ p. (k : ℕ) (l : LineModel) → slice_get p.lines.items k ≡ Some l → l.from ≡ p.number };
}

impl Post {
    /// Sends a letter to the actor of the number `to`, and waits for room in its mailbox.
    pub fn send<R: Wait>(&mut self, rt: &R, to: u32, letter: Letter)
        requires { to < length self.old.places }
        ensures { self.new ≡ after_sending self.old to letter }
    {
        let from = self.number;
        let line = &mut self.lines[to as usize];
        line.send(rt, from, letter);
    }

    /// Whether there is an actor of this number.
    pub fn reaches(&self, to: u32) -> bool
        ensures { IsTrue result ↔ (to < length self.now.places) }
    {
        (to as usize) < self.lines.len()
    }

    /// A new sender of each mailbox. Its only error is `AllocError`.
    pub(crate) fn new(
        alloc: Global,
        inboxes: &mut Vec<Inbox>,
        number: u32,
    ) -> Result<Post, AllocError>
        requires { (k : ℕ) (b : InboxModel) → slice_get inboxes.old.items k ≡ Some b → b.senders ≡ number }
        ensures post { IfOk result (λ p. p ≡ fresh_post number (places_of inboxes.old.items)) }
        ensures inboxes { OnOk result (inboxes.new.items ≡ map with_line inboxes.old.items) }
    {
        let lines = new_lines(alloc, inboxes)?;
        Ok(Post { number, lines })
    }

    /// Closes the sender of each mailbox that this post is, whose number is the next.
    pub(crate) fn close(self, inboxes: &mut Vec<Inbox>)
        requires places { self.places ≡ places_of inboxes.old.items }
        requires next { (k : ℕ) (b : InboxModel) → slice_get inboxes.old.items k ≡ Some b → length b.closed ≡ self.number }
        ensures { inboxes.new.items ≡ closed_by inboxes.old.items self.sent }
    {
        let Post { number, lines } = self;
        close_lines(inboxes, lines, number);
    }
}

// A new sender of each mailbox.
fn new_lines(alloc: Global, inboxes: &mut Vec<Inbox>) -> Result<Vec<Line>, AllocError>
    ensures lines { IfOk result (λ lines. lines.items ≡ map line_of inboxes.old.items) }
    ensures inboxes { OnOk result (inboxes.new.items ≡ map with_line inboxes.old.items) }
{
    let mut lines = Vec::new(alloc);
    for k in 0..inboxes.len() {
        let line = inboxes[k].line()?;
        lines.push(line)?;
    }
    Ok(lines)
}

// Closes the sender of each mailbox, all of this number.
fn close_lines(inboxes: &mut Vec<Inbox>, lines: Vec<Line>, number: u32)
    requires places { map (λ l. l.place) lines.items ≡ places_of inboxes.old.items }
    requires from { (k : ℕ) (l : LineModel) → slice_get lines.items k ≡ Some l → l.from ≡ number }
    requires next { (k : ℕ) (b : InboxModel) → slice_get inboxes.old.items k ≡ Some b → length b.closed ≡ number }
    ensures { inboxes.new.items ≡ closed_by inboxes.old.items (map (λ l. l.sent) lines.items) }
{
    let mut k = 0;
    for line in lines {
        inboxes[k].close_line(line);
        k += 1;
    }
}
