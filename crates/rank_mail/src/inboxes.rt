//! The receiver of a mailbox.

ghost use Rattle.std.specs.Prelude.{◌≡◌, ◌<◌, ◌++◌, ◌∷◌, [], true, length, IfOk, OnErr};
ghost use Rattle.crossbeam_channel.specs.Claims.{view as pass_view, IsSeatAt};
ghost use Rattle.crossbeam_channel.specs.Ends.{receives_on, ruled_capacity, sends_on};
ghost use Rattle.rank_mail.specs.inside.{Agrees, line_of, with_line};
ghost use Rattle.rank_mail.specs.Mailboxes.{InboxModel, fresh_inbox};

use crate::lines::Line;
use crate::rule::{MailPass, MailReceiver, MailSender, compare, join, mailbox, receive, split_off};
use adlb_unit::Letter;
use std::alloc::{AllocError, Global};
use std::marker::Model;
use std::sync::Wait;

/// An actor's own mailbox, from which it receives letters. Contracts see it as `InboxModel`.
pub struct Inbox {
    end: MailReceiver,
    // a sender's end, by which passes are split off and joined; nothing is sent over it
    desk: MailSender,
    pass: MailPass,
}

// By hand, so that whoever holds a mailbox lets it go by one call.
impl Drop for Inbox {
    fn drop(self) {
        let Inbox { end, desk, pass } = self;
    }
}

impl Model for Inbox {
    ghost Value = { InboxModel };

    ghost view = { λ b. record { place = record { table = b.pass.table_id; key = b.pass.me.0.of; capacity = ruled_capacity (sends_on b.desk) }; got = (pass_view b.pass).got; senders = (pass_view b.pass).senders; closed = (pass_view b.pass).closed } };

    ghost invariant = { λ b. IsSeatAt (sends_on b.desk) b.pass × (receives_on b.end ≡ sends_on b.desk) × ((pass_view b.pass).gets ≡ true) };
}

impl Inbox {
    /// Receives the next letter, with the number of its sender, and waits for one.
    pub fn receive<R: Wait>(&mut self, rt: &R) -> (u32, Letter)
        ensures got { self.new ≡ record self.old { got = self.old.got ++ record { from = result.0; letter = result.1 } ∷ [] } }
        ensures from { result.0 < self.old.senders }
    {
        let posted = receive(rt, &self.end, &mut self.pass);
        (posted.from, posted.letter)
    }

    /// A mailbox for `capacity` letters, without senders. Its only error is `AllocError`.
    pub(crate) fn new(alloc: Global, capacity: usize) -> Result<Inbox, AllocError>
        requires { 0 < capacity }
        ensures fresh { IfOk result (λ b. b ≡ fresh_inbox 0 b.place) }
        ensures capacity { IfOk result (λ b. b.place.capacity ≡ capacity) }
    {
        let (desk, end, pass) = mailbox(alloc, capacity)?;
        Ok(Inbox { end, desk, pass })
    }

    /// A new sender, of the next number. Its only error is `AllocError`.
    pub(crate) fn line(&mut self) -> Result<Line, AllocError>
        ensures line { IfOk result (λ l. l ≡ line_of self.old) }
        ensures inbox { IfOk result (λ l. self.new ≡ with_line self.old) }
        ensures err { OnErr result (self.new ≡ self.old) }
    {
        let end = self.desk.try_clone()?;
        let pass = split_off(&self.desk, &mut self.pass);
        Ok(Line { end, pass })
    }

    /// Closes the sender whose number is the next.
    pub(crate) fn close_line(&mut self, line: Line)
        requires place { line.place ≡ self.old.place }
        requires next { line.from ≡ length self.old.closed }
        ensures { self.new ≡ record self.old { closed = self.old.closed ++ line.sent ∷ [] } }
    {
        let Line { end: _, pass } = line;
        join(&self.desk, &mut self.pass, pass);
    }

    /// What was got of each sender that is closed is a prefix of what it sent.
    pub(crate) fn compare(&mut self)
        ensures same { self.new ≡ self.old }
        ensures agrees { Agrees self.old }
    {
        compare(&self.desk, &mut self.pass);
    }
}
