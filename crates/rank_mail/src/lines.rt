//! One sender of one mailbox.

ghost use Rattle.std.specs.Prelude.{◌≡◌, ◌++◌, ◌∷◌, [], true};
ghost use Rattle.crossbeam_channel.specs.Claims.{view as pass_view, IsSeatAt};
ghost use Rattle.crossbeam_channel.specs.Ends.{ruled_capacity, sends_on};
ghost use Rattle.rank_mail.specs.inside.{LineModel};

use crate::posted::Posted;
use crate::rule::{MailPass, MailSender, send};
use adlb_unit::Letter;
use std::marker::Model;
use std::sync::Wait;

/// A sender's end of one mailbox, with its pass.
#[derive(Drop)]
pub struct Line {
    pub end: MailSender,
    pub pass: MailPass,
}

impl Model for Line {
    ghost Value = { LineModel };

    ghost view = { λ l. record { place = record { table = l.pass.table_id; key = l.pass.me.0.of; capacity = ruled_capacity (sends_on l.end) }; from = (pass_view l.pass).from; sent = (pass_view l.pass).sent } };

    ghost invariant = { λ l. IsSeatAt (sends_on l.end) l.pass × ((pass_view l.pass).sends ≡ true) };
}

impl Line {
    /// Sends a letter as the sender of this number, which is the line's own, and waits for room.
    pub fn send<R: Wait>(&mut self, rt: &R, from: u32, letter: Letter)
        requires { from ≡ self.old.from }
        ensures { self.new ≡ record self.old { sent = self.old.sent ++ letter ∷ [] } }
    {
        send(rt, &self.end, &mut self.pass, Posted { from, letter });
    }
}
