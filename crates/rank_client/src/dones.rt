//! What a client does to say that the problem is done.

ghost use Rattle.std.specs.Prelude.{◌≡◌, IfOk};
ghost use Rattle.rank_client.specs.inside.{HasRoom, Hears, Opens, opened};
ghost use Rattle.rank_client.specs.Rules.{set_done};
ghost use Rattle.rank_client.specs.declared.pendings.Pending.{Pending};

use crate::clients::ClientCore;
use crate::openings::Opening;
use crate::outcomes::{Outcome, Place};
use crate::pendings::Pending;
use crate::rooms::Room;
use crate::rounds::{Errand, Round};
use adlb_unit::{Message, NoMemory};
use bag_ledger::Entry;

impl ClientCore {
    // Tells the home first, also after an end was told.
    pub(crate) fn set_done(&self) -> Result<Opening, NoMemory>
        ensures ok { IfOk result (λ o. opened self.now o ≡ set_done self.now) }
        ensures opens { IfOk result (λ o. Opens self.now o) }
    {
        let request = self.next;
        Ok(Opening {
            puts: self.puts,
            spent: None,
            entry: Entry::Done {
                rank: self.me,
                call: request,
            },
            first: self.from_home(Errand::SetDone { request })?,
        })
    }
}

// What a letter makes of saying that the problem is done: a server has heard it, and the next one is told, if there is one.
pub(crate) fn hear_done(
    place: &Place,
    request: u64,
    tried: u32,
    room: &mut Room,
    message: &Message,
) -> Outcome
    requires room { HasRoom place.now.config room.old (Pending.SetDone request tried) }
    ensures { Hears place.now (Pending.SetDone request tried) message.now room.new result }
{
    let round = Round::from_home(&place.config, place.me, tried);
    match message {
        Message::DoneHeard { .. } => Errand::SetDone { request }.offer_next(place, round, room),
        _ => Outcome::Strange,
    }
}
