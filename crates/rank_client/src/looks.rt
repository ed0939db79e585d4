//! What a client does to try for a unit.

ghost use Rattle.std.specs.Prelude.{◌≡◌, ◌<◌, IfOk};
ghost use Rattle.rank_client.specs.inside.{HasRoom, Hears, Opens, opened};
ghost use Rattle.rank_client.specs.Rules.{look};
ghost use Rattle.rank_client.specs.declared.pendings.Pending.{Pending};

use crate::clients::ClientCore;
use crate::openings::{First, Opening};
use crate::outcomes::{Outcome, Place, ended, granted};
use crate::pendings::Pending;
use crate::rooms::Room;
use crate::rounds::{Errand, Round};
use adlb_unit::{Message, NoMemory, Types};
use bag_ledger::{Call, Entry};

impl ClientCore {
    // Asks the home, which looks first.
    pub(crate) fn look(&self, types: Types) -> Result<Opening, NoMemory>
        ensures ok { IfOk result (λ o. opened self.now o ≡ look self.now types self.now.end) }
        ensures opens { IfOk result (λ o. Opens self.now o) }
    {
        let entry = Entry::Tried {
            rank: self.me,
            call: self.next,
            types: types.twin(),
        };
        let first = match self.end {
            Some(end) => First::Over {
                call: Call::Try { types },
                end,
            },
            None => {
                let request = self.next;
                self.from_home(Errand::Try { request, types })?
            }
        };
        Ok(Opening {
            puts: self.puts,
            spent: None,
            entry,
            first,
        })
    }
}

// What a letter makes of the try.
pub(crate) fn hear_look(
    place: &Place,
    request: u64,
    types: Types,
    tried: u32,
    room: &mut Room,
    message: &Message,
) -> Outcome
    requires me { place.now.me.0 < place.now.config.ranks }
    requires room { HasRoom place.now.config room.old (Pending.Try request types tried) }
    ensures { Hears place.now (Pending.Try request types tried) message.now room.new result }
{
    let round = Round::from_home(&place.config, place.me, tried);
    match message {
        Message::Grant { note, .. } => granted(Call::Try { types }, *note),
        Message::Ended { end, .. } => ended(*end, Call::Try { types }),
        Message::Nothing { .. } => Errand::Try { request, types }.offer_next(place, round, room),
        _ => Outcome::Strange,
    }
}

// What a letter makes of the reserve.
pub(crate) fn hear_reserve(
    place: &Place,
    request: u64,
    types: Types,
    room: &Room,
    message: &Message,
) -> Outcome
    ensures { Hears place.now (Pending.Reserve request types) message.now room.now result }
{
    match message {
        Message::Grant { note, .. } => granted(Call::Reserve { types }, *note),
        Message::Ended { end, .. } => ended(*end, Call::Reserve { types }),
        _ => Outcome::Strange,
    }
}
