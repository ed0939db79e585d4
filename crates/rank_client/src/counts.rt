//! What a client does to count the free units of a type at its home.

ghost use Rattle.std.specs.Prelude.{◌≡◌};
ghost use Rattle.rank_client.specs.inside.{Hears, Opens, opened};
ghost use Rattle.rank_client.specs.Rules.{count};
ghost use Rattle.rank_client.specs.declared.pendings.Pending.{Pending};

use crate::clients::ClientCore;
use crate::openings::{First, Opening};
use crate::outcomes::{Change, Outcome, Place, ends};
use crate::pendings::Pending;
use crate::rooms::Room;
use adlb_unit::{Message, WorkType};
use bag_ledger::{Answer, Call, Entry};

impl ClientCore {
    // Asks the home.
    pub(crate) fn count(&self, kind: WorkType) -> Opening
        ensures ok { opened self.now result ≡ count self.now kind }
        ensures opens { Opens self.now result }
    {
        let request = self.next;
        Opening {
            puts: self.puts,
            spent: None,
            entry: Entry::Counting {
                rank: self.me,
                call: request,
                kind,
            },
            first: First::Asks {
                to: self.config.home(self.me),
                message: Message::Count { request, kind },
                pending: Pending::Count { request, kind },
                room: Room::none(self.alloc),
            },
        }
    }
}

// What a letter makes of the count: the home tells what is free there.
pub(crate) fn hear_count(
    place: &Place,
    request: u64,
    kind: WorkType,
    room: &Room,
    message: &Message,
) -> Outcome
    ensures { Hears place.now (Pending.Count request kind) message.now room.now result }
{
    match message {
        Message::Counted { info, .. } => ends(
            Change::Keeps,
            None,
            Call::Count { kind },
            Answer::Info(*info),
        ),
        _ => Outcome::Strange,
    }
}
