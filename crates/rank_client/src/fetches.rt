//! What a client does to fetch the bytes of a unit: the unit's own, and those of its common part, if it has one.

ghost use Rattle.std.specs.Prelude.{◌≡◌, ◌≤◌, filter, not, Some};
ghost use Rattle.std.specs.Vec.{vec_len, vec_capacity};
ghost use Rattle.adlb_unit.specs.Ids.{same_unit};
ghost use Rattle.adlb_unit.specs.declared.configs.Config.{Config};
ghost use Rattle.rank_client.specs.inside.{Fits, HasRoom, Hears, IsPlaced, Opens, opened, response_of, unspent};
ghost use Rattle.rank_client.specs.Rules.{fetched, held, own_came};
ghost use Rattle.rank_client.specs.State.{ClientModel};
ghost use Rattle.rank_client.specs.declared.pendings.Pending.{Pending};
ghost use Rattle.rank_client.specs.declared.rooms.Room.{Room};

use crate::clients::ClientCore;
use crate::openings::{First, Opening};
use crate::outcomes::{Change, Outcome, Place, ends};
use crate::pendings::Pending;
use crate::rooms::Room;
use adlb_unit::{CommonRef, Message, Payload, UnitId, UnitNote};
use bag_ledger::{Answer, Body, Call, Entry};

// Takes the note of this unit out of the list.
fn drop_note(handles: &mut Vec<UnitNote>, id: UnitId)
    ensures items { handles.new.items ≡ filter (λ n. not (same_unit n.id id)) handles.old.items }
    ensures fewer { vec_len handles.new ≤ vec_len handles.old }
    ensures room { vec_capacity handles.new ≡ vec_capacity handles.old }
{
    let mut kept = 0;
    for at in 0..handles.len() {
        let note = handles[at];
        if note.id == id {
            continue;
        }
        handles[kept] = note;
        kept += 1;
    }
    handles.truncate(kept);
}

// Takes the note of this unit out of the list, if there is one.
pub(crate) fn spend(handles: &mut Vec<UnitNote>, spent: Option<UnitId>)
    ensures items { handles.new.items ≡ unspent spent handles.old.items }
    ensures fewer { vec_len handles.new ≤ vec_len handles.old }
    ensures room { vec_capacity handles.new ≡ vec_capacity handles.old }
{
    if let Some(id) = spent {
        drop_note(handles, id);
    }
}

impl ClientCore {
    // Asks the unit's server for its bytes.
    pub(crate) fn fetch(&self, id: UnitId, note: UnitNote) -> Opening
        requires held { held self.now id ≡ Some note }
        ensures ok { opened self.now result ≡ fetched self.now id note }
        ensures opens { Opens self.now result }
    {
        let request = self.next;
        Opening {
            puts: self.puts,
            spent: Some(id),
            entry: Entry::Fetching {
                rank: self.me,
                call: request,
                id,
            },
            first: First::Asks {
                to: note.server,
                message: Message::Fetch { request, id },
                pending: Pending::Fetch { request, note },
                room: Room::none(self.alloc),
            },
        }
    }
}

// What a letter makes of the fetch: the unit's server gives its own bytes.
pub(crate) fn hear_fetch(
    place: &Place,
    request: u64,
    note: UnitNote,
    room: &Room,
    message: Message,
) -> Outcome
    requires room { HasRoom place.now.config room.now (Pending.Fetch request note) }
    ensures { Hears place.now (Pending.Fetch request note) message room.now result }
{
    match message {
        Message::Bytes { body, .. } => own_bytes(request, note, body),
        _ => Outcome::Strange,
    }
}

// The own bytes of the unit are all, or they stay until the common ones come, for which their server is asked.
fn own_bytes(request: u64, note: UnitNote, own: Payload) -> Outcome
    ensures response { (s : ClientModel) → response_of s result ≡ Some (own_came s request note own note.common) }
    ensures fits { (config : Config) (room : Room) → IsPlaced config note → Fits config room result }
{
    match note.common {
        None => ends(
            Change::Keeps,
            None,
            Call::Fetch { id: note.id },
            Answer::Body(Body::alone(own)),
        ),
        Some(common) => Outcome::Waits {
            pending: Pending::Common {
                request,
                note,
                common,
                own,
            },
            to: common.server,
            message: Message::FetchCommon {
                request,
                batch: common.batch,
            },
        },
    }
}

// What a letter makes of the fetch whose own bytes have come: the server of the common part gives its bytes, which
// come before the own ones.
pub(crate) fn hear_common(
    place: &Place,
    request: u64,
    note: UnitNote,
    common: CommonRef,
    own: Payload,
    room: &Room,
    message: Message,
) -> Outcome
    ensures { Hears place.now (Pending.Common request note common own) message room.now result }
{
    match message {
        Message::Bytes { body, .. } => ends(
            Change::Keeps,
            None,
            Call::Fetch { id: note.id },
            Answer::Body(Body::joined(body, own)),
        ),
        _ => Outcome::Strange,
    }
}
