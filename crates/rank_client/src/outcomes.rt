//! What a letter makes of the call that is pending.

ghost use Rattle.std.specs.Prelude.{◌≡◌, ◌≤◌, ◌<◌, ◌+◌, ◌∷◌, ◌++◌, [], None, Some};
ghost use Rattle.std.specs.Vec.{vec_capacity, vec_len};
ghost use Rattle.adlb_unit.specs.Limits.{stamp_limit};
ghost use Rattle.adlb_unit.specs.declared.configs.Config.{Config};
ghost use Rattle.bag_ledger.specs.declared.entries.Answer.{Answer};
ghost use Rattle.rank_client.specs.inside.{Fits, IsPlaced, accepted_after, batch_after, end_after, handles_after, response_of};
ghost use Rattle.rank_client.specs.Rules.{ends};
ghost use Rattle.rank_client.specs.State.{ClientModel};
ghost use Rattle.rank_client.specs.declared.outcomes.Change.{Change};
ghost use Rattle.rank_client.specs.declared.outcomes.Outcome.{Outcome};
ghost use Rattle.rank_client.specs.declared.rooms.Room.{Room};

use crate::pendings::Pending;
use adlb_unit::{CommonRef, Config, End, Message, Rank, Server, UnitNote};
use bag_ledger::{Answer, Call, Entry, Said};

// What a client is and stays.
#[derive(Drop)]
pub(crate) struct Place {
    pub(crate) config: Config,
    pub(crate) me: Rank,
}

// What the answer of a call changes of the client, besides the transcript.
#[derive(Drop)]
pub(crate) enum Change {
    // Nothing else.
    Keeps,
    // One more put was accepted.
    Accepted,
    // A batch has begun, with no unit.
    Begun(CommonRef),
    // The batch has ended.
    Closed,
    // An end was told.
    Ended(End),
    // A unit was granted.
    Granted(UnitNote),
}

// What a letter makes of the call that it answers.
#[derive(Drop)]
pub(crate) enum Outcome {
    // The call has its answer, and one entry at most.
    Ends {
        change: Change,
        entry: Option<Entry>,
        said: Said,
    },
    // The call waits for a letter of the server that is asked next.
    Waits {
        pending: Pending,
        to: Server,
        message: Message,
    },
    // No such letter answers the call.
    Strange,
}

// Makes the change.
pub(crate) fn make_change(
    batch: &mut Option<CommonRef>,
    accepted: &mut u64,
    end: &mut Option<End>,
    handles: &mut Vec<UnitNote>,
    change: Change,
)
    requires few { accepted.old < stamp_limit }
    requires space { vec_len handles.old + 1 ≤ vec_capacity handles.old }
    ensures batch { batch.new ≡ batch_after batch.old change }
    ensures accepted { accepted.new ≡ accepted_after accepted.old change }
    ensures end { end.new ≡ end_after end.old change }
    ensures handles { handles.new.items ≡ handles_after handles.old.items change }
    ensures space { vec_len handles.new ≤ vec_capacity handles.new }
{
    match change {
        Change::Keeps => {}
        Change::Accepted => *accepted += 1,
        Change::Begun(part) => {
            *batch = Some(part);
            *accepted = 0;
        }
        Change::Closed => *batch = None,
        Change::Ended(told) => *end = Some(told),
        Change::Granted(note) => handles.push_reserved(note),
    }
}

// The call has this answer, and this entry, if it is one.
pub(crate) fn ends(change: Change, entry: Option<Entry>, call: Call, answer: Answer) -> Outcome
    ensures { result ≡ Outcome.Ends change entry (record { call = call; answer = answer }) }
{
    Outcome::Ends {
        change,
        entry,
        said: Said { call, answer },
    }
}

// The call is answered by a unit.
pub(crate) fn granted(call: Call, note: UnitNote) -> Outcome
    ensures response { (s : ClientModel) → response_of s result ≡ Some (ends (record s { handles = s.handles ++ note ∷ [] }) [] call (Answer.Granted note)) }
    ensures fits { (config : Config) (room : Room) → IsPlaced config note → Fits config room result }
{
    ends(Change::Granted(note), None, call, Answer::Granted(note))
}

// The call is answered by an end.
pub(crate) fn ended(end: End, call: Call) -> Outcome
    ensures { result ≡ Outcome.Ends (Change.Ended end) None (record { call = call; answer = Answer.Ended end }) }
{
    ends(Change::Ended(end), None, call, Answer::Ended(end))
}
