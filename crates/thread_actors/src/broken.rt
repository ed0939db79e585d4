//! What a server does that a letter broke: it tells all whom that concerns, and reads on until each rank is over.

ghost use Rattle.std.specs.Prelude.{◌≡◌, ◌<◌, ℕ, Some, slice_get};
ghost use Rattle.rank_mail.specs.declared.posted.Posted.{Posted};
ghost use Rattle.server_law.specs.State.{ServerModel};
ghost use Rattle.thread_actors.specs.World.{rank_named};
ghost use Rattle.thread_actors.specs.inside.Serving.{AreTold, EndsBroken, IsCut};
ghost use Rattle.thread_actors.specs.ServerJobs.{told_by_answer, told_ranks, told_servers, waits_for};

use crate::faults::ActorFault;
use crate::rolls::{Roll, awaits_answer};
use actor_desk::{Desk, Mailing};
use adlb_unit::{Actor, Config, Letter, Message, Rank, Server, Trouble};
use std::sync::Wait;

// That a letter breaks a server: why, whether a step of its own failed, and who waits for it and who is over.
#[derive(Drop)]
pub(crate) struct Break {
    pub(crate) fault: ActorFault,
    pub(crate) own: bool,
    pub(crate) roll: Roll,
}

// Tells all whom it concerns that a letter broke the server. Then it reads on until each rank is over, answers each letter
// whose rank waits for that, and ignores the rest. It takes no memory.
pub(crate) fn break_down<R: Wait, M: Mailing>(
    rt: &R,
    desk: &mut Desk<M>,
    config: &Config,
    me: Server,
    broken: Break,
)
    requires config { desk.old.config ≡ config.now }
    requires cut { IsCut me desk.old broken.roll.waits broken.roll.over broken.fault broken.own }
    ensures broken { EndsBroken me desk.new broken.fault broken.own }
    ensures config { desk.new.config ≡ desk.old.config }
    ensures number { desk.new.number ≡ desk.old.number }
{
    let Break {
        fault,
        mut roll,
        ..
    } = broken;
    let trouble = fault.told();
    tell_servers(rt, desk, config, me, trouble);
    tell_ranks(rt, desk, config, &roll, trouble);
    for _ in rt.forever() {
        if !roll.goes_on(config.ranks) {
            return;
        }
        let (from, letter) = desk.receive(rt);
        roll.note(config, from, &letter.message);
        answer(rt, desk, config, trouble, from, &letter);
        drop(letter);
    }
    unreachable!()
}

// Tells each other server.
fn tell_servers<R: Wait, M: Mailing>(
    rt: &R,
    desk: &mut Desk<M>,
    config: &Config,
    me: Server,
    trouble: Trouble,
)
    ensures { AreTold desk.old (told_servers config.now me trouble) desk.new }
{
    for number in 0..config.servers {
        if number != me.0 {
            let message = Message::Abort { trouble, absent: 0 };
            desk.tell(rt, Actor::Server(Server(number)), message);
        }
    }
}

// Tells each rank that waits for the server.
fn tell_ranks<R: Wait, M: Mailing>(
    rt: &R,
    desk: &mut Desk<M>,
    config: &Config,
    roll: &Roll,
    trouble: Trouble,
)
    ensures { (s : ServerModel) (x : Posted)
        → ((k : ℕ) → k < config.now.ranks → slice_get roll.now.waits k ≡ Some (waits_for s x (rank_named k)))
        → AreTold desk.old (told_ranks config.now s x trouble) desk.new }
{
    for number in 0..config.ranks {
        if roll.is_waiting(number) {
            desk.tell(rt, Actor::Rank(Rank(number)), Message::Broken { trouble });
        }
    }
}

// Answers a letter of the actor of this number, if a rank waits for the answer.
fn answer<R: Wait, M: Mailing>(
    rt: &R,
    desk: &mut Desk<M>,
    config: &Config,
    trouble: Trouble,
    from: u32,
    letter: &Letter,
)
    ensures { AreTold desk.old (told_by_answer config.now trouble (record { from = from; letter = letter.now })) desk.new }
{
    if from < config.ranks && awaits_answer(&letter.message) {
        desk.tell(rt, Actor::Rank(Rank(from)), Message::Broken { trouble });
    }
}
