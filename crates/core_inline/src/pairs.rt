//! One call in a world of one rank and one server, from its beginning to its answer.

ghost use Rattle.std.specs.Prelude.{◌≡◌, [], IfNone, IfOk, IfErr, IfSome, Some};
ghost use Rattle.bag_ledger.specs.declared.entries.Call.{Call};
ghost use Rattle.core_inline.specs.inside.Pairs.{IsAnswered, IsFailed, IsReady, IsUnderWay, asked, rank_in, told};
ghost use Rattle.rank_client.specs.Answers.{CanCall};

use adlb_unit::{Actor, Rank, Server, Trouble};
use bag_ledger::{Answer, Call};
use core_run::Event;
use core_world::World;

// One call: the rank begins it, and each letter is handled until it is answered and none is under way. Finish is answered at once,
// and the server handles its letter; a unit's own bytes may be followed by those of its common part.
pub(crate) fn exchange(world: &mut World, call: Call) -> Result<Answer, Trouble>
    requires ready { IsReady world.old }
    requires can { CanCall 1 1 (rank_in world.old).transcript call }
    ensures answered { IfOk result (λ a. IsAnswered (rank_in world.old).transcript call a world.new) }
    ensures failed { IfErr result (λ t. IsFailed (rank_in world.old).transcript call t world.new) }
    ensures trouble { IfErr result (λ t. world.new.trouble ≡ Some t) }
    ensures config { world.new.world.config ≡ world.old.world.config }
{
    let begun = world.carry_out(Event::Call(Rank(0), call))?;
    while let Some((from, to)) = next_letter(world) {
        if let Some(answer) = world.carry_out(Event::Deliver(from, to))? {
            return Ok(answer);
        }
    }
    match begun {
        Some(answer) => Ok(answer),
        None => unreachable!(),
    }
}

// From which actor to which a letter is under way, if one is.
fn next_letter(world: &World) -> Option<(Actor, Actor)>
    ensures under_way { IfSome result (λ way. IsUnderWay world.now.world way.0 way.1) }
    ensures none_asked { IfNone result (asked world.now.world ≡ []) }
    ensures none_told { IfNone result (told world.now.world ≡ []) }
{
    let rank = Actor::Rank(Rank(0));
    let server = Actor::Server(Server(0));
    if world.waiting(rank, server) > 0 {
        return Some((rank, server));
    }
    if world.waiting(server, rank) > 0 {
        return Some((server, rank));
    }
    None
}
