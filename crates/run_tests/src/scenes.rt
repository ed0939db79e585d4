//! Runs by hand in which homes ask other servers for their ranks, units move to where there is room, and all work is found used up.

ghost use Rattle.std.specs.Prelude.{◌≡◌};

use crate::rows::{Form, ledger_is};
use crate::stepped::has_left;
use adlb_unit::{Actor, Config, Payload, Rank, Server, Target, Types, UnitId, WorkType};
use bag_ledger::Call;
use core_run::Event;
use core_world::World;
use ledger_checker::first_illegal;
use std::alloc::Global;
use std::test::Fail;

// An event. A letter is handled by the rank or the server of the second number, from that of the first.
#[derive(Clone, Copy)]
enum Does {
    // The rank puts a unit of this type and target.
    Puts(u32, u32, Target),
    // The rank puts a unit of this length and priority, for any rank.
    PutsLong(u32, usize, i32),
    // The rank fetches the unit of this number, which the rank of the second number put.
    Fetches(u32, u32, u64),
    // The rank reserves a unit of any type, or of this one.
    Reserves(u32),
    ReservesOf(u32, u32),
    // The rank tries for a unit of any type; says that the problem is done; and finishes.
    Tries(u32),
    SetsDone(u32),
    Finishes(u32),
    Up(u32, u32),
    Across(u32, u32),
    Down(u32, u32),
}

use Does::{
    Across, Down, Fetches, Finishes, Puts, PutsLong, Reserves, ReservesOf, SetsDone, Tries, Up,
};

// What happens in a run with these numbers of ranks and servers, and the ledger that it leaves, each entry as
// `Form::Places` has it. The number says how many letters are under way at its end, and the texts what is left then at the
// first servers, as far as it is asked.
struct Scene {
    ranks: u32,
    servers: u32,
    events: &'static [Does],
    ledger: &'static str,
    letters: u64,
    left: &'static [&'static str],
}

const SCENES: &[Scene] = &[
    // The home looks at its own queue again after the other server had none: the unit that came meanwhile is granted, not before.
    Scene {
        ranks: 2,
        servers: 2,
        events: &[
            Reserves(1),
            Up(1, 1),
            Puts(0, 1, Target::Only(Rank(1))),
            Up(0, 1),
            Across(1, 0),
            Across(0, 1),
            Down(1, 1),
        ],
        ledger: "asked 1; putting 0; accepted 1; granted 1 to 1; ",
        letters: 1,
        left: &[],
    },
    // The second of two others has a unit; the first keeps the wish, and drops nothing by it.
    Scene {
        ranks: 3,
        servers: 3,
        events: &[
            Puts(2, 1, Target::Any),
            Up(2, 2),
            Reserves(0),
            Up(0, 0),
            Across(0, 1),
            Across(1, 0),
            Across(0, 2),
            Across(2, 0),
            Down(0, 0),
        ],
        ledger: "putting 2; accepted 2; asked 0; granted 2 to 0; ",
        letters: 1,
        left: &[],
    },
    // No server has one: the rank is idle, and a check is begun.
    Scene {
        ranks: 3,
        servers: 3,
        events: &[
            Reserves(0),
            Up(0, 0),
            Across(0, 1),
            Across(1, 0),
            Across(0, 2),
            Across(2, 0),
        ],
        ledger: "asked 0; ",
        letters: 1,
        left: &[],
    },
    // While the third server is asked, the second hints: it is asked again after the third.
    Scene {
        ranks: 3,
        servers: 3,
        events: &[
            Reserves(0),
            Up(0, 0),
            Across(0, 1),
            Across(1, 0),
            Puts(1, 1, Target::Any),
            Up(1, 1),
            Across(1, 0),
            Across(0, 2),
            Across(2, 0),
            Across(0, 1),
            Across(1, 0),
            Down(0, 0),
        ],
        ledger: "asked 0; putting 1; accepted 1; granted 1 to 0; ",
        letters: 1,
        left: &[],
    },
    // A hint for a rank that was granted a unit meanwhile comes too late, and nobody is asked.
    Scene {
        ranks: 2,
        servers: 2,
        events: &[
            Reserves(1),
            Up(1, 1),
            Across(1, 0),
            Across(0, 1),
            Puts(0, 1, Target::Only(Rank(1))),
            Up(0, 1),
            Down(1, 0),
            Puts(0, 1, Target::Any),
            Up(0, 1),
            Down(1, 0),
            Puts(0, 1, Target::Any),
            Up(0, 0),
            Across(0, 1),
        ],
        ledger: "asked 1; putting 0; accepted 1; granted 1 to 1; putting 0; accepted 1; putting 0; accepted 0; ",
        letters: 3,
        left: &[],
    },
    // A unit that is another rank's alone, or of another type, is not granted to a rank that is asked for.
    Scene {
        ranks: 4,
        servers: 2,
        events: &[
            Puts(0, 1, Target::Only(Rank(2))),
            Up(0, 0),
            Down(0, 0),
            Puts(0, 2, Target::Any),
            Up(0, 1),
            ReservesOf(3, 1),
            Up(3, 1),
            Across(1, 0),
            Across(0, 1),
        ],
        ledger: "putting 0; accepted 0; putting 0; accepted 1; asked 3; ",
        letters: 1,
        left: &[],
    },
    // A unit for which no rank waits takes off both wishes, that of the rank which it names before others first: it is asked for first.
    Scene {
        ranks: 4,
        servers: 2,
        events: &[
            Reserves(1),
            Up(1, 1),
            Across(1, 0),
            Across(0, 1),
            Reserves(3),
            Up(3, 1),
            Across(1, 0),
            Across(0, 1),
            Puts(0, 1, Target::Any),
            Up(0, 0),
            Across(0, 1),
            Across(0, 1),
            Across(1, 0),
            Across(1, 0),
            Across(1, 0),
            Across(0, 1),
            Across(0, 1),
            Down(1, 1),
        ],
        ledger: "asked 1; asked 3; putting 0; accepted 0; granted 0 to 1; ",
        letters: 1,
        left: &[],
    },
    // Of two idle ranks the one that the target names before others is granted.
    Scene {
        ranks: 3,
        servers: 1,
        events: &[
            Reserves(1),
            Up(1, 0),
            Reserves(2),
            Up(2, 0),
            Puts(0, 1, Target::Soft(Rank(2))),
            Up(0, 0),
            Down(0, 0),
            Down(0, 2),
        ],
        ledger: "asked 1; asked 2; putting 0; accepted 0; granted 0 to 2; ",
        letters: 0,
        left: &[],
    },
    // Where that one does not wait, the first that came is.
    Scene {
        ranks: 3,
        servers: 1,
        events: &[
            Reserves(1),
            Up(1, 0),
            Reserves(2),
            Up(2, 0),
            Puts(0, 1, Target::Soft(Rank(0))),
            Up(0, 0),
            Down(0, 0),
            Down(0, 1),
        ],
        ledger: "asked 1; asked 2; putting 0; accepted 0; granted 0 to 1; ",
        letters: 0,
        left: &[],
    },
    // Room is promised at the other server, but the unit is granted meanwhile: the push is taken back. The charge of server 1 is 0
    // again, and that of server 0 stays until the fetch.
    Scene {
        ranks: 2,
        servers: 2,
        events: &[
            PutsLong(0, 60, 0),
            Up(0, 0),
            Down(0, 0),
            Across(0, 1),
            Reserves(0),
            Up(0, 0),
            Across(1, 0),
            Across(0, 1),
            Across(1, 0),
            PutsLong(1, 65, 0),
            Up(1, 1),
            Down(1, 1),
            Up(1, 0),
            Down(0, 1),
        ],
        ledger: "putting 0; accepted 0; promised 1; asked 0; granted 0 to 0; withdrawn 1; putting 1; refused 1 by 0; \
            refused 0 by 60; rejected 1; ",
        letters: 1,
        left: &[],
    },
    // A push whose unit is fetched meanwhile.
    Scene {
        ranks: 2,
        servers: 2,
        events: &[
            PutsLong(0, 60, 0),
            Up(0, 0),
            Down(0, 0),
            Reserves(0),
            Up(0, 0),
            Down(0, 0),
            Fetches(0, 0, 0),
            Up(0, 0),
            Across(0, 1),
            Across(1, 0),
            Across(0, 1),
            Across(1, 0),
        ],
        ledger: "putting 0; accepted 0; asked 0; granted 0 to 0; fetching 0; fetched 0; promised 1; withdrawn 1; ",
        letters: 1,
        left: &[],
    },
    // The first push of server 2 goes to server 0, and its second to server 1.
    Scene {
        ranks: 3,
        servers: 3,
        events: &[
            PutsLong(2, 60, 0),
            Up(2, 2),
            Across(2, 0),
            Across(0, 2),
            Across(2, 0),
            Across(0, 2),
            PutsLong(1, 4, 0),
            Up(1, 1),
            Down(1, 1),
            PutsLong(1, 60, 0),
            Up(1, 2),
            Across(2, 1),
            Across(1, 2),
            Across(2, 1),
            Across(1, 2),
        ],
        ledger: "putting 2; accepted 2; promised 0; left 2 to 0; arrived 0; putting 1; accepted 1; putting 1; accepted 2; \
            promised 1; left 2 to 1; arrived 1; ",
        letters: 2,
        left: &[],
    },
    // Each server is full and refuses the other's push. After the next put one begins again, and there is room.
    Scene {
        ranks: 2,
        servers: 2,
        events: &[
            PutsLong(0, 60, 0),
            Up(0, 0),
            PutsLong(1, 60, 0),
            Up(1, 1),
            Down(1, 1),
            Across(0, 1),
            Across(1, 0),
            Across(1, 0),
            Across(0, 1),
            Reserves(1),
            Up(1, 1),
            Down(1, 1),
            Fetches(1, 1, 0),
            Up(1, 1),
            Down(1, 1),
            PutsLong(1, 4, 0),
            Up(1, 0),
            Across(0, 1),
            Across(1, 0),
            Across(0, 1),
            Across(1, 0),
        ],
        ledger: "putting 0; accepted 0; putting 1; accepted 1; asked 1; granted 1 to 1; fetching 1; fetched 1; putting 1; \
            accepted 0; promised 1; left 0 to 1; arrived 1; ",
        letters: 2,
        left: &[],
    },
    // A unit moves to the other server, and back as that one is pressed.
    Scene {
        ranks: 2,
        servers: 2,
        events: &[
            PutsLong(0, 60, 0),
            Up(0, 0),
            Across(0, 1),
            Across(1, 0),
            Across(0, 1),
            Across(1, 0),
            PutsLong(1, 4, 1),
            Up(1, 1),
            Across(1, 0),
            Across(0, 1),
            Across(1, 0),
            Across(0, 1),
        ],
        ledger: "putting 0; accepted 0; promised 1; left 0 to 1; arrived 1; putting 1; accepted 1; promised 0; left 1 to 0; \
            arrived 0; ",
        letters: 2,
        left: &[],
    },
    // Rank 1 is idle when rank 0 puts a unit at the other server, which hints: the home asks again, and the unit is granted there.
    // Rank 0 then finds none at either server.
    Scene {
        ranks: 2,
        servers: 2,
        events: &[
            Reserves(1),
            Up(1, 1),
            Across(1, 0),
            Across(0, 1),
            Puts(0, 1, Target::Any),
            Up(0, 0),
            Down(0, 0),
            Across(0, 1),
            Across(1, 0),
            Across(1, 0),
            Across(0, 1),
            Down(1, 1),
            Tries(0),
            Up(0, 0),
            Down(0, 0),
            Up(0, 1),
            Down(1, 0),
        ],
        ledger: "asked 1; putting 0; accepted 0; granted 0 to 1; tried 0; looked 0; looked 1; no current 0; ",
        letters: 0,
        left: &[],
    },
    // Rank 0 says that the problem is done: the rank that waits at the other server is told, and so is each later call.
    Scene {
        ranks: 2,
        servers: 2,
        events: &[
            Reserves(1),
            Up(1, 1),
            Across(1, 0),
            Across(0, 1),
            SetsDone(0),
            Up(0, 0),
            Down(0, 0),
            Up(0, 1),
            Down(1, 1),
            Down(1, 0),
            Puts(0, 1, Target::Any),
            Up(0, 0),
            Down(0, 0),
            Reserves(0),
        ],
        ledger: "asked 1; done 0; no more 1; putting 0; no more 0; asked 0; no more 0; ",
        letters: 1,
        left: &[],
    },
    // A rank for which another server is asked is told only once that server has answered.
    Scene {
        ranks: 2,
        servers: 2,
        events: &[
            Reserves(1),
            Up(1, 1),
            SetsDone(0),
            Up(0, 0),
            Down(0, 0),
            Up(0, 1),
            Down(1, 0),
            Across(1, 0),
            Across(0, 1),
            Down(1, 1),
        ],
        ledger: "asked 1; done 0; no more 1; ",
        letters: 0,
        left: &[],
    },
    // One rank looks at each of three servers, before and after it says that the problem is done.
    Scene {
        ranks: 1,
        servers: 3,
        events: &[
            Tries(0),
            Up(0, 0),
            Down(0, 0),
            Up(0, 1),
            Down(1, 0),
            Up(0, 2),
            Down(2, 0),
            SetsDone(0),
            Up(0, 0),
            Down(0, 0),
            Up(0, 1),
            Down(1, 0),
            Up(0, 2),
            Down(2, 0),
            Tries(0),
            Up(0, 0),
            Down(0, 0),
            Puts(0, 1, Target::Any),
        ],
        ledger: "tried 0; looked 0; looked 1; looked 2; no current 0; done 0; tried 0; no more 0; putting 0; no more 0; ",
        letters: 4,
        left: &[],
    },
    // All ranks wait while a unit travels: two checks fail, since its server is busy, and the third finds that all work is used up.
    Scene {
        ranks: 2,
        servers: 2,
        events: &[
            ReservesOf(0, 2),
            Up(0, 0),
            Across(0, 1),
            Across(1, 0),
            PutsLong(1, 60, 0),
            Up(1, 1),
            Down(1, 1),
            ReservesOf(1, 2),
            Up(1, 1),
            Across(1, 0),
            Across(1, 0),
            Across(0, 1),
            Across(0, 1),
            Across(0, 1),
            Across(1, 0),
            Across(0, 1),
            Across(1, 0),
            Across(1, 0),
            Across(0, 1),
            Across(0, 1),
            Across(1, 0),
            Across(1, 0),
            Across(0, 1),
            Across(1, 0),
            Across(0, 1),
            Down(0, 0),
            Down(1, 1),
        ],
        ledger: "asked 0; putting 1; accepted 1; asked 1; promised 0; left 1 to 0; arrived 0; exhausted; used up 0; used up 1; ",
        letters: 0,
        left: &[
            "[LeftUnit { id: UnitId { rank: Rank(1), number: 0 }, server: Server(0), pinned: None }]",
            "[]",
        ],
    },
    // Of three servers the last has a push that is open as the token comes: the check fails. The next one finds that all is used up.
    Scene {
        ranks: 3,
        servers: 3,
        events: &[
            PutsLong(2, 60, 0),
            Up(2, 2),
            Down(2, 2),
            ReservesOf(0, 2),
            Up(0, 0),
            ReservesOf(1, 2),
            Up(1, 1),
            ReservesOf(2, 2),
            Up(2, 2),
            Across(0, 1),
            Across(1, 0),
            Across(0, 2),
            Across(1, 2),
            Across(2, 1),
            Across(1, 0),
            Across(0, 1),
            Across(2, 0),
            Across(2, 0),
            Across(0, 2),
            Across(0, 2),
            Across(2, 1),
            Across(1, 2),
            Across(2, 0),
            Across(0, 1),
            Across(1, 2),
            Across(2, 0),
            Across(2, 0),
            Across(0, 2),
            Across(0, 1),
            Across(1, 2),
            Across(2, 0),
            Across(2, 0),
            Across(0, 1),
            Across(1, 2),
            Across(2, 0),
            Across(0, 1),
            Across(0, 2),
        ],
        ledger: "putting 2; accepted 2; asked 0; asked 1; asked 2; promised 0; left 2 to 0; arrived 0; exhausted; used up 0; \
            used up 1; used up 2; ",
        letters: 5,
        left: &[],
    },
    // A hint is under way for a unit that fits rank 0 as the token goes round: the check fails where the unit is, and rank 0 gets it.
    Scene {
        ranks: 3,
        servers: 3,
        events: &[
            ReservesOf(1, 2),
            Up(1, 1),
            Across(1, 2),
            Across(2, 1),
            Across(1, 0),
            Across(0, 1),
            ReservesOf(0, 1),
            Up(0, 0),
            Across(0, 1),
            Across(1, 0),
            Across(1, 0),
            Puts(2, 1, Target::Soft(Rank(1))),
            Up(2, 1),
            Down(1, 2),
            ReservesOf(2, 2),
            Up(2, 2),
            Across(2, 0),
            Across(0, 2),
            Across(0, 2),
            Across(2, 1),
            Across(1, 2),
            Across(2, 0),
            Across(2, 0),
            Across(0, 1),
            Across(1, 2),
            Across(2, 0),
            Across(0, 1),
            Across(1, 0),
            Across(1, 0),
            Across(0, 1),
        ],
        ledger: "asked 1; asked 0; putting 2; accepted 1; asked 2; granted 1 to 0; ",
        letters: 5,
        left: &[],
    },
];

fn event(alloc: Global, does: Does) -> Result<Event, Fail> {
    match does {
        Puts(rank, kind, target) => put(alloc, rank, kind, target),
        PutsLong(rank, size, prio) => put_long(alloc, rank, size, prio),
        Fetches(rank, by, number) => Ok(fetch(rank, by, number)),
        Reserves(rank) => Ok(reserve(rank, Types::any())),
        ReservesOf(rank, kind) => reserve_of(rank, kind),
        Tries(rank) => Ok(try_once(rank)),
        SetsDone(rank) => Ok(Event::Call(Rank(rank), Call::SetDone)),
        Finishes(rank) => Ok(Event::Call(Rank(rank), Call::Finish)),
        Up(rank, server) => Ok(Event::Deliver(a_rank(rank), a_server(server))),
        Across(from, to) => Ok(Event::Deliver(a_server(from), a_server(to))),
        Down(server, rank) => Ok(Event::Deliver(a_server(server), a_rank(rank))),
    }
}

fn put(alloc: Global, rank: u32, kind: u32, target: Target) -> Result<Event, Fail> {
    let body = Payload::copy(alloc, b"hello")?;
    Ok(put_of(rank, kind, 0, target, body))
}

fn put_long(alloc: Global, rank: u32, size: usize, prio: i32) -> Result<Event, Fail> {
    let bytes = vec![in alloc; b'x'; size]?;
    Ok(put_of(rank, 1, prio, Target::Any, Payload::from_vec(bytes)))
}

/// The rank puts this unit.
pub(crate) fn put_of(rank: u32, kind: u32, prio: i32, target: Target, body: Payload) -> Event {
    let call = Call::Put {
        kind: WorkType(kind),
        prio,
        target,
        answer: None,
        body,
    };
    Event::Call(Rank(rank), call)
}

/// The rank fetches the unit of this number, which the rank of the second number put.
pub(crate) fn fetch(rank: u32, by: u32, number: u64) -> Event {
    let id = UnitId {
        rank: Rank(by),
        number,
    };
    Event::Call(Rank(rank), Call::Fetch { id })
}

/// The rank reserves a unit of these types.
pub(crate) fn reserve(rank: u32, types: Types) -> Event {
    Event::Call(Rank(rank), Call::Reserve { types })
}

fn reserve_of(rank: u32, kind: u32) -> Result<Event, Fail> {
    let types = Types::list(&[WorkType(kind)])?;
    Ok(reserve(rank, types))
}

/// The rank tries for a unit of any type.
pub(crate) fn try_once(rank: u32) -> Event {
    let types = Types::any();
    Event::Call(Rank(rank), Call::Try { types })
}

fn a_rank(number: u32) -> Actor {
    Actor::Rank(Rank(number))
}

fn a_server(number: u32) -> Actor {
    Actor::Server(Server(number))
}

// How many letters are under way in the world.
fn letters(world: &World, ranks: u32, servers: u32) -> u64 {
    let mut letters: u64 = 0;
    for server in 0..servers {
        for rank in 0..ranks {
            let (a, b) = (a_rank(rank), a_server(server));
            letters = letters.saturating_add(world.waiting(a, b));
            letters = letters.saturating_add(world.waiting(b, a));
        }
        for other in 0..servers {
            letters = letters.saturating_add(world.waiting(a_server(other), a_server(server)));
        }
    }
    letters
}

fn happens(alloc: Global, world: &mut World, does: Does) -> Result<bool, Fail>
    ensures { world.new.world.config ≡ world.old.world.config }
{
    let event = event(alloc, does)?;
    Ok(world.apply(event).is_ok())
}

// Each of the events can happen.
fn all_happen(alloc: Global, world: &mut World, events: &[Does]) -> Result<bool, Fail>
    ensures { world.new.world.config ≡ world.old.world.config }
{
    for does in events {
        if !happens(alloc, world, *does)? {
            return Ok(false);
        }
    }
    Ok(true)
}

// At the first servers of the world, of this number, these units are left.
fn are_left(alloc: Global, world: &World, servers: u32, left: &[&str]) -> Result<bool, Fail>
    requires { world.now.world.config.servers ≡ servers }
{
    let mut number: u32 = 0;
    for wanted in left {
        if !has_left(alloc, world, servers, number, wanted)? {
            return Ok(false);
        }
        number = number.saturating_add(1);
    }
    Ok(true)
}

// What happens in the scene leaves what it says, with a legal ledger.
fn leaves(alloc: Global, world: &mut World, config: Config, scene: &Scene) -> Result<bool, Fail>
    requires { world.old.world.config ≡ config }
{
    Ok(
        all_happen(alloc, world, scene.events)?
            && first_illegal(alloc, world.ledger(), &config) == Ok(None)
            && letters(world, config.ranks, config.servers) == scene.letters
            && ledger_is(alloc, world.ledger(), Form::Places, scene.ledger)?
            && are_left(alloc, world, config.servers, scene.left)?,
    )
}

fn is_so(alloc: Global, scene: &Scene) -> Result<bool, Fail> {
    let config = Config::new(scene.ranks, scene.servers, 64)?;
    let mut world = World::new(alloc, config)?;
    leaves(alloc, &mut world, config, scene)
}

#[test]
fn homes_ask_and_units_move(rt: HostRuntime) -> Result<(), Fail> {
    for (at, scene) in SCENES.iter().enumerate() {
        assert!(rt; is_so(rt.alloc(), scene)?, "scene {at}");
    }
    Ok(())
}
