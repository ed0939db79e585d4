//! Actors, and configurations.

use adlb_unit::{Actor, Config, ConfigFault, Rank, Server};

const ACTORS: &[Actor] = &[
    Actor::Rank(Rank(0)),
    Actor::Rank(Rank(31)),
    Actor::Server(Server(0)),
    Actor::Server(Server(7)),
];

#[test]
fn ranks_and_servers_differ(rt: HostRuntime) {
    for place in 1..ACTORS.len() {
        assert!(rt; ACTORS[place - 1] != ACTORS[place]);
    }
    assert_eq!(rt; Actor::Server(Server(7)), ACTORS[3]);
}

const CONFIGS: &[(u32, u32, u64, Option<ConfigFault>)] = &[
    (0, 0, 0, Some(ConfigFault::Ranks { given: 0 })),
    (33, 1, 64, Some(ConfigFault::Ranks { given: 33 })),
    (1, 0, 0, Some(ConfigFault::Servers { given: 0 })),
    (32, 9, 63, Some(ConfigFault::Servers { given: 9 })),
    (1, 1, 63, Some(ConfigFault::Limit { given: 63 })),
    (
        1,
        1,
        1073741825,
        Some(ConfigFault::Limit { given: 1073741825 }),
    ),
    (1, 1, 64, None),
    (32, 8, 1073741824, None),
];

#[test]
fn refuses_the_first_number_outside(rt: HostRuntime) {
    for (ranks, servers, limit, fault) in CONFIGS {
        assert_eq!(rt; Config::new(*ranks, *servers, *limit).err(), *fault);
    }
}

/// Ranks with their homes, and the server after each.
const HOMES: &[(u32, u32, u32)] = &[(0, 0, 1), (1, 1, 2), (5, 2, 0), (6, 0, 1)];

#[test]
fn homes_and_the_ring(rt: HostRuntime) {
    let config = Config::new(8, 3, 64).expect(&rt, "within the limits");
    for (rank, home, next) in HOMES {
        assert_eq!(rt; config.home(Rank(*rank)), Server(*home));
        assert_eq!(rt; config.next(Server(*home)), Server(*next));
    }
}
