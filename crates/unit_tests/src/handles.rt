//! Handles of granted units.

use adlb_unit::{BatchId, CommonRef, Handle, Rank, Server, UnitId, UnitNote, WorkType};

fn note(common: Option<CommonRef>) -> UnitNote {
    UnitNote {
        id: UnitId {
            rank: Rank(1),
            number: 7,
        },
        kind: WorkType(2),
        prio: -5,
        answer: Some(Rank(0)),
        server: Server(3),
        common,
        length: 11,
    }
}

#[test]
fn a_handle_is_spent_once(rt: HostRuntime) {
    let part = CommonRef {
        batch: BatchId {
            rank: Rank(1),
            number: 4,
        },
        server: Server(0),
        length: 1000,
    };
    let rows = [(None, 11), (Some(part), 1011)];
    for (common, total) in rows {
        let handle = Handle::of(note(common));
        assert_eq!(rt; handle.note().server, Server(3));
        let sum = handle.total();
        let spent = handle.spend();
        assert_eq!(rt; sum, total);
        assert_eq!(rt; spent, note(common));
    }
}
