//! Lists of wanted types, and what is permitted.

use adlb_unit::{Rank, Target, Types, TypesFault, WorkType, class_for, permits};

// A list of this number of types is refused for this.
fn is_refused(kinds: &[WorkType], fault: TypesFault) -> bool {
    Types::list(kinds).err() == Some(fault)
}

#[test]
fn lists_from_one_to_sixteen(rt: HostRuntime) {
    let kinds = [WorkType(7); 17];
    assert!(rt; is_refused(&[], TypesFault::Empty));
    assert!(rt; is_refused(&kinds, TypesFault::TooMany { count: 17 }));
    assert!(rt; Types::list(&kinds[..16]).is_ok());
    assert!(rt; Types::list(&kinds[..1]).is_ok());
}

/// Targets, and their classes for rank 3.
const CLASSES: &[(Target, u8)] = &[
    (Target::Only(Rank(3)), 0),
    (Target::Soft(Rank(3)), 1),
    (Target::Any, 2),
    (Target::Soft(Rank(2)), 3),
    (Target::Only(Rank(2)), 4),
];

#[test]
fn classes_of_targets(rt: HostRuntime) {
    for (target, class) in CLASSES {
        assert!(rt; class_for(Rank(3), *target) == *class, "class {class}");
    }
}

/// Types and targets, and whether they are permitted to rank 3 that wants the types 1 and 4.
const PERMITTED: &[(u32, Target, bool)] = &[
    (4, Target::Any, true),
    (2, Target::Any, false),
    (1, Target::Only(Rank(3)), true),
    (1, Target::Only(Rank(2)), false),
    (1, Target::Soft(Rank(3)), true),
    (1, Target::Soft(Rank(2)), true),
    (2, Target::Soft(Rank(3)), false),
];

#[test]
fn permits_by_type_and_target(rt: HostRuntime) {
    let listed = Types::list(&[WorkType(1), WorkType(4)]).expect(&rt, "two types");
    for (at, (kind, target, wanted)) in PERMITTED.iter().enumerate() {
        assert!(rt;
            permits(Rank(3), &listed, WorkType(*kind), *target) == *wanted,
            "row {at}"
        );
    }
    assert!(rt; permits(Rank(0), &Types::any(), WorkType(99), Target::Any));
    assert!(rt; !permits(Rank(0), &Types::any(), WorkType(99), Target::Only(Rank(1))));
}
