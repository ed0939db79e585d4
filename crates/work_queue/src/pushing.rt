//! What counts when the first unit to push is sought by going over the units (`pick_to_push` of `specs/Push.antt`).

use adlb_unit::UnitId;

// What counts of a unit when the first to push is sought, and its length, which is told.
#[derive(Clone, Copy)]
pub struct Candidate {
    pub id: UnitId,
    pub length: u32,
    pub prio: i32,
}
