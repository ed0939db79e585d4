//! What holds of the forms of units.

ghost use Rattle.std.specs.Prelude.{◌<◌, ℕ};
ghost use Rattle.flow_run_law.specs.Units.{AreForms, HasTypes};
ghost use Rattle.flow_units.specs.Bodies.{forms};

/// For every number of ranks, each unit is read back from what is put, and is for a rank of the run. Rules and
/// answers are told apart by their work types.
pub fn unit_laws()
    ensures forms { (ranks : ℕ) → 0 < ranks → AreForms ranks (forms ranks) }
    ensures types { (ranks : ℕ) → HasTypes (forms ranks) }
{}
