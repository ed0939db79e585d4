//! How units, their bodies and their work fit together.

ghost use Rattle.std.specs.Prelude.{◌≡◌, Some};
ghost use Rattle.work_law.specs.Work.{IsWork};
ghost use Rattle.tour_app.specs.Bodies.{common_part, shared};
ghost use Rattle.tour_app.specs.Starts.{IsStart, StartModel};
ghost use Rattle.tour_app.specs.Works.{tours};

/// The units of a run over cities are work (`work`): what is put is read back, what work makes needs no common part, and targets are ranks
/// that there are. A common part is read back (`shared`).
pub fn unit_laws()
    ensures work { IsWork tours }
    ensures shared { (s : StartModel) → IsStart s → shared (common_part s) ≡ Some s }
{}
