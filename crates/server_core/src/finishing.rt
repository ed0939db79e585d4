//! The letter Finish.

ghost use Rattle.std.specs.Prelude.{◌≡◌, ◌<◌};
ghost use Rattle.server_law.specs.Acts.{Act, Notes_finish};
ghost use Rattle.server_law.specs.Carried.{done};
ghost use Rattle.server_law.specs.State.{Kept, ServerModel};

use crate::states::ServerState;
use adlb_unit::Rank;

impl ServerState {
    // The rank has finished.
    pub(crate) fn finish(&mut self, from: Rank)
        requires { from.0 < self.old.config.ranks }
        ensures { self.new ≡ done (Notes_finish from) self.old }
    {
        self.finished[from.0 as usize] = true;
    }
}
