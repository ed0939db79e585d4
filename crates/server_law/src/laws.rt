//! What holds of a server's steps.

ghost use Rattle.server_law.specs.Agreement.{StartAgrees};
ghost use Rattle.server_law.specs.Calm.{AskedAreLeft, AskedWaitOn, EventsKeepCalm, EventsKeepOnce, EventsPay, StartIsCalm};
ghost use Rattle.server_law.specs.Expected.{ExpectedHaveSteps};
ghost use Rattle.server_law.specs.Quiet.{QuietIsTested};
ghost use Rattle.server_law.specs.Sure.{ActsHandle};

/// The bag at the start of a run agrees with each server (`StartAgrees`). Exactly the letters that are expected have a
/// step (`ExpectedHaveSteps`). A letter is handled by the acts of its rule. The first takes it, the others take none, each
/// finds the server as it needs it, and hints are of wishes that were kept (`ActsHandle`). The test of a quiet server says
/// what it is meant to (`QuietIsTested`).
pub fn server_laws()
    ensures start_agrees { StartAgrees }
    ensures expected_have_steps { ExpectedHaveSteps }
    ensures acts_handle { ActsHandle }
    ensures quiet_is_tested { QuietIsTested }
{}

/// At the start and after each event no rank waits twice (`WaitOnce`), and no free unit is permitted to a rank that waits and
/// is idle (`IsCalm`). A rank for which another server was asked waits on until that server answers (`AskedWaitOn`). Until
/// then, but by letters of its own, no unit of its home is granted to it and its call is not over (`AskedAreLeft`). An event
/// in which a unit comes from another server says its acknowledgement, so that no acknowledgement is owed between events
/// (`EventsPay`).
pub fn calm_laws()
    ensures start_is_calm { StartIsCalm }
    ensures events_keep_once { EventsKeepOnce }
    ensures events_keep_calm { EventsKeepCalm }
    ensures asked_wait_on { AskedWaitOn }
    ensures asked_are_left { AskedAreLeft }
    ensures events_pay { EventsPay }
{}
