//! What is so of all ends of a run.

ghost use Rattle.std.specs.Prelude.{◌+◌, ℕ, List};
ghost use Rattle.adlb_unit.specs.declared.configs.Config.{Config};
ghost use Rattle.actor_desk.specs.Desks.{DeskModel, IsNew};
ghost use Rattle.thread_actors.specs.RankJobs.{Ended};
ghost use Rattle.thread_actors.specs.ServerJobs.{Ended as Served};
ghost use Rattle.adlb_threads.specs.Ends.{AreExpecting, AreOfDesks, AreReceived, HasTold, HaveEnded, IsCaller, desks_of_all};

/// Whatever the ranks and servers of a run in threads met, none of them ended by a letter that it did not expect. Each that was
/// started ended as its thread promises (`HaveEnded`). If a start was refused, the desks of those that were not started are as they were
/// made, and the caller has told servers alone that ranks are absent, as it does (`caller`). It is asked what is known once the desks
/// are cleared: what was received on each link is a prefix of what was sent there, and each letter is of one of the desks.
pub fn ends_laws<O>()
    ensures expected { (config : Config) (ends : List (Ended O)) (absent : List DeskModel) (served : List Served) (missing : List DeskModel)
        (caller : DeskModel) → HaveEnded config ends absent served missing caller → AreReceived (desks_of_all ends absent served missing caller) →
        AreOfDesks (desks_of_all ends absent served missing caller) → AreExpecting ends served }
    ensures caller { (config : Config) (servers absent : ℕ) (old new : DeskModel) → IsNew config (config.ranks + config.servers) old →
        HasTold servers absent old new → IsCaller config new }
{}
