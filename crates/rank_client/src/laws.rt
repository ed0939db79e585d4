//! What holds of each step of a rank.

ghost use Rattle.std.specs.Prelude.{◌≡◌, Bool, None, Some, IsFalse};
ghost use Rattle.adlb_unit.specs.declared.letters.Letter.{Letter};
ghost use Rattle.adlb_unit.specs.declared.names.Server.{Server};
ghost use Rattle.bag_ledger.specs.declared.entries.Call.{Call};
ghost use Rattle.bag_ledger.specs.Bag.{Bag, has_due};
ghost use Rattle.rank_client.specs.Agreement.{ClientAgrees, Follows};
ghost use Rattle.rank_client.specs.Expected.{ExpectedAreHeard};
ghost use Rattle.rank_client.specs.Granted.{GrantsComeFirst};
ghost use Rattle.rank_client.specs.Says.{StepsTell};
ghost use Rattle.rank_client.specs.State.{ClientModel};
ghost use Rattle.rank_client.specs.Step.{Made, begin, hear};

/// Let the client agree with its rank of a bag in which no part is due. Then the entries of a step are steps of the
/// bag, and the client agrees with its rank afterwards. Its transcript is then what the ledger says of this rank;
/// while the servers are told that the problem is done, the ledger has that call already. So it is whatever is asked
/// where exhaustion is found (`found`). And exactly the letters that are expected have a step (`ExpectedAreHeard`),
/// and a rank holds, fetches and fetched no unit that was not granted (`GrantsComeFirst`).
pub fn client_laws()
    ensures begun { (found : Bag → Bool) (s : ClientModel) (call : Call) (x : Made) (b : Bag) →
        begin s call ≡ Some x → ClientAgrees s None b → IsFalse (has_due b) → Follows found s None b x }
    ensures heard { (found : Bag → Bool) (s : ClientModel) (from : Server) (letter : Letter) (x : Made) (b : Bag) →
        hear s from letter ≡ Some x → ClientAgrees s (Some letter.message) b → IsFalse (has_due b) → Follows found s (Some letter.message) b x }
    ensures expected_are_heard { ExpectedAreHeard }
    ensures grants_come_first { GrantsComeFirst }
{}

/// What each step of a rank makes of its transcript, with any number of servers. It is about the call that is begun
/// or pending. Once the call has an answer, it is added with it, and the answer is one that such a call can have. And
/// the rank is ready for each call that it can make (`StepsTell`).
pub fn says_laws()
    ensures { StepsTell }
{}
