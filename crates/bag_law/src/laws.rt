//! What holds of the bag after every legal run, and what is read off a sound bag.

ghost use Rattle.std.specs.Prelude.{Bool, ◌≡◌, ◌≤◌, ◌+◌, ℕ, List, Some, None, false, true, count_by, sum_by, length};
ghost use Rattle.adlb_unit.specs.declared.configs.Config.{Config};
ghost use Rattle.adlb_unit.specs.declared.names.BatchId.{BatchId};
ghost use Rattle.adlb_unit.specs.declared.names.CommonRef.{CommonRef};
ghost use Rattle.adlb_unit.specs.declared.names.Rank.{Rank};
ghost use Rattle.adlb_unit.specs.declared.names.Server.{Server};
ghost use Rattle.adlb_unit.specs.declared.names.UnitId.{UnitId};
ghost use Rattle.adlb_unit.specs.declared.units.Unit.{Unit};
ghost use Rattle.bag_ledger.specs.declared.entries.Entry.{Entry};
ghost use Rattle.bag_ledger.specs.declared.states.Part.{Part};
ghost use Rattle.bag_ledger.specs.declared.states.Placed.{Placed};
ghost use Rattle.bag_ledger.specs.declared.states.RankState.{RankState};
ghost use Rattle.bag_ledger.specs.declared.states.Status.TheVariants as does;
ghost use Rattle.bag_ledger.specs.declared.states.UnitPlace.TheVariants as lies;
ghost use Rattle.bag_ledger.specs.Bag.{Bag, has_due, part_of, start, unit_of};
ghost use Rattle.bag_ledger.specs.Runs.{IsRunWhere, calls};
ghost use Rattle.bag_ledger.specs.Steps.{Is, LegalWhere, after};
ghost use Rattle.bag_ledger.specs.Words.{accepts, fetches, grants, puts, refuses};
ghost use Rattle.bag_law.specs.Calls.{AreTrueCalls};
ghost use Rattle.bag_law.specs.Counts.{dues, frees, is_spent, may_make_due, owes, unspent};
ghost use Rattle.bag_law.specs.Sound.{AreFound, AreUsed, IsKept, IsSoundBag};

/// Whatever is asked where exhaustion is found (`found`): each legal entry keeps a sound bag sound (`step`), so the bag is
/// sound after every legal run (`sound`). In the calls of a rank no unit was granted twice. Each note tells its unit, which is
/// pinned to the rank at the note's server, or spent. What was fetched is spent (`calls`).
pub fn every_run_is_sound()
    ensures step { (found : Bag → Bool) (b : Bag) (e : Entry) → LegalWhere found b e → IsSoundBag b → IsSoundBag (after b e) }
    ensures sound { (found : Bag → Bool) (config : Config) (ledger : List Entry) (last : Bag) →
        IsRunWhere found (start config) ledger last → IsSoundBag last }
    ensures calls { (found : Bag → Bool) (config : Config) (ledger : List Entry) (last : Bag) (rank : Rank) →
        IsRunWhere found (start config) ledger last → AreTrueCalls rank (calls config ledger rank) last }
{}

/// Whatever is asked where exhaustion is found (`found`): in no legal run is a unit put (`put_once`), accepted
/// (`accepted_once`), granted (`granted_once`) or fetched (`fetched_once`) twice.
pub fn no_unit_is_taken_twice()
    ensures put_once { (found : Bag → Bool) (config : Config) (ledger : List Entry) (last : Bag) (id : UnitId) →
        IsRunWhere found (start config) ledger last → count_by (puts id) ledger ≤ 1 }
    ensures accepted_once { (found : Bag → Bool) (config : Config) (ledger : List Entry) (last : Bag) (id : UnitId) →
        IsRunWhere found (start config) ledger last → count_by (accepts id) ledger ≤ 1 }
    ensures granted_once { (found : Bag → Bool) (config : Config) (ledger : List Entry) (last : Bag) (id : UnitId) →
        IsRunWhere found (start config) ledger last → count_by (grants id) ledger ≤ 1 }
    ensures fetched_once { (found : Bag → Bool) (config : Config) (ledger : List Entry) (last : Bag) (id : UnitId) →
        IsRunWhere found (start config) ledger last → count_by (fetches id) ledger ≤ 1 }
{}

/// Whatever is asked where exhaustion is found (`found`). In no legal run does a server refuse twice what a rank brings in a call, be
/// it a unit or a batch that begins.
pub fn no_call_is_refused_twice()
    ensures { (found : Bag → Bool) (config : Config) (ledger : List Entry) (last : Bag) (server : Server) (rank : Rank) (call : ℕ) →
        IsRunWhere found (start config) ledger last → count_by (refuses server rank call) ledger ≤ 1 }
{}

/// What is read off a sound bag. A unit that a rank puts is not there yet, is the rank's, and shares the rank's batch
/// (`put_is_new`). Each unit, part and promise is the one that its id finds (`are_found`), and its number was used
/// (`are_used`). Of a part that is there as many units were accepted as its bytes were fetched, its units are not spent, and
/// ranks are owed them (`part_counts`). So the part of a unit that is not spent is kept (`unspent_is_kept`), and so is that of
/// a unit whose common bytes a rank is owed (`owed_is_kept`). A unit whose own bytes are fetched is pinned to the rank
/// (`fetch_is_pinned`). A rank's batch is an open part (`batch_is_open`). Only the end of a batch and common bytes that come
/// may make a part due, one at most (`made_due`). No part is due where they count to 0 (`none_due`, `not_due`).
pub fn sound_bag_laws()
    ensures put_is_new { (b : Bag) → IsSoundBag b → (rank : Rank) (r : RankState) (u : Unit) → Is b rank r → r.status ≡ does.Putting u →
        (u.id.rank.0 ≡ rank.0) × (unit_of b u.id ≡ None) × (u.common ≡ r.batch) }
    ensures are_found { (b : Bag) → IsSoundBag b → AreFound b }
    ensures are_used { (b : Bag) → IsSoundBag b → AreUsed b }
    ensures part_counts { (b : Bag) → IsSoundBag b → (batch : BatchId) (p : Part) → part_of b batch ≡ Some p →
        p.accepted ≡ p.fetched + sum_by (unspent batch) b.units + owes batch b.units b.ranks }
    ensures unspent_is_kept { (b : Bag) → IsSoundBag b → (id : UnitId) (u : Placed) (c : CommonRef) → unit_of b id ≡ Some u →
        is_spent u.place ≡ false → u.unit.common ≡ Some c → IsKept b c }
    ensures owed_is_kept { (b : Bag) → IsSoundBag b → (rank : Rank) (r : RankState) (call : ℕ) (id : UnitId) → Is b rank r →
        r.status ≡ does.Fetching call id true →
        (u : Placed) × (c : CommonRef) × (unit_of b id ≡ Some u) × (u.place ≡ lies.Spent) × (u.unit.common ≡ Some c) × IsKept b c }
    ensures fetch_is_pinned { (b : Bag) → IsSoundBag b → (rank : Rank) (r : RankState) (call : ℕ) (id : UnitId) → Is b rank r →
        r.status ≡ does.Fetching call id false →
        (u : Placed) × (server : Server) × (unit_of b id ≡ Some u) × (u.place ≡ lies.Pinned server rank) }
    ensures batch_is_open { (b : Bag) → IsSoundBag b → (rank : Rank) (r : RankState) (c : CommonRef) → Is b rank r → r.batch ≡ Some c →
        (c.batch.rank.0 ≡ rank.0) × ((p : Part) × (part_of b c.batch ≡ Some p) × (p.closed ≡ false) × (p.freed ≡ false)
        × (p.server ≡ c.server) × (length p.common ≡ c.length)) }
    ensures made_due { (found : Bag → Bool) (b : Bag) (e : Entry) → LegalWhere found b e → IsSoundBag b →
        dues (after b e).parts + frees e ≤ dues b.parts + may_make_due e }
    ensures none_due { (b : Bag) → has_due b ≡ false → dues b.parts ≡ 0 }
    ensures not_due { (b : Bag) → dues b.parts ≡ 0 → has_due b ≡ false }
{}
