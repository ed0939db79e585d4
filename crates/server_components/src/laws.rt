//! What the calls keep, over their definitions.

ghost use Rattle.std.specs.Prelude.{◌≡◌, ◌↔◌, [], ℕ, Any, List, Option, Some, None};
ghost use Rattle.adlb_unit.specs.Ring.{others};
ghost use Rattle.adlb_unit.specs.declared.configs.Config.{Config};
ghost use Rattle.adlb_unit.specs.declared.names.Rank.{Rank};
ghost use Rattle.adlb_unit.specs.declared.names.Server.{Server};
ghost use Rattle.adlb_unit.specs.declared.names.UnitId.{UnitId};
ghost use Rattle.adlb_unit.specs.declared.names.WorkType.{WorkType};
ghost use Rattle.adlb_unit.specs.declared.units.Unit.{Unit as Work};
ghost use Rattle.work_queue.specs.Best.{IsBest, IsOffered};
ghost use Rattle.work_queue.specs.Queue.{Queue, id_of, with_arrival, with_unit, without};
ghost use Rattle.work_queue.specs.declared.placing.Placed.{Placed};
ghost use Rattle.server_components.specs.Calls.{after_ask, after_none, given, gone, gone_if, hinted, hints_next, reserved, taker_of};
ghost use Rattle.server_components.specs.Grants.{best_for, with_grant};
ghost use Rattle.server_components.specs.Parked.{IsParked, ParkedModel, entry_of};
ghost use Rattle.server_components.specs.Rest.{NoneFits, NoneWished};
ghost use Rattle.server_components.specs.declared.waits.Waiting.{Waiting};
ghost use Rattle.server_components.specs.declared.wishes.Wish.{Wish};

/// What is granted is the best unit (`IsBest`), and nothing exactly if none is offered (`IsOffered`); and a server has
/// no others exactly if it is the only one.
pub fn grant_laws()
    ensures best { (q : Queue) (rank : Rank) (types : Option (List WorkType)) (p : Placed) →
        best_for q rank types ≡ Some p → IsBest rank types q.units (id_of p) }
    ensures none { (q : Queue) (rank : Rank) (types : Option (List WorkType)) →
        (best_for q rank types ≡ None) ↔ (¬ Any (IsOffered rank types) q.units) }
    ensures alone { (config : Config) (me : Server) → (others config me ≡ []) ↔ (config.servers ≡ 1) }
{}

/// No free unit lies for an idle rank (`NoneFits`). A reserve keeps this, and so do a hint, a unit that is granted or
/// that goes, and what another server answers. After a unit became free it holds again once the unit was offered.
pub fn parked_laws()
    ensures reserve { (q : Queue) (m : ParkedModel) (wish : Wish) → NoneFits q m →
        NoneFits (with_grant q wish.rank wish.types) (reserved m wish (best_for q wish.rank wish.types)) }
    ensures none { (q : Queue) (m : ParkedModel) (rank : Rank) (e : Waiting) → IsParked m →
        entry_of m rank ≡ Some e → NoneFits q m →
        NoneFits (with_grant q rank e.wish.types) (after_none m rank (best_for q rank e.wish.types)) }
    ensures gone { (q : Queue) (m : ParkedModel) (rank : Rank) → NoneFits q m → NoneFits q (gone m rank) }
    ensures hint { (q : Queue) (m : ParkedModel) (rank : Rank) (request : ℕ) (from : Server) → NoneFits q m →
        NoneFits q (hinted m rank request from) }
    ensures grant { (q : Queue) (m : ParkedModel) (rank : Rank) (types : Option (List WorkType)) → NoneFits q m →
        NoneFits (with_grant q rank types) m }
    ensures left { (q : Queue) (m : ParkedModel) (id : UnitId) → NoneFits q m → NoneFits (without q id) m }
    ensures offer { (q : Queue) (m : ParkedModel) (unit : Work) → NoneFits q m →
        NoneFits (given (taker_of unit m) (record { unit = unit; pin = None }) (with_unit q unit))
        (gone_if m (taker_of unit m)) }
    ensures arrival { (q : Queue) (m : ParkedModel) (unit : Work) → NoneFits q m →
        NoneFits (given (taker_of unit m) (record { unit = unit; pin = None }) (with_arrival q unit))
        (gone_if m (taker_of unit m)) }
{}

/// No free unit lies for a rank that waits elsewhere and has a wish here (`NoneWished`). A request of another home
/// keeps this, and so does a unit that is granted. After a unit became free it holds again once no wish is left
/// that it takes off.
pub fn wish_laws()
    ensures ask { (q : Queue) (m : ParkedModel) (wish : Wish) → NoneWished q m →
        NoneWished (with_grant q wish.rank wish.types) (after_ask m wish (best_for q wish.rank wish.types)) }
    ensures grant { (q : Queue) (m : ParkedModel) (rank : Rank) (types : Option (List WorkType)) → NoneWished q m →
        NoneWished (with_grant q rank types) m }
    ensures hint { (q : Queue) (m : ParkedModel) (unit : Work) → NoneWished q m →
        hints_next unit.kind unit.target m.parked.wishes ≡ None → NoneWished (with_unit q unit) m }
{}
