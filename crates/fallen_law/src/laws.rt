//! What journals say whatever their actors met.

ghost use Rattle.std.specs.Prelude.{◌≡◌, ◌⊎◌, ◌<◌, ◌≤◌, ◌+◌, ◌*◌, ◌^◌, ◌∷◌, ◌++◌, ℕ, List, false, true, map, length};
ghost use mathlib.Core.List.{IsPrefix};
ghost use Rattle.adlb_unit.specs.Limits.{stamp_limit};
ghost use Rattle.adlb_unit.specs.Links.{is_within, place_of};
ghost use Rattle.adlb_unit.specs.declared.actors.Actor.{Actor};
ghost use Rattle.adlb_unit.specs.declared.configs.Config.{Config};
ghost use Rattle.adlb_unit.specs.declared.letters.Letter.{Letter};
ghost use Rattle.core_bound_law.specs.Bounds.{begun};
ghost use Rattle.core_run.specs.World.{actors};
ghost use Rattle.rank_mail.specs.Mailboxes.{letters_of};
ghost use Rattle.merge_history.specs.Events.{Event, OfActor};
ghost use Rattle.merge_history.specs.Own.{Finals, IsCoreRun, Walks, got, occurrence, sent};
ghost use Rattle.actor_desk.specs.Desks.{Begins, DeskModel, is_told, sent_at};
ghost use Rattle.fallen_law.specs.Fallen.{Expects, GoesOn, IsNext, TellsAfter, WouldBear, tells_trouble};

/// On each link what a journal got is a prefix of what the other sent. It is asked that what went through each
/// mailbox begins with what its journal says, and that the receiver's is its own run. So journals of actors that
/// failed compose, too (`links`). The first letter that was received after those of such a journal is the next of
/// what was sent there, if it does not tell of a failure (`next`). Where no more is known of it, it is that next one, or
/// it tells of a failure what its sender tells such a receiver (`first`). Let journals be a run of all actors, up to whatever
/// moment. An actor that has not ended then has a step for the next letter that it has not got, if the stamp is below
/// its limit. So no letter comes that is not expected (`expected`). Such a run has at most `8192 * (n + 1)` events if
/// `n` calls were begun in it (`few`). The stamp of the next letter is at most the number of events (`stamps`). So where
/// the next event of an actor would bear a stamp past the last one that is given, 2^34 calls were begun (`late`).
pub fn fallen_laws()
    ensures links { (config : Config) (finals : Finals) (me : Actor) (from to : ℕ) (d e : DeskModel) → d.config ≡ config →
        e.config ≡ config → from < actors config → to < actors config → Begins d → Begins e → Walks config finals me e.events →
        IsPrefix (letters_of from e.got) (sent_at d to) → IsPrefix (got config from e.events) (sent config to d.events) }
    ensures next { (config : Config) (finals : Finals) (me : Actor) (from to : ℕ) (d e : DeskModel) (letter : Letter)
        (later : List Letter) → d.config ≡ config → to < actors config → Begins d → Walks config finals me e.events →
        is_told letter.message ≡ false → letters_of from e.got ≡ got config from e.events ++ letter ∷ later →
        IsPrefix (letters_of from e.got) (sent_at d to) →
        (rest : List Letter) × (sent config to d.events ≡ got config from e.events ++ letter ∷ rest) }
    ensures first { (config : Config) (finals : Finals) (me from to : Actor) (d e : DeskModel) (letter : Letter) (later : List Letter) →
        TellsAfter config d from to → Walks config finals me e.events →
        letters_of (place_of config from) e.got ≡ got config (place_of config from) e.events ++ letter ∷ later →
        IsPrefix (letters_of (place_of config from) e.got) (sent_at d (place_of config to)) →
        ((rest : List Letter) ×
        (sent config (place_of config to) d.events ≡ got config (place_of config from) e.events ++ letter ∷ rest)) ⊎
        (tells_trouble from to letter.message ≡ true) }
    ensures expected { (config : Config) (finals : Finals) (journals : List OfActor) (events : List (Actor × Event)) (from to : Actor)
        (letter : Letter) (rest : List Letter) → IsCoreRun config finals journals events → is_within config from ≡ true →
        is_within config to ≡ true → IsNext config journals from to letter rest → GoesOn finals to → letter.stamp < stamp_limit →
        Expects config finals from to letter }
    ensures few { (config : Config) (finals : Finals) (journals : List OfActor) (events : List (Actor × Event)) →
        IsCoreRun config finals journals events →
        length events ≤ 8192 * (begun (map (λ (x : Actor × Event). occurrence x.0 x.1.cause) events) + 1) }
    ensures stamps { (config : Config) (finals : Finals) (journals : List OfActor) (events : List (Actor × Event)) (from to : Actor)
        (letter : Letter) (rest : List Letter) → IsCoreRun config finals journals events → is_within config from ≡ true →
        is_within config to ≡ true → IsNext config journals from to letter rest → letter.stamp ≤ length events }
    ensures late { (config : Config) (finals : Finals) (journals : List OfActor) (events : List (Actor × Event)) (actor : Actor)
        (stamp : ℕ) → IsCoreRun config finals journals events → is_within config actor ≡ true →
        WouldBear config finals journals actor stamp → stamp_limit ≤ stamp →
        2 ^ 34 ≤ begun (map (λ (x : Actor × Event). occurrence x.0 x.1.cause) events) }
{}
