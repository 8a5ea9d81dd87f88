// Laws on the rounds of domains. Their functions do nothing.

ghost use Rattle.std.specs.Prelude.{◌≡◌, ℕ, suc, Bool, Option, List, [], ◌∷◌, ◌++◌, length};
ghost use Rattle.cell_core.specs.declared.moves.Side.{Side};
ghost use Rattle.cell_core.specs.declared.moves.Joined.{Joined};
ghost use Rattle.kernel_terms.specs.Marks.{Mark, Going};
ghost use Rattle.kernel_rules.specs.definitions.LegalTick.{DomainState};
ghost use Rattle.tick_log.specs.definitions.Runs.{RunState, Entry};
ghost use Rattle.domain_core.specs.definitions.runs.Systems.{Setup, IsSystem, IsFresh};
ghost use Rattle.domain_core.specs.definitions.runs.LegalRuns.{Fits};
ghost use Rattle.domain_core.specs.definitions.rounds.Rounds.{Offer, Rounds, RecallsStanding};
ghost use Rattle.domain_core.specs.definitions.rounds.Rounds.{IsRounds, IsOpenRounds, MakesRound};
ghost use Rattle.domain_core.specs.definitions.rounds.Rounds.{no_rounds, with_round, with_recalls};
ghost use Rattle.domain_core.specs.definitions.rounds.Rounds.{MoveMade, RoundsFit, RunsLegally};
ghost use Rattle.domain_core.specs.definitions.rounds.Rounds.{moves_from, offer_move, recall_move};
ghost use Rattle.domain_core.specs.definitions.rounds.Rounds.{found_at_offer, found_at_recall};
ghost use Rattle.domain_core.specs.definitions.rounds.Rounds.{found_entry, found_from};
ghost use Rattle.domain_core.specs.definitions.rounds.Interleavings.{Action, IsInterleaving};
ghost use Rattle.domain_core.specs.definitions.rounds.Interleavings.{IsOpenInterleaving, CanBeClosed};

/// Rounds of the domains that fit the cell histories of the channels make the run legal. Where no
/// round is cut, it is at rest after the last recalls.
pub fn rounds_are_legal()
    ensures { (setup : Setup) (r : RunState) (rounds : ℕ → Rounds) → IsSystem setup →
        IsFresh setup → Fits setup r → RoundsFit setup r rounds → RunsLegally setup r rounds }
{}

/// In every list of ticks and moves in which each domain's own are its rounds, in their order, and
/// each cell replies by its rule to the moves, and after them to the last recalls, the rounds fit.
pub fn interleavings_fit()
    ensures { (setup : Setup) (r : RunState) (rounds : ℕ → Rounds) (actions : List Action)
        (last_recalls : ℕ → List MoveMade) → IsSystem setup →
        IsInterleaving setup r rounds actions last_recalls → RoundsFit setup r rounds }
{}

/// Every list of ticks and moves in which each domain's own are its rounds so far, the last one
/// maybe cut, and each cell replies by its rule, has last recalls and histories with which the
/// rounds fit.
pub fn interleavings_close()
    ensures { (setup : Setup) (r : RunState) (rounds : ℕ → Rounds) (actions : List Action) →
        IsSystem setup → IsOpenInterleaving setup r rounds actions → CanBeClosed setup r rounds }
{}

/// A domain has open rounds at its start, and with one round more they are open rounds still. With
/// the recalls of what stands, a cut round's first part or last recalls, they are whole rounds.
pub fn rounds_grow()
    ensures begun { (setup : Setup) (d : ℕ) →
        IsOpenRounds setup d [] Going (no_rounds setup d) }
    ensures grown { (setup : Setup) (d : ℕ) (entries : List Entry) (mark : Mark) (x : Rounds)
        (recalls : ℕ → Option (Option Joined)) (entry : Entry) (after : DomainState)
        (offers : ℕ → Option Offer) → IsOpenRounds setup d entries mark x →
        MakesRound setup d entries x recalls entry after offers →
        IsOpenRounds setup d (entries ++ entry ∷ []) after.mark
        (with_round x (length entries) recalls after offers) }
    ensures closed { (setup : Setup) (d : ℕ) (entries : List Entry) (mark : Mark) (x : Rounds)
        (recalls : ℕ → Option (Option Joined)) (cut : Bool) →
        IsOpenRounds setup d entries mark x →
        ((c : ℕ) → RecallsStanding (x.offers (length entries) c) (recalls c)) →
        IsRounds setup d entries mark (with_recalls x (length entries) recalls cut) }
{}

/// With one round more, the moves of an end are those before, its recall and its offer, and it has
/// found the joins before and those of these two. With the recalls alone they grow by the recall.
pub fn moves_and_joins_grow()
    ensures moves_grown { (setup : Setup) (d : ℕ) (entries : List Entry) (mark : Mark) (x : Rounds)
        (recalls : ℕ → Option (Option Joined)) (entry : Entry) (after : DomainState)
        (offers : ℕ → Option Offer) → IsOpenRounds setup d entries mark x →
        MakesRound setup d entries x recalls entry after offers → (a : Side) (c : ℕ) →
        moves_from a (with_round x (length entries) recalls after offers) c 1
        (suc (length entries)) ≡ moves_from a x c 1 (length entries) ++
        recall_move a (recalls c) (offer_move a (offers c) []) }
    ensures joins_grown { (setup : Setup) (d : ℕ) (entries : List Entry) (mark : Mark) (x : Rounds)
        (recalls : ℕ → Option (Option Joined)) (entry : Entry) (after : DomainState)
        (offers : ℕ → Option Offer) → IsOpenRounds setup d entries mark x →
        MakesRound setup d entries x recalls entry after offers → (c : ℕ) →
        found_from (with_round x (length entries) recalls after offers) c 1
        (suc (length entries)) ≡ found_from x c 1 (length entries) ++
        found_entry (length entries) (found_at_recall (recalls c))
        (found_entry (suc (length entries)) (found_at_offer (offers c)) []) }
    ensures moves_closed { (setup : Setup) (d : ℕ) (entries : List Entry) (mark : Mark) (x : Rounds)
        (recalls : ℕ → Option (Option Joined)) (cut : Bool) → IsOpenRounds setup d entries mark x →
        ((c : ℕ) → RecallsStanding (x.offers (length entries) c) (recalls c)) → (a : Side) (c : ℕ) →
        moves_from a (with_recalls x (length entries) recalls cut) c 1 (length entries) ≡
        moves_from a x c 1 (length entries) ++ recall_move a (recalls c) [] }
    ensures joins_closed { (setup : Setup) (d : ℕ) (entries : List Entry) (mark : Mark) (x : Rounds)
        (recalls : ℕ → Option (Option Joined)) (cut : Bool) → IsOpenRounds setup d entries mark x →
        ((c : ℕ) → RecallsStanding (x.offers (length entries) c) (recalls c)) → (c : ℕ) →
        found_from (with_recalls x (length entries) recalls cut) c 1 (length entries) ≡
        found_from x c 1 (length entries) ++
        found_entry (length entries) (found_at_recall (recalls c)) [] }
{}
