// Laws on legal runs. Their functions do nothing.

ghost use Rattle.std.specs.Prelude.{◌≡◌, ◌⊎◌, ℕ, suc, ◌<◌, ◌≤◌, ◌^◌, List, [], length};
ghost use Rattle.kernel_terms.specs.declared.system.System.{System};
ghost use Rattle.kernel_terms.specs.Limits.{most_domains};
ghost use Rattle.kernel_terms.specs.Systems.{domains_of};
ghost use Rattle.kernel_rules.specs.definitions.LegalTick.{Inputs};
ghost use Rattle.tick_log.specs.definitions.Runs.{RunState, tick_count, join_count, tick_of};
ghost use Rattle.tick_log.specs.definitions.Fits.{FitsSystem};
ghost use Rattle.tick_log.specs.definitions.StampOrder.{Event, IsEventOf, stamp_of};
ghost use Rattle.domain_core.specs.definitions.runs.Systems.{Setup, SystemState, Move, Steps, start};
ghost use Rattle.domain_core.specs.definitions.runs.Systems.{setup_of, sender_of, receiver_of};
ghost use Rattle.domain_core.specs.definitions.runs.Systems.{IsSystem, IsFresh};
ghost use Rattle.domain_core.specs.definitions.runs.LegalRuns.{Fits, HasStamps, IsLegalRun};
ghost use Rattle.domain_core.specs.definitions.runs.OwnRuns.{HasOwnRuns, EndsLegally, OwnRunsTo};
ghost use Rattle.domain_core.specs.definitions.runs.StampBound.{HasCause, CausesFirst, StampsWithin};
ghost use Rattle.domain_core.specs.definitions.runs.StampBound.{IsNextStamp, event_count, IsSmallRun};
ghost use Rattle.domain_core.specs.definitions.runs.Scheduled.{IsRunOf, IsLegalTo, IsScheduledRun};
ghost use Rattle.domain_core.specs.definitions.runs.Scheduled.{IsWholeRun};

/// A run whose stamps follow the rule, and in which each domain's own ticks, sends and receives are
/// a run of its statement, is legal, and each domain ends as its own run does.
pub fn own_runs_are_legal()
    ensures { (setup : Setup) (r : RunState) → IsSystem setup → Fits setup r →
        HasStamps setup r → (own : HasOwnRuns setup r) → EndsLegally setup r own }
{}

/// In a legal run each domain's own ticks, sends and receives are a run of its statement, which
/// comes to the domain's state at the end.
pub fn legal_runs_have_own_runs()
    ensures { (setup : Setup) (r : RunState) (end : SystemState) → IsSystem setup →
        IsLegalRun setup r end → OwnRunsTo setup r end }
{}

/// Steps in whatever order, whose ticks and joins are those of a run with the stamps of the rule,
/// make the run legal: in stamp order they are steps too, and each domain ends in the same state.
pub fn steps_are_legal()
    ensures { (setup : Setup) (r : RunState) (moves : List Move) (end : SystemState) →
        IsSystem setup → Fits setup r → HasStamps setup r → IsRunOf setup r moves end →
        IsLegalTo setup r end }
{}

/// In a list of ticks and joins in which each comes after those that its stamp is counted from, a
/// stamp is at most the place.
pub fn stamps_are_places()
    ensures { (setup : Setup) (r : RunState) (order : List Event) → IsSystem setup →
        Fits setup r → HasStamps setup r → CausesFirst setup r [] order →
        StampsWithin r 1 order }
{}

/// A tick or join has stamp 1, or one of those that its stamp is counted from has the stamp before.
pub fn stamps_have_causes()
    ensures { (setup : Setup) (r : RunState) (e : Event) → IsSystem setup → Fits setup r →
        HasStamps setup r → IsEventOf r e → (stamp_of r e ≡ 1) ⊎ HasCause setup r e }
{}

/// No stamp of a run is larger than the number of its ticks and joins.
pub fn stamps_have_no_gaps()
    ensures { (setup : Setup) (r : RunState) (e : Event) → IsSystem setup → Fits setup r →
        HasStamps setup r → IsEventOf r e → stamp_of r e ≤ event_count r }
{}

/// The next tick of a domain has a stamp of at most 1 more than the number of ticks and joins so far.
pub fn next_stamps_are_bounded()
    ensures { (setup : Setup) (r : RunState) (d stamp : ℕ) → IsSystem setup → Fits setup r →
        HasStamps setup r → IsNextStamp setup r d stamp → stamp ≤ suc (event_count r) }
{}

/// A domain's first tick has stamp 1, since nothing is joined before it.
pub fn first_ticks_have_stamp_one()
    ensures { (setup : Setup) (r : RunState) (d : ℕ) → HasStamps setup r → 0 < tick_count r d →
        (tick_of r d 0).stamp ≡ 1 }
{}

/// In a run with at most 100,000 ticks of each domain and joins of each channel, each stamp by the
/// rule, and the next one of each domain, is below 2 ^ 24. A run that fits a system is such a run.
pub fn next_stamps_are_below_limit()
    ensures passed { (system : System) (inputs : Inputs) (r : RunState) (e : Event) →
        IsSmallRun system r → HasStamps (setup_of system inputs) r → IsEventOf r e →
        stamp_of r e < 2 ^ 24 }
    ensures next { (system : System) (inputs : Inputs) (r : RunState) (d stamp : ℕ) →
        IsSmallRun system r → HasStamps (setup_of system inputs) r →
        IsNextStamp (setup_of system inputs) r d stamp → stamp < 2 ^ 24 }
    ensures small { (system : System) (r : RunState) → FitsSystem system r →
        IsSmallRun system r }
{}

/// The run of given turns is legal, spends its budgets and is at rest. A domain's budget is the
/// number of its turns.
pub fn scheduled_runs_are_whole()
    ensures { (setup : Setup) (r : RunState) (turns : List ℕ) (end : SystemState) →
        IsSystem setup → IsFresh setup → Fits setup r → IsScheduledRun setup r turns end →
        IsWholeRun setup r turns }
{}

/// In steps from the start a channel has no more joins than either of its domains has ticks, and so
/// it is in the run of given turns.
pub fn joins_are_within_ticks()
    ensures steps { (setup : Setup) (moves : List Move) (end : SystemState) → IsSystem setup →
        IsFresh setup → Steps setup (start setup) moves end → (c : ℕ) →
        (length (end.joins c) ≤ (end.domain (sender_of setup c)).ticks) ×
        (length (end.joins c) ≤ (end.domain (receiver_of setup c)).ticks) }
    ensures runs { (setup : Setup) (r : RunState) (turns : List ℕ) (end : SystemState) →
        IsSystem setup → IsFresh setup → IsScheduledRun setup r turns end → (c : ℕ) →
        (join_count r c ≤ tick_count r (sender_of setup c)) ×
        (join_count r c ≤ tick_count r (receiver_of setup c)) }
{}

/// Each channel of a system joins two different ones of its domains, of which there are at most 16.
pub fn systems_join_domains()
    ensures joined { (system : System) (inputs : Inputs) → IsSystem (setup_of system inputs) }
    ensures few { (system : System) → length (domains_of system) ≤ most_domains }
{}

/// No statement of a system waits at its start.
pub fn systems_are_fresh()
    ensures { (system : System) (inputs : Inputs) → IsFresh (setup_of system inputs) }
{}
