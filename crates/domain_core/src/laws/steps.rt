// Laws on the steps of compiled domains. Their functions do nothing.

ghost use Rattle.std.specs.Prelude.{ℕ};
ghost use Rattle.kernel_terms.specs.declared.system.System.{System};
ghost use Rattle.kernel_rules.specs.definitions.LegalTick.{Inputs};
ghost use Rattle.domain_core.specs.declared.step.outcome.Stepped.{Stepped};
ghost use Rattle.domain_core.specs.definitions.runs.Systems.{setup_of};
ghost use Rattle.domain_core.specs.definitions.rounds.Rounds.{Rounds, no_rounds};
ghost use Rattle.domain_core.specs.definitions.step.Compiling.{IsCompiled};
ghost use Rattle.domain_core.specs.definitions.step.Domains.{DomainView};
ghost use Rattle.domain_core.specs.definitions.step.Steps.{IsStep, TicksOnce, Stops};
ghost use Rattle.domain_core.specs.definitions.step.RoundsOf.{AreRoundsOf, MadeRound, MadeCut};
ghost use Rattle.domain_core.specs.definitions.step.RoundsOf.{with_memory};

use cell_core::Ends;

/// A compiled domain has no rounds, and memory for ticks changes nothing of a domain's rounds.
pub fn new_domains_have_no_rounds()
    ensures begun { (system : System) (inputs : Inputs) (d : ℕ) (v : DomainView) →
        IsCompiled system d v → AreRoundsOf system inputs d v
        (no_rounds (setup_of system inputs) d) }
    ensures kept { (system : System) (inputs : Inputs) (d room spare : ℕ) (v : DomainView)
        (x : Rounds) → AreRoundsOf system inputs d v x →
        AreRoundsOf system inputs d (with_memory room spare v) x }
{}

/// A step of a domain that makes a tick makes one round more. A step that stops makes the first part
/// of a round, which is cut.
pub fn steps_are_rounds<E: Ends>()
    ensures ticks { (system : System) (inputs : Inputs) (d : ℕ) (before after : E)
        (old new : DomainView) (result : Stepped) (x : Rounds) → AreRoundsOf system inputs d old x →
        (i : IsStep E.moved inputs before after old new result) →
        TicksOnce inputs old new i.answers i.replies i.asks i.stamp result →
        MadeRound system inputs d old new x i.answers i.replies i.asks i.stamp }
    ensures stops { (system : System) (inputs : Inputs) (d : ℕ) (before after : E)
        (old new : DomainView) (result : Stepped) (x : Rounds) → AreRoundsOf system inputs d old x →
        (i : IsStep E.moved inputs before after old new result) →
        Stops old new i.answers i.stamp result →
        MadeCut system inputs d old new x i.answers i.stamp }
{}
