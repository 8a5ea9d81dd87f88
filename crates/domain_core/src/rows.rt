// Runs of small programs, by computation. Their functions do nothing.

ghost use Rattle.kernel_terms.specs.Marks.{Going, Ended};
ghost use Rattle.tick_log.specs.definitions.Runs.{RunState};
ghost use Rattle.tick_log.specs.definitions.StampOrder.{Event, TickOf, JoinOf, IsBefore, IsStampOrder, stamp_of};
ghost use Rattle.domain_core.specs.definitions.runs.Systems.{SystemState, Steps, start};
ghost use Rattle.domain_core.specs.definitions.runs.LegalRuns.{IsLegalRun, SpendsBudgets, IsAtRest};
ghost use Rattle.domain_core.specs.definitions.runs.Scheduled.{IsScheduledRun, IsWholeRun};
ghost use Rattle.domain_core.specs.Rows.{rendezvous, rendezvous_run, two_rounds};
ghost use Rattle.domain_core.specs.Rows.{rendezvous_with, first_ticks};
ghost use Rattle.domain_core.specs.Rows.{join_between, join_last};
ghost use Rattle.domain_core.specs.Rows.{one_interleaving, IsByRounds};
ghost use Rattle.domain_core.specs.Rows.{aborted_send, withdrawn_run, joined_run};
ghost use Rattle.domain_core.specs.Rows.{early_join, receiver_last};
ghost use Rattle.domain_core.specs.Rows.{suspended_receive, suspended_run};
ghost use Rattle.domain_core.specs.Rows.{suspended_join, too_early, receiver_first};
ghost use Rattle.domain_core.specs.EndRows.{Each, waiting_send, no_waiting_send, no_waiting_receive};
ghost use Rattle.domain_core.specs.EndRows.{in_second_branch, in_local, JoinLeaves, NoJoin};
ghost use Rattle.domain_core.specs.EndRows.{places_in, receives_at, sends_at, receives, sends_later};
ghost use Rattle.domain_core.specs.EndRows.{without_ends};
ghost use Rattle.domain_core.specs.definitions.runs.Systems.{WaitsToSend, WaitsToReceive};
ghost use Rattle.kernel_terms.specs.Expressions.{IsPresent};
ghost use Rattle.kernel_terms.specs.Statements.{Seq, Loop, Trap, Par, If, Present, Abort, Suspend, Local};
ghost use Rattle.kernel_terms.specs.Statements.{Send, Receive, SendWaits, Sent, ReceiveWaits, Received};
ghost use Rattle.kernel_rules.specs.Rows.{int};
ghost use Rattle.kernel_rules.specs.Worked.Variables.{forms_around, truth};
ghost use Rattle.std.specs.Prelude.{◌≡◌, ◌↔◌, pos, true, false, List, [], ◌∷◌, flat_map};

/// A send and a receive join after the first tick of both domains. The sent value is received, and
/// the second ticks have a stamp past the join's. The run is legal, spends its budgets and is at rest.
pub fn one_rendezvous()
    ensures scheduled { (end : SystemState) ×
        IsScheduledRun rendezvous (rendezvous_run 3) two_rounds end }
    ensures whole { IsWholeRun rendezvous (rendezvous_run 3) two_rounds }
{}

/// The same run isn't legal where the second ticks have stamp 2, their number.
pub fn stamps_count_joins()
    ensures { (end : SystemState) → IsLegalRun rendezvous (rendezvous_run 2) end → ⊥ }
{}

/// The same run isn't legal where its log says that the sender goes on.
pub fn marks_are_of_the_domains()
    ensures { (end : SystemState) →
        IsLegalRun rendezvous (rendezvous_with 3 (pos 5) Going) end → ⊥ }
{}

/// The same run isn't legal where 6 is joined and shown, and not the sent 5.
pub fn joins_have_the_sent_value()
    ensures { (end : SystemState) →
        IsLegalRun rendezvous (rendezvous_with 3 (pos 6) Ended) end → ⊥ }
{}

/// Two ticks spend a budget of 3 where they have ended the domain, and not where it goes on. They are
/// too many for a budget of 1.
pub fn budgets_are_spent()
    ensures ended { SpendsBudgets (rendezvous_run 3) (λ d. 3) }
    ensures going { SpendsBudgets (rendezvous_with 3 (pos 5) Going) (λ d. 3) → ⊥ }
    ensures few { SpendsBudgets (rendezvous_run 3) (λ d. 1) → ⊥ }
{}

/// After the first tick of both domains both ends wait, which is no rest.
pub fn waiting_ends_are_no_rest()
    ensures reached { (end : SystemState) × Steps rendezvous (start rendezvous) first_ticks end }
    ensures refused { (end : SystemState) → Steps rendezvous (start rendezvous) first_ticks end →
        IsAtRest rendezvous end → ⊥ }
{}

/// The run has one list in stamp order. Where the second ticks have the join's stamp, they come before
/// it.
pub fn one_stamp_order()
    ensures between { (order : List Event) →
        IsStampOrder (rendezvous_run 3) order ↔ (order ≡ join_between) }
    ensures last { (order : List Event) →
        IsStampOrder (rendezvous_run 2) order ↔ (order ≡ join_last) }
{}

/// Of joins at one stamp that of the smaller channel comes first, and of ticks that of the smaller domain.
pub fn smaller_number_comes_first()
    ensures joins { (r : RunState) → stamp_of r (JoinOf 0 1) ≡ stamp_of r (JoinOf 1 0) →
        IsBefore r (JoinOf 0 1) (JoinOf 1 0) }
    ensures no_join { (r : RunState) → stamp_of r (JoinOf 0 1) ≡ stamp_of r (JoinOf 1 0) →
        IsBefore r (JoinOf 1 0) (JoinOf 0 1) → ⊥ }
    ensures ticks { (r : RunState) → stamp_of r (TickOf 0 1) ≡ stamp_of r (TickOf 1 0) →
        IsBefore r (TickOf 0 1) (TickOf 1 0) }
    ensures no_tick { (r : RunState) → stamp_of r (TickOf 0 1) ≡ stamp_of r (TickOf 1 0) →
        IsBefore r (TickOf 1 0) (TickOf 0 1) → ⊥ }
{}

/// The first run has rounds that fit, in which the sender's offer stands until its recall finds the
/// join.
pub fn rendezvous_by_rounds()
    ensures { IsByRounds rendezvous (rendezvous_run 3) one_interleaving }
{}

/// An abort before the join withdraws the offer: the channel has no join, and the receiver waits on.
/// The same run with a join isn't legal.
pub fn offer_is_withdrawn()
    ensures scheduled { (end : SystemState) ×
        IsScheduledRun aborted_send (withdrawn_run []) receiver_last end }
    ensures whole { IsWholeRun aborted_send (withdrawn_run []) receiver_last }
    ensures refused { (end : SystemState) →
        IsLegalRun aborted_send (withdrawn_run (early_join ∷ [])) end → ⊥ }
{}

/// A join that comes before the abort stays, and the receiver has its value. The same run without the
/// join isn't legal.
pub fn join_stays_at_abort()
    ensures scheduled { (end : SystemState) ×
        IsScheduledRun aborted_send (joined_run (early_join ∷ [])) two_rounds end }
    ensures whole { IsWholeRun aborted_send (joined_run (early_join ∷ [])) two_rounds }
    ensures refused { (end : SystemState) →
        IsLegalRun aborted_send (joined_run []) end → ⊥ }
{}

/// A join completes a receive that is suspended, and the receiver goes on when it is resumed. With a
/// join after the receiver's first tick the run isn't legal.
pub fn join_completes_suspended_receive()
    ensures scheduled { (end : SystemState) ×
        IsScheduledRun suspended_receive (suspended_run (suspended_join ∷ [])) receiver_first end }
    ensures whole { IsWholeRun suspended_receive (suspended_run (suspended_join ∷
        [])) receiver_first }
    ensures refused { (end : SystemState) →
        IsLegalRun suspended_receive (suspended_run (too_early ∷ [])) end → ⊥ }
{}

/// A send and a receive wait in whatever form they stand, on their own channel alone, and the send with its own value
/// alone.
pub fn ends_wait_in_each_form()
    ensures sends { Each (λ p. WaitsToSend 0 (pos 5) p) (forms_around waiting_send) }
    ensures other_value { Each (λ p. WaitsToSend 0 (pos 6) p → ⊥) (forms_around waiting_send) }
    ensures other_channel { Each (λ p. WaitsToSend 1 (pos 5) p → ⊥) (forms_around waiting_send) }
    ensures sends_no_more { Each (λ p. WaitsToSend 0 (pos 5) p → ⊥) (forms_around (Sent 0)) }
    ensures no_send { Each (λ p. WaitsToSend 0 (pos 5) p → ⊥) no_waiting_send }
    ensures receives { Each (λ p. WaitsToReceive 0 p) (forms_around (ReceiveWaits 0)) }
    ensures on_other_channel { Each (λ p. WaitsToReceive 1 p → ⊥) (forms_around (ReceiveWaits 0)) }
    ensures receives_no_more { Each (λ p. WaitsToReceive 0 p → ⊥) (forms_around (Received 0)) }
    ensures no_receive { Each (λ p. WaitsToReceive 0 p → ⊥) no_waiting_receive }
{}

/// A join completes ends that wait in the second branch of a parallel, in a trap and in a local signal's block. There
/// is none where one of them doesn't wait yet or has completed, or waits with another value or on another channel.
pub fn joins_complete_ends_in_parts()
    ensures second_branch { JoinLeaves (in_second_branch waiting_send) (in_second_branch (ReceiveWaits 0))
        (in_second_branch (Sent 0)) (in_second_branch (Received 0)) }
    ensures trap { JoinLeaves (Trap waiting_send) (Trap (ReceiveWaits 0)) (Trap (Sent 0))
        (Trap (Received 0)) }
    ensures local { JoinLeaves (in_local waiting_send) (in_local (ReceiveWaits 0))
        (in_local (Sent 0)) (in_local (Received 0)) }
    ensures no_sender_in_branch { NoJoin (in_second_branch (Send 0 (int 5)))
        (in_second_branch (ReceiveWaits 0)) }
    ensures no_receiver_in_branch { NoJoin (in_second_branch waiting_send)
        (in_second_branch (Receive 0)) }
    ensures no_sender_in_trap { NoJoin (Trap (Sent 0)) (Trap (ReceiveWaits 0)) }
    ensures no_receiver_in_trap { NoJoin (Trap waiting_send) (Trap (Received 0)) }
    ensures no_sender_in_local { NoJoin (in_local (SendWaits 0 (pos 6))) (in_local (ReceiveWaits 0)) }
    ensures no_receiver_in_local { NoJoin (in_local waiting_send) (in_local (ReceiveWaits 1)) }
{}

/// The places of ends in each form that has parts: the second part's registers come after the first one's, and
/// those of a local signal's block after its value.
pub fn ends_have_places_in_each_form()
    ensures choice { places_in (If (truth true) sends_later receives) ≡
        sends_at 11 12 ∷ receives_at 14 15 ∷ [] }
    ensures choice_turned { places_in (If (truth true) receives sends_later) ≡
        receives_at 10 11 ∷ sends_at 13 14 ∷ [] }
    ensures test { places_in (Present (IsPresent 0) sends_later receives) ≡
        sends_at 11 12 ∷ receives_at 14 15 ∷ [] }
    ensures test_turned { places_in (Present (IsPresent 0) receives sends_later)
        ≡ receives_at 10 11 ∷ sends_at 13 14 ∷ [] }
    ensures parallel { places_in (Par sends_later receives) ≡
        sends_at 11 12 ∷ receives_at 14 15 ∷ [] }
    ensures parallel_turned { places_in (Par receives sends_later) ≡
        receives_at 10 11 ∷ sends_at 13 14 ∷ [] }
    ensures sequence { places_in (Seq sends_later receives) ≡
        sends_at 11 12 ∷ receives_at 14 15 ∷ [] }
    ensures sequence_turned { places_in (Seq receives sends_later) ≡
        receives_at 10 11 ∷ sends_at 13 14 ∷ [] }
    ensures loop_ { places_in (Loop sends_later) ≡ sends_at 11 12 ∷ [] }
    ensures trap { places_in (Trap sends_later) ≡ sends_at 11 12 ∷ [] }
    ensures strong { places_in (Abort false false (IsPresent 0) sends_later) ≡ sends_at 11 12 ∷ [] }
    ensures strong_immediate { places_in (Abort false true (IsPresent 0) sends_later) ≡
        sends_at 11 12 ∷ [] }
    ensures weak { places_in (Abort true false (IsPresent 0) sends_later) ≡ sends_at 11 12 ∷ [] }
    ensures weak_immediate { places_in (Abort true true (IsPresent 0) sends_later) ≡
        sends_at 11 12 ∷ [] }
    ensures suspend { places_in (Suspend false (IsPresent 0) sends_later) ≡ sends_at 11 12 ∷ [] }
    ensures armed_suspend { places_in (Suspend true (IsPresent 0) sends_later) ≡
        sends_at 11 12 ∷ [] }
    ensures valued_local { places_in (Local 0 (pos 0) sends_later) ≡ sends_at 12 13 ∷ [] }
    ensures pure_local { places_in (Local 1 (pos 0) sends_later) ≡ sends_at 11 12 ∷ [] }
    ensures none { flat_map (λ p. places_in p) without_ends ≡ [] }
{}
