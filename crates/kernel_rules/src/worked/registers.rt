//! What the registers of a small domain stand for.

ghost use Rattle.std.specs.Prelude.{◌≡◌, ◌==◌, pos, true, false, [], ◌∷◌, map};
ghost use Rattle.std.specs.List.{All, list_all, list_any};
ghost use Rattle.java_values.specs.declared.kind.Kind.TheVariants as kind;
ghost use Rattle.kernel_terms.specs.Expressions.{IsPresent};
ghost use Rattle.kernel_terms.specs.Statements.{Nothing, Pause, Seq, Par, Trap, Local};
ghost use Rattle.kernel_terms.specs.Statements.{Abort, Suspend, Receive};
ghost use Rattle.kernel_terms.specs.Statements.{SendWaits, Sent, ReceiveWaits, Received};
ghost use Rattle.kernel_rules.specs.definitions.Registers.{domain_registers, registers, live, residual};
ghost use Rattle.kernel_rules.specs.definitions.Registers.{statement_registers};
ghost use Rattle.kernel_rules.specs.Worked.SmallDomain.{two_parts, sends, local_pauses};
ghost use Rattle.kernel_rules.specs.Worked.Ways.{endless};
ghost use Rattle.kernel_rules.specs.definitions.Registers.{FitRegisters};
ghost use Rattle.kernel_rules.specs.definitions.Registers.{variables_held, values_held, last_held};
ghost use Rattle.kernel_rules.specs.Worked.SmallDomain.{domain_tables, small_domain, pure_domain};
ghost use Rattle.kernel_rules.specs.Worked.SmallDomain.{emits_local, receives, held, input_tables};
ghost use Rattle.kernel_rules.specs.Worked.SmallDomain.{endless_branch, endless_branch_later};
ghost use Rattle.kernel_rules.specs.Worked.SmallDomain.{forms_left, both_on, first_on};
ghost use Rattle.kernel_rules.specs.Worked.Variables.{forms_around, pauses_twice};
ghost use Rattle.kernel_rules.specs.Worked.Words.{no_tables, emit};
ghost use Rattle.kernel_rules.specs.Worked.SmallDomain.{both_live, send_met, first_live};
ghost use Rattle.kernel_rules.specs.Worked.SmallDomain.{loop_pauses, loop_waits, loop_received, loop_second};

/// The kinds of a domain's registers: those of its statement from the left, then its variables, its
/// valued interface signals and the channels that it receives from.
pub fn registers_stand_in_order()
    ensures small { domain_registers domain_tables 0 small_domain
        ≡ kind.Long ∷ kind.Boolean ∷ kind.Boolean ∷ kind.Boolean ∷ kind.Short
        ∷ kind.Boolean ∷ kind.Boolean ∷ kind.Boolean ∷ kind.Boolean
        ∷ kind.Int ∷ kind.Boolean ∷ kind.Int ∷ kind.Byte ∷ kind.Char ∷ [] }
    ensures other { domain_registers domain_tables 1 Pause
        ≡ kind.Boolean ∷ kind.Int ∷ kind.Int ∷ kind.Short ∷ [] }
    ensures pure { domain_registers domain_tables 2 pure_domain
        ≡ kind.Boolean ∷ kind.Boolean ∷ kind.Boolean ∷ [] }
{}

/// The statement that registers stand for: each part that is live where it waits, a branch of a
/// parallel that isn't live ended, and what comes after it as in the source.
pub fn registers_stand_for_statement()
    ensures both { residual domain_tables small_domain 0 both_live
        ≡ Seq (Par (Abort true true (IsPresent 0) (Local 4 (pos 40) (Seq Nothing emits_local)))
        (Suspend true (IsPresent 0) (SendWaits 0 (pos 17)))) receives }
    ensures sent { residual domain_tables small_domain 0 send_met
        ≡ Seq (Par Nothing (Suspend true (IsPresent 0) (Sent 0))) receives }
    ensures first { residual domain_tables small_domain 0 first_live
        ≡ Seq (Par (Abort true true (IsPresent 0) (Local 4 (pos 40) (Seq Nothing emits_local)))
        Nothing)
        receives }
    ensures pauses { residual domain_tables small_domain 0 loop_pauses
        ≡ Seq (Seq Nothing (Receive 1)) receives }
    ensures waits { residual domain_tables small_domain 0 loop_waits ≡
        Seq (ReceiveWaits 1) receives }
    ensures received { residual domain_tables small_domain 0 loop_received
        ≡ Seq (Received 1) receives }
    ensures second { residual domain_tables small_domain 0 loop_second ≡ Seq Nothing receives }
    ensures pure { residual domain_tables pure_domain 3 (held (0 ∷ 0 ∷ 0 ∷ 0 ∷ 1 ∷ 0 ∷ []))
        ≡ Trap (Local 5 (pos 0) Nothing) }
    ensures pure_first { residual domain_tables pure_domain 3 (held (0 ∷ 0 ∷ 0 ∷ 1 ∷ 0 ∷ 0 ∷ []))
        ≡ Trap (Local 5 (pos 0) (Seq Nothing Pause)) }
{}

/// The variables, the values of the interface signals and the last values of the channels that the
/// registers hold; what isn't the domain's own has 0.
pub fn registers_hold_values()
    ensures x { variables_held domain_tables 0 small_domain both_live 0 ≡ pos 5 }
    ensures other_variable { variables_held domain_tables 0 small_domain both_live 1 ≡ pos 0 }
    ensures b { variables_held domain_tables 0 small_domain both_live 2 ≡ pos 1 }
    ensures pure { values_held domain_tables 0 small_domain both_live 0 ≡ pos 0 }
    ensures int { values_held domain_tables 0 small_domain both_live 1 ≡ pos 7 }
    ensures other_signal { values_held domain_tables 0 small_domain both_live 2 ≡ pos 0 }
    ensures byte { values_held domain_tables 0 small_domain both_live 3 ≡ pos 8 }
    ensures local { values_held domain_tables 0 small_domain both_live 4 ≡ pos 0 }
    ensures sent { last_held domain_tables 0 small_domain both_live 0 ≡ pos 0 }
    ensures received { last_held domain_tables 0 small_domain both_live 1 ≡ pos 65 }
    ensures of_another { variables_held domain_tables 1 Pause (held (1 ∷ 5 ∷ 7 ∷ 9 ∷ [])) 1 ≡
        pos 5 }
    ensures of_another_signal { values_held domain_tables 1 Pause (held (1 ∷ 5 ∷ 7 ∷ 9 ∷
        [])) 2 ≡ pos 7 }
    ensures of_another_channel { last_held domain_tables 1 Pause (held (1 ∷ 5 ∷ 7 ∷ 9 ∷
        [])) 0 ≡ pos 9 }
{}

/// These registers fit the statement. Nothing is asked of the branches of a parallel that isn't live.
pub fn registers_fit()
    ensures both { FitRegisters domain_tables small_domain 0 both_live }
    ensures sent { FitRegisters domain_tables small_domain 0 send_met }
    ensures first { FitRegisters domain_tables small_domain 0 first_live }
    ensures pauses { FitRegisters domain_tables small_domain 0 loop_pauses }
    ensures waits { FitRegisters domain_tables small_domain 0 loop_waits }
    ensures second { FitRegisters domain_tables small_domain 0 loop_second }
    ensures pure { FitRegisters domain_tables pure_domain 3 (held (0 ∷ 0 ∷ 0 ∷ 0 ∷ 1 ∷ 0 ∷ [])) }
    ensures endless { FitRegisters domain_tables endless_branch 0 (held (1 ∷ 0 ∷ [])) }
    ensures before_endless { FitRegisters domain_tables endless_branch_later 0 (held (1 ∷ 0 ∷
        0 ∷ [])) }
    ensures ended_at_once { FitRegisters no_tables (Par (emit 0) Pause) 0 (held (1 ∷ [])) }
{}

/// Registers don't fit where nothing is live, where both parts of a sequence or both branches of a
/// choice are, and where a branch of a live parallel isn't live that can't have ended.
pub fn registers_refused()
    ensures dead { FitRegisters domain_tables small_domain 0 (held (40 ∷ 0 ∷ 0 ∷ 1 ∷ 17 ∷ 0 ∷ 0 ∷
        1 ∷ 0 ∷ [])) → ⊥ }
    ensures both_parts { FitRegisters domain_tables small_domain 0 (held (40 ∷ 1 ∷ 0 ∷ 0 ∷ 17 ∷ 0 ∷
        0 ∷ 0 ∷ 1 ∷ [])) → ⊥ }
    ensures inner_parts { FitRegisters domain_tables small_domain 0 (held (40 ∷ 0 ∷ 0 ∷ 0 ∷ 17 ∷ 1 ∷
        1 ∷ 0 ∷ 0 ∷ [])) → ⊥ }
    ensures both_choices { FitRegisters domain_tables small_domain 0 (held (40 ∷ 0 ∷ 0 ∷ 0 ∷ 17 ∷
        1 ∷ 0 ∷ 0 ∷ 1 ∷ [])) → ⊥ }
    ensures both_present { FitRegisters domain_tables pure_domain 0 (held (1 ∷ 0 ∷ 1 ∷ [])) → ⊥ }
    ensures endless { FitRegisters domain_tables endless_branch 0 (held (0 ∷ 1 ∷ [])) → ⊥ }
    ensures second_endless { FitRegisters domain_tables (Par Pause endless) 0 (held (1 ∷ 0 ∷ [])) →
        ⊥ }
{}

/// Each form that has parts has the registers of its parts, is live where they are, stands for what they
/// stand for, and is refused registers that don't fit one of them.
pub fn each_form_has_registers_of_parts()
    ensures number { list_all (λ p. registers domain_tables p == 2) (forms_around pauses_twice) ≡
        true }
    ensures live { list_all (λ p. live domain_tables p 0 first_on) (forms_around pauses_twice) ≡
        true }
    ensures dead { list_any (λ p. live domain_tables p 0 (held [])) (forms_around pauses_twice) ≡
        false }
    ensures stand { map (λ p. residual domain_tables p 0 first_on) (forms_around pauses_twice)
        ≡ forms_left pauses_twice (Seq Nothing Pause) }
    ensures refused { All (λ p. FitRegisters domain_tables p 0 both_on →
        ⊥) (forms_around pauses_twice) }
{}

/// The registers of the second part of a form come after those of the first: their kinds, which part is
/// live, what they stand for, and whether they fit.
pub fn second_part_has_later_registers()
    ensures kinds { map (λ p. statement_registers domain_tables p) (two_parts Pause sends)
        ≡ map (λ p. kind.Boolean ∷ kind.Boolean ∷ kind.Boolean ∷ kind.Short ∷
        []) (two_parts Pause sends) }
    ensures other_kinds { map (λ p. statement_registers domain_tables p) (two_parts sends Pause)
        ≡ map (λ p. kind.Boolean ∷ kind.Boolean ∷ kind.Short ∷ kind.Boolean ∷
        []) (two_parts sends Pause) }
    ensures first { list_all (λ p. live domain_tables p 0 (held (1 ∷ 0 ∷ 0 ∷
        []))) (two_parts Pause pauses_twice) ≡ true }
    ensures second { list_all (λ p. live domain_tables p 0 (held (0 ∷ 0 ∷ 1 ∷
        []))) (two_parts Pause pauses_twice) ≡ true }
    ensures neither { list_any (λ p. live domain_tables p 0 (held []))
        (two_parts Pause pauses_twice) ≡ false }
    ensures first_waits { map (λ p. residual domain_tables p 0 (held (1 ∷ 0 ∷ 1 ∷ 0 ∷
        []))) (two_parts (Receive 1) pauses_twice)
        ≡ ReceiveWaits 1 ∷ ReceiveWaits 1 ∷ Seq (ReceiveWaits 1) pauses_twice ∷
        Par (ReceiveWaits 1) (Seq Nothing Pause) ∷ [] }
    ensures second_waits { map (λ p. residual domain_tables p 0 (held (0 ∷ 1 ∷ 0 ∷
        []))) (two_parts Pause (Receive 1))
        ≡ ReceiveWaits 1 ∷ ReceiveWaits 1 ∷ ReceiveWaits 1 ∷ Par Nothing (ReceiveWaits 1) ∷ [] }
    ensures second_met { map (λ p. residual domain_tables p 0 (held (0 ∷ 1 ∷ 1 ∷
        []))) (two_parts Pause (Receive 1))
        ≡ Received 1 ∷ Received 1 ∷ Received 1 ∷ Par Nothing (Received 1) ∷ [] }
    ensures fit_first { All (λ p. FitRegisters domain_tables p 0 (held (1 ∷ 0 ∷ 0 ∷
        []))) (two_parts Pause pauses_twice) }
    ensures fit_second { All (λ p. FitRegisters domain_tables p 0 (held (0 ∷ 0 ∷ 1 ∷
        []))) (two_parts Pause pauses_twice) }
    ensures refused { All (λ p. FitRegisters domain_tables p 0 (held (0 ∷ 1 ∷ 1 ∷ [])) →
        ⊥) (two_parts Pause pauses_twice) }
    ensures in_local { FitRegisters domain_tables local_pauses 0 (held (1 ∷ 1 ∷ 0 ∷ [])) }
    ensures refused_in_local { FitRegisters domain_tables local_pauses 0 (held (0 ∷ 1 ∷ 1 ∷ [])) →
        ⊥ }
{}

/// A valued input has a register, as a valued output has, and it holds the input's value. A pure input and
/// a local signal have none.
pub fn valued_input_has_register()
    ensures kinds { domain_registers input_tables 0 Pause ≡
        kind.Boolean ∷ kind.Byte ∷ kind.Int ∷ [] }
    ensures local { values_held input_tables 0 Pause (held (1 ∷ 7 ∷ 8 ∷ 9 ∷ [])) 0 ≡ pos 0 }
    ensures input { values_held input_tables 0 Pause (held (1 ∷ 7 ∷ 8 ∷ 9 ∷ [])) 1 ≡ pos 7 }
    ensures pure { values_held input_tables 0 Pause (held (1 ∷ 7 ∷ 8 ∷ 9 ∷ [])) 2 ≡ pos 0 }
    ensures output { values_held input_tables 0 Pause (held (1 ∷ 7 ∷ 8 ∷ 9 ∷ [])) 3 ≡ pos 8 }
    ensures of_another { domain_registers input_tables 1 Pause ≡ kind.Boolean ∷ [] }
{}
