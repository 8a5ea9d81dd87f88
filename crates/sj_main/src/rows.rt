// Small programs and their runs, evaluated on the definitions themselves.

ghost use Rattle.std.specs.Prelude.{codes, [], ◌∷◌};
ghost use Rattle.sj_main.specs.declared.commands.Turns.TheVariants.{Each};
ghost use Rattle.sj_main.specs.definitions.Verdicts.{IsTextOfRun};

/// The empty program ends in its first tick.
#[tactic(auto, using(crate::proofs::RowLemmas::nothing_in_one_turn))]
pub fn nothing_in_one_turn()
    ensures { IsTextOfRun (codes "system{interface{}{}}") (Each (0 ∷
        [])) (codes "domain 0 ticks 1 ended\n1 @1\n") }
{}

/// Without a turn there is no tick.
#[tactic(auto, using(crate::proofs::RowLemmas::nothing_in_no_turn))]
pub fn nothing_in_no_turn()
    ensures { IsTextOfRun (codes "system{interface{}{}}") (Each [])
        (codes "domain 0 ticks 0 paused\n") }
{}

/// A signal is emitted in two ticks, and the third turn is one of an ended domain.
#[tactic(auto, using(crate::proofs::RowLemmas::blink_in_three_turns))]
pub fn blink_in_three_turns()
    ensures { IsTextOfRun (codes "system{interface{output signal A;}{emit A;pause;emit A;}}")
        (Each (0 ∷ 0 ∷ 0 ∷ [])) (codes "domain 0 ticks 2 ended\n1 @1 A\n2 @2 A\n") }
{}

/// The block of a loop starts again in the tick in which it ends.
#[tactic(auto, using(crate::proofs::RowLemmas::loop_in_three_turns))]
pub fn loop_in_three_turns()
    ensures { IsTextOfRun (codes "system{interface{output signal A;output signal B;}{while(true){emit A;pause;emit B;}}}") (Each (0 ∷ 0 ∷ 0 ∷ [])) (codes "domain 0 ticks 3 paused\n1 @1 A\n2 @2 A B\n3 @3 A B\n") }
{}

/// A send and a receive join after the first ticks of two domains, and both go on after the join.
#[tactic(auto, using(crate::proofs::RendezvousRow::one_rendezvous))]
pub fn one_rendezvous()
    ensures { IsTextOfRun (codes "system{interface{output signal D;output signal B;int channel C;}{send C(5); emit D;}><{receive C; emit B;}}") (Each (0 ∷ 1 ∷ 0 ∷ 1 ∷ [])) (codes "domain 0 ticks 2 ended\n1 @1\n2 @3 D\ndomain 1 ticks 2 ended\n1 @1\n2 @3 B\nchannel C 1\n1 5 1 1 @2\n") }
{}
