// Whether loops wait.

ghost use Rattle.std.specs.Prelude.{◌≡◌, true, map, IsTrue, ◌↔◌};
ghost use Rattle.std.specs.List.{list_all};
ghost use Rattle.kernel_terms.specs.Statements.{statement, sequence, parallel};
ghost use Rattle.kernel_terms.specs.MayEnd.{LoopsWait};
ghost use Rattle.tick_tree.specs.definitions.Exits.{exits_fit};
ghost use Rattle.sj_accept.specs.StaticRules.{AllLoopsWait};

use kernel_terms::{Form, Term};
use tick_tree::{
    ends0, first_part_fits, if_parts_fit, parallel_parts_fit, present_parts_fit, sequence_parts_fit,
};

// The loops of parts one after another, or beside each other, are those of the parts.
#[tactic(auto, using(crate::proofs::LoopLemmas::parts_of_statements))]
fn loops_of_parts(parts: &[Term])
    ensures in_turn { LoopsWait (sequence (map statement parts.now)) ↔ AllLoopsWait
        (map statement parts.now) }
    ensures beside { LoopsWait (parallel (map statement parts.now)) ↔ AllLoopsWait
        (map statement parts.now) }
{}

/// Whether no loop's body may end in its starting tick.
#[cycle(waits)]
#[tactic(auto, using(crate::proofs::LoopLemmas::bodies))]
pub fn loops_wait(term: &Term) -> bool
    requires fits { exits_fit (statement term.now) ≡ true }
    ensures { IsTrue result ↔ LoopsWait (statement term.now) }
{
    match &term.form {
        Form::Nothing | Form::Pause | Form::Exit(_) | Form::Receive { .. } => true,
        Form::Emit { .. } | Form::Assign { .. } | Form::Send { .. } => true,
        Form::If { cond, yes, other } => {
            let (yes, other) = (yes.get(), other.get());
            if_parts_fit(term, cond, yes, other);
            loops_wait(yes) && loops_wait(other)
        }
        Form::Present { test, yes, other } => {
            let (yes, other) = (yes.get(), other.get());
            present_parts_fit(term, test, yes, other);
            loops_wait(yes) && loops_wait(other)
        }
        Form::Seq(parts) => {
            let parts = parts.as_slice();
            sequence_parts_fit(term, parts);
            loops_of_parts(parts);
            all_loops_wait(parts)
        }
        Form::Loop(body) => {
            let body = body.get();
            !ends0(body) && loops_wait(body)
        }
        Form::Par(parts) => {
            let parts = parts.as_slice();
            parallel_parts_fit(term, parts);
            loops_of_parts(parts);
            all_loops_wait(parts)
        }
        Form::Trap(body) => loops_wait(body.get()),
        Form::Abort { body, .. } => loops_wait(body.get()),
        Form::Suspend { body, .. } => loops_wait(body.get()),
        Form::Local { signal: _, body } => loops_wait(body.get()),
    }
}

#[cycle(waits)]
fn all_loops_wait(parts: &[Term]) -> bool
    requires fit { list_all exits_fit (map statement parts.now) ≡ true }
    ensures { IsTrue result ↔ AllLoopsWait (map statement parts.now) }
{
    for i in 0..parts.len() {
        let part = &parts[i];
        first_part_fits(parts, i, part);
        if !loops_wait(part) {
            return false;
        }
    }
    true
}
