// Whether statements may end in their ticks, and what their trees weigh.

ghost use Rattle.std.specs.Prelude.{◌≡◌, ◌+◌, ◌*◌, ◌%◌, ◌^◌, ◌<◌, ℕ, Bool, true, cond, List, Option, map};
ghost use Rattle.std.specs.List.{list_all};
ghost use Rattle.kernel_terms.specs.Expressions.{Expression, Test};
ghost use Rattle.kernel_terms.specs.Limits.{most_traps};
ghost use Rattle.kernel_terms.specs.Statements.{Stmt, Nothing, Pause, Emit, Assign, If, Present, Seq, Loop, Par, Trap, Exit, Abort, Suspend, Send, Receive};
ghost use Rattle.kernel_terms.specs.Statements.{sequence, sequence_from, parallel, parallel_from, statement};
ghost use Rattle.kernel_terms.specs.MayEnd.{Ways, ends0, ends1, either, in_turn, beside, within_trap};
ghost use Rattle.tick_tree.specs.definitions.Leaves.{nodes_of, nodes_of_test, nodes_of_value};
ghost use Rattle.tick_tree.specs.definitions.Weight.{weight_of, resuming_weight};
ghost use Rattle.tick_tree.specs.Measures.{AreWays, IsMeasure, IsMeasureOfParts, some_ends1};
ghost use Rattle.tick_tree.specs.definitions.Exits.{exits_fit};
ghost use Rattle.tick_tree.specs.definitions.Weight.{capped};

use crate::nodes::{of_expression, of_test, of_value, sum};
use crate::parts::{
    first_part_fits, if_parts_fit, parallel_parts_fit, present_parts_fit, sequence_parts_fit,
};
use kernel_terms::{Form, Term};

/// Whether the statement may end in the tick, and which traps it may exit to: a bit for each depth.
#[derive(Clone, Copy, Debug)]
struct Exits {
    ends: bool,
    traps: u64,
}

/// The ways of the starting tick and of a later one, whether there is a later one, and the weights of the two
/// trees, up to 2^32.
#[derive(Clone, Copy, Debug)]
struct Measure {
    starting: Exits,
    resuming: Exits,
    resumes: bool,
    starting_weight: u64,
    resuming_weight: u64,
}

const NEVER: Exits = Exits {
    ends: false,
    traps: 0,
};

const ENDS: Exits = Exits {
    ends: true,
    traps: 0,
};

/// Whether the statement may end in its starting tick. Its exits are to depths below 64, as those of a system are.
#[cycle(ends0)]
pub fn ends0(term: &Term) -> bool
    ensures { exits_fit (statement term.now) ≡ true → result ≡ ends0 (statement term.now) }
{
    match &term.form {
        Form::Nothing | Form::Emit { .. } | Form::Assign { .. } => true,
        Form::Pause | Form::Send { .. } | Form::Receive { .. } => false,
        Form::Loop(_) | Form::Exit(_) => false,
        Form::If { cond, yes, other } => {
            let (yes, other) = (yes.get(), other.get());
            if_parts_fit(term, cond, yes, other);
            ends0(yes) || ends0(other)
        }
        Form::Present { test, yes, other } => {
            let (yes, other) = (yes.get(), other.get());
            present_parts_fit(term, test, yes, other);
            ends0(yes) || ends0(other)
        }
        Form::Seq(parts) => {
            let parts = parts.as_slice();
            sequence_parts_fit(term, parts);
            all_end0(parts)
        }
        Form::Par(parts) => {
            let parts = parts.as_slice();
            parallel_parts_fit(term, parts);
            all_end0(parts)
        }
        Form::Trap(_) => measured(term).starting.ends,
        Form::Abort {
            immediate,
            body,
            ..
        } => *immediate || ends0(body.get()),
        Form::Suspend { body, .. } => ends0(body.get()),
        Form::Local { body, .. } => ends0(body.get()),
    }
}

// Whether each of the parts may end in its starting tick.
#[cycle(ends0)]
fn all_end0(parts: &[Term]) -> bool
    ensures { list_all exits_fit (map statement parts.now) ≡ true →
        result ≡ list_all ends0 (map statement parts.now) }
{
    for i in 0..parts.len() {
        let part = &parts[i];
        first_part_fits(parts, i, part);
        if !ends0(part) {
            return false;
        }
    }
    true
}

/// Whether the statement may end in a later tick. Its exits are to depths below 64.
#[cycle(ends1)]
pub fn ends1(term: &Term) -> bool
    ensures { exits_fit (statement term.now) ≡ true → result ≡ ends1 (statement term.now) }
{
    match &term.form {
        Form::Nothing | Form::Emit { .. } | Form::Assign { .. } => false,
        Form::Loop(_) | Form::Exit(_) => false,
        Form::Pause | Form::Send { .. } | Form::Receive { .. } => true,
        Form::If { cond, yes, other } => {
            let (yes, other) = (yes.get(), other.get());
            if_parts_fit(term, cond, yes, other);
            ends1(yes) || ends1(other)
        }
        Form::Present { test, yes, other } => {
            let (yes, other) = (yes.get(), other.get());
            present_parts_fit(term, test, yes, other);
            ends1(yes) || ends1(other)
        }
        Form::Seq(parts) => {
            let parts = parts.as_slice();
            sequence_parts_fit(term, parts);
            some_end1(parts)
        }
        Form::Par(_) | Form::Trap(_) | Form::Abort { .. } => measured(term).resuming.ends,
        Form::Suspend { body, .. } => ends1(body.get()),
        Form::Local { body, .. } => ends1(body.get()),
    }
}

// Whether some part may end in a later tick, and those after it in their starting ticks.
#[cycle(ends1)]
#[tactic(auto, using(crate::proofs::ResumingEnds::ends_of_parts))]
fn some_end1(parts: &[Term]) -> bool
    ensures { list_all exits_fit (map statement parts.now) ≡ true →
        result ≡ some_ends1 (map statement parts.now) }
{
    for i in (0..parts.len()).rev() {
        let part = &parts[i];
        first_part_fits(parts, i, part);
        if ends1(part) {
            return true;
        }
        if !ends0(part) {
            return false;
        }
    }
    false
}

/// The weight of a domain's statement, up to 2^32. Its exits are to depths below 64.
pub fn weight(term: &Term) -> u64
    ensures { exits_fit (statement term.now) ≡ true →
        result ≡ capped (weight_of (statement term.now)) }
{
    let found = measured(term);
    sum(found.starting_weight, found.resuming_weight)
}

#[cycle(measure)]
fn measured(term: &Term) -> Measure
    ensures { exits_fit (statement term.now) ≡ true → IsMeasure (statement term.now) result }
{
    match &term.form {
        Form::Nothing => at_once(0),
        Form::Pause => waits(0),
        Form::Emit { value, .. } => at_once(of_value(value)),
        Form::Assign { value, .. } => at_once(of_expression(value)),
        Form::If { cond, yes, other } => {
            let (yes, other) = (yes.get(), other.get());
            if_parts_fit(term, cond, yes, other);
            either(of_expression(cond), measured(yes), measured(other))
        }
        Form::Present { test, yes, other } => {
            let (yes, other) = (yes.get(), other.get());
            present_parts_fit(term, test, yes, other);
            either(of_test(test), measured(yes), measured(other))
        }
        Form::Seq(parts) => {
            let parts = parts.as_slice();
            sequence_parts_fit(term, parts);
            all_in_turn(parts)
        }
        Form::Loop(body) => again(measured(body.get())),
        Form::Par(parts) => {
            let parts = parts.as_slice();
            parallel_parts_fit(term, parts);
            all_beside(parts)
        }
        Form::Trap(body) => trapped(measured(body.get())),
        Form::Exit(depth) => exits_to(*depth),
        Form::Abort {
            immediate,
            test,
            body,
            ..
        } => { aborted(*immediate, of_test(test), measured(body.get())) }
        Form::Suspend { test, body } => suspended(of_test(test), measured(body.get())),
        Form::Local { body, .. } => measured(body.get()),
        Form::Send { value, .. } => waits(of_expression(value)),
        Form::Receive { .. } => waits(0),
    }
}

#[cycle(measure)]
fn all_in_turn(parts: &[Term]) -> Measure
    ensures { list_all exits_fit (map statement parts.now) ≡ true →
        IsMeasure (sequence (map statement parts.now)) result }
{
    let mut rest = None;
    for i in (0..parts.len()).rev() {
        let part = &parts[i];
        first_part_fits(parts, i, part);
        rest = Some(before(measured(part), rest));
    }
    match rest {
        Some(found) => found,
        None => at_once(0),
    }
}

#[cycle(measure)]
fn all_beside(parts: &[Term]) -> Measure
    ensures { list_all exits_fit (map statement parts.now) ≡ true →
        IsMeasure (parallel (map statement parts.now)) result }
{
    let mut rest = None;
    for i in (0..parts.len()).rev() {
        let part = &parts[i];
        first_part_fits(parts, i, part);
        rest = Some(joined(measured(part), rest));
    }
    match rest {
        Some(found) => found,
        None => at_once(0),
    }
}

// The number where the test holds, and else 0.
fn given(test: bool, number: u64) -> u64
    ensures { result ≡ cond test number 0 }
{
    if test { number } else { 0 }
}

// A part before others in turn.
fn before(own: Measure, after: Option<Measure>) -> Measure
    ensures { (p : Stmt) → (ps : List Stmt) → IsMeasure p own →
        IsMeasureOfParts sequence_from ps after →
        IsMeasure (sequence_from p ps) result }
{
    match after {
        None => own,
        Some(after) => in_turn(own, after),
    }
}

// A part beside others.
fn joined(own: Measure, others: Option<Measure>) -> Measure
    ensures { (p : Stmt) → (ps : List Stmt) → IsMeasure p own →
        IsMeasureOfParts parallel_from ps others →
        IsMeasure (parallel_from p ps) result }
{
    match others {
        None => own,
        Some(others) => beside(own, others),
    }
}

// Statements that end at once. `nodes` are those of their expression, here and below.
fn at_once(nodes: u64) -> Measure
    ensures nothing { nodes ≡ 0 → IsMeasure Nothing result }
    ensures emission { (s : ℕ) → (e : Option Expression) → nodes ≡ capped (nodes_of_value e) →
        IsMeasure (Emit s e) result }
    ensures assignment { (x : ℕ) → (e : Expression) → nodes ≡ capped (nodes_of e) →
        IsMeasure (Assign x e) result }
{
    Measure {
        starting: ENDS,
        resuming: NEVER,
        resumes: false,
        starting_weight: sum(1, nodes),
        resuming_weight: 0,
    }
}

// Statements that wait for a later tick. A value is looked at in the starting tick alone.
fn waits(nodes: u64) -> Measure
    ensures pause { nodes ≡ 0 → IsMeasure Pause result }
    ensures send { (c : ℕ) → (e : Expression) → nodes ≡ capped (nodes_of e) →
        IsMeasure (Send c e) result }
    ensures receive { (c : ℕ) → nodes ≡ 0 → IsMeasure (Receive c) result }
{
    Measure {
        starting: NEVER,
        resuming: ENDS,
        resumes: true,
        starting_weight: sum(1, nodes),
        resuming_weight: 1,
    }
}

// The bit of a depth, and none past the last.
fn bit_of(depth: u32) -> u64
    ensures { depth < most_traps → result ≡ (1 * 2 ^ depth) % 2 ^ 64 }
{
    if depth < u64::BITS { 1u64 << depth } else { 0 }
}

fn exits_to(depth: u32) -> Measure
    ensures { depth < most_traps → IsMeasure (Exit depth) result }
{
    Measure {
        starting: Exits {
            ends: false,
            traps: bit_of(depth),
        },
        resuming: NEVER,
        resumes: false,
        starting_weight: 1,
        resuming_weight: 0,
    }
}

fn one_of(left: Exits, right: Exits) -> Exits
    ensures { (v : Ways) → (w : Ways) → AreWays v left → AreWays w right →
        AreWays (either v w) result }
{
    Exits {
        ends: left.ends | right.ends,
        traps: left.traps | right.traps,
    }
}

// One of two statements, by a condition or a test.
fn either(nodes: u64, yes: Measure, other: Measure) -> Measure
    ensures by_condition { (e : Expression) → (p : Stmt) → (q : Stmt) →
        nodes ≡ capped (nodes_of e) → IsMeasure p yes →
        IsMeasure q other → IsMeasure (If e p q) result }
    ensures by_test { (t : Test) → (p : Stmt) → (q : Stmt) → nodes ≡ capped (nodes_of_test t) →
        IsMeasure p yes →
        IsMeasure q other → IsMeasure (Present t p q) result }
{
    let branches = sum(yes.starting_weight, other.starting_weight);
    Measure {
        starting: one_of(yes.starting, other.starting),
        resuming: one_of(yes.resuming, other.resuming),
        resumes: yes.resumes | other.resumes,
        starting_weight: sum(sum(1, nodes), branches),
        resuming_weight: sum(yes.resuming_weight, other.resuming_weight),
    }
}

// The first ways, and the second ones where the first end.
fn followed(first: Exits, second: Exits) -> Exits
    ensures { (v : Ways) → (w : Ways) → AreWays v first → AreWays w second →
        AreWays (in_turn v w) result }
{
    Exits {
        ends: first.ends & second.ends,
        traps: first.traps | given(first.ends, second.traps),
    }
}

fn in_turn(first: Measure, second: Measure) -> Measure
    ensures { (p : Stmt) → (q : Stmt) → IsMeasure p first → IsMeasure q second →
        IsMeasure (Seq p q) result }
{
    let starts = given(first.starting.ends, second.starting_weight);
    let restarts = given(first.resuming.ends, second.starting_weight);
    let later = sum(first.resuming_weight, restarts);
    Measure {
        starting: followed(first.starting, second.starting),
        resuming: one_of(followed(first.resuming, second.starting), second.resuming),
        resumes: first.resumes | second.resumes,
        starting_weight: sum(first.starting_weight, starts),
        resuming_weight: sum(later, second.resuming_weight),
    }
}

// A loop starts its body again where it ends in a later tick.
fn again(body: Measure) -> Measure
    ensures { (p : Stmt) → IsMeasure p body → IsMeasure (Loop p) result }
{
    let restarts = given(body.resuming.ends, body.starting_weight);
    Measure {
        starting: Exits {
            ends: false,
            traps: body.starting.traps,
        },
        resuming: Exits {
            ends: false,
            traps: followed(body.resuming, body.starting).traps,
        },
        resumes: body.resumes,
        starting_weight: body.starting_weight,
        resuming_weight: sum(body.resuming_weight, restarts),
    }
}

// Both statements, of which each has to end.
fn beside(left: Measure, right: Measure) -> Measure
    ensures { (p : Stmt) → (q : Stmt) → IsMeasure p left → IsMeasure q right →
        IsMeasure (Par p q) result }
{
    let resumes = left.resumes | right.resumes;
    let left_over = left.starting.ends | left.resuming.ends;
    let right_over = right.starting.ends | right.resuming.ends;
    Measure {
        starting: Exits {
            ends: left.starting.ends & right.starting.ends,
            traps: left.starting.traps | right.starting.traps,
        },
        resuming: Exits {
            ends: resumes & (left_over & right_over),
            traps: left.resuming.traps | right.resuming.traps,
        },
        resumes,
        starting_weight: sum(left.starting_weight, right.starting_weight),
        resuming_weight: sum(left.resuming_weight, right.resuming_weight),
    }
}

// An exit to the trap ends it, and the others are counted from outside it.
fn outside(body: Exits) -> Exits
    ensures { (w : Ways) → AreWays w body → AreWays (within_trap w) result }
{
    Exits {
        ends: body.ends | (body.traps % 2 == 1),
        traps: body.traps / 2,
    }
}

fn trapped(body: Measure) -> Measure
    ensures { (p : Stmt) → IsMeasure p body → IsMeasure (Trap p) result }
{
    Measure {
        starting: outside(body.starting),
        resuming: outside(body.resuming),
        resumes: body.resumes,
        starting_weight: body.starting_weight,
        resuming_weight: body.resuming_weight,
    }
}

// In a later tick a test is looked at where the body goes on.
fn tested(nodes: u64, body: Measure) -> u64
    ensures strong_or_weak { (weak : Bool) → (armed : Bool) → (t : Test) → (p : Stmt) →
        nodes ≡ capped (nodes_of_test t) →
        IsMeasure p body → result ≡ capped (resuming_weight (Abort weak armed t p)) }
    ensures suspension { (armed : Bool) → (t : Test) → (p : Stmt) →
        nodes ≡ capped (nodes_of_test t) →
        IsMeasure p body → result ≡ capped (resuming_weight (Suspend armed t p)) }
{
    sum(given(body.resumes, sum(1, nodes)), body.resuming_weight)
}

fn aborted(immediate: bool, nodes: u64, body: Measure) -> Measure
    ensures { (weak : Bool) → (t : Test) → (p : Stmt) → nodes ≡ capped (nodes_of_test t) →
        IsMeasure p body →
        IsMeasure (Abort weak immediate t p) result }
{
    let test = given(immediate, sum(1, nodes));
    Measure {
        starting: Exits {
            ends: immediate | body.starting.ends,
            traps: body.starting.traps,
        },
        resuming: Exits {
            ends: body.resumes,
            traps: body.resuming.traps,
        },
        resumes: body.resumes,
        starting_weight: sum(test, body.starting_weight),
        resuming_weight: tested(nodes, body),
    }
}

fn suspended(nodes: u64, body: Measure) -> Measure
    ensures { (armed : Bool) → (t : Test) → (p : Stmt) → nodes ≡ capped (nodes_of_test t) →
        IsMeasure p body →
        IsMeasure (Suspend armed t p) result }
{
    Measure {
        resuming_weight: tested(nodes, body),
        ..body
    }
}
