//! The statements, expressions and tests that trees stand for, form by form.

ghost use Rattle.std.specs.Prelude.{◌≡◌, ℕ, ℤ, pos, Bool, true, false, [], ◌∷◌, Some, None};
ghost use Rattle.java_values.specs.declared.kind.Kind.TheVariants as kind;
ghost use Rattle.java_values.specs.declared.op.Op1.{Op1};
ghost use Rattle.java_values.specs.declared.op.Op1.TheVariants as op1;
ghost use Rattle.java_values.specs.declared.op.Op2.{Op2};
ghost use Rattle.java_values.specs.declared.op.Op2.TheVariants as op2;
ghost use Rattle.kernel_terms.specs.declared.expr.Expr.{Expr};
ghost use Rattle.kernel_terms.specs.declared.expr.ExprForm.TheViews as tree;
ghost use Rattle.kernel_terms.specs.declared.expr.ExprForm.TheVariants as node;
ghost use Rattle.kernel_terms.specs.declared.sig_test.SigTest.{SigTest};
ghost use Rattle.kernel_terms.specs.declared.sig_test.SigTest.TheViews as sig_tree;
ghost use Rattle.kernel_terms.specs.declared.sig_test.SigTest.TheVariants as sig_node;
ghost use Rattle.kernel_terms.specs.declared.term.Term.{Term};
ghost use Rattle.kernel_terms.specs.declared.term.Form.TheViews as form;
ghost use Rattle.kernel_terms.specs.declared.term.Form.TheVariants as plain;
ghost use Rattle.kernel_terms.specs.Divisors.{is_divisor, has_divisors};
ghost use Rattle.kernel_terms.specs.DivisorRows.{by_zero};
ghost use Rattle.kernel_terms.specs.Expressions.{expression, test, IsPresent, Not, Both, Either};
ghost use Rattle.kernel_terms.specs.Expressions.{Literal, Variable, SignalValue, ChannelValue, Unary, Binary, Cast};
ghost use Rattle.kernel_terms.specs.Statements.{statement, Nothing, Pause, Emit, Assign, If, Present};
ghost use Rattle.kernel_terms.specs.Statements.{Seq, Loop, Par, Trap, Exit, Abort, Suspend, Local, Send, Receive};

/// A list of parts nests to the right. One part stands for itself, and none for nothing.
pub fn parts_nest_to_the_right()
    ensures none { (t : Term) → t.form ≡ form.Seq [] → statement t ≡ Nothing }
    ensures one { (t p : Term) → t.form ≡ form.Seq (p ∷ []) → statement t ≡ statement p }
    ensures two { (t p q : Term) → t.form ≡ form.Seq (p ∷ q ∷ []) →
        statement t ≡ Seq (statement p) (statement q) }
    ensures four { (t p q r u : Term) → t.form ≡ form.Seq (p ∷ q ∷ r ∷ u ∷ [])
        → statement t ≡ Seq (statement p) (Seq (statement q) (Seq (statement r) (statement u))) }
    ensures none_beside { (t : Term) → t.form ≡ form.Par [] → statement t ≡ Nothing }
    ensures one_beside { (t p : Term) → t.form ≡ form.Par (p ∷ []) → statement t ≡ statement p }
    ensures two_beside { (t p q : Term) → t.form ≡ form.Par (p ∷ q ∷ []) →
        statement t ≡ Par (statement p) (statement q) }
    ensures four_beside { (t p q r u : Term) → t.form ≡ form.Par (p ∷ q ∷ r ∷ u ∷ [])
        → statement t ≡ Par (statement p) (Par (statement q) (Par (statement r) (statement u))) }
{}

/// An abort begins armed exactly if it is immediate, a suspend begins unarmed, and a local signal begins with
/// the value 0.
pub fn bodies_begin_anew()
    ensures strong { (t p : Term) (a : SigTest) → t.form ≡ form.Abort false false a p
        → statement t ≡ Abort false false (test a) (statement p) }
    ensures strong_immediate { (t p : Term) (a : SigTest) → t.form ≡ form.Abort false true a p
        → statement t ≡ Abort false true (test a) (statement p) }
    ensures weak { (t p : Term) (a : SigTest) → t.form ≡ form.Abort true false a p
        → statement t ≡ Abort true false (test a) (statement p) }
    ensures weak_immediate { (t p : Term) (a : SigTest) → t.form ≡ form.Abort true true a p
        → statement t ≡ Abort true true (test a) (statement p) }
    ensures suspend { (t p : Term) (a : SigTest) → t.form ≡ form.Suspend a p
        → statement t ≡ Suspend false (test a) (statement p) }
    ensures local { (t p : Term) (s : ℕ) → t.form ≡ form.Local s p →
        statement t ≡ Local s (pos 0) (statement p) }
{}

/// Each other form with parts stands for the same form on the statements of its parts.
pub fn forms_keep_their_parts()
    ensures choice { (t p q : Term) (e : Expr) → t.form ≡ form.If e p q
        → statement t ≡ If (expression e) (statement p) (statement q) }
    ensures present { (t p q : Term) (a : SigTest) → t.form ≡ form.Present a p q
        → statement t ≡ Present (test a) (statement p) (statement q) }
    ensures loop_ { (t p : Term) → t.form ≡ form.Loop p → statement t ≡ Loop (statement p) }
    ensures trap { (t p : Term) → t.form ≡ form.Trap p → statement t ≡ Trap (statement p) }
{}

/// Each form without parts stands for the same form.
pub fn forms_without_parts_stay()
    ensures nothing { (t : Term) → t.form ≡ plain.Nothing → statement t ≡ Nothing }
    ensures pause { (t : Term) → t.form ≡ plain.Pause → statement t ≡ Pause }
    ensures emit { (t : Term) (s : ℕ) → t.form ≡ plain.Emit s None → statement t ≡ Emit s None }
    ensures emit_value { (t : Term) (s : ℕ) (e : Expr) → t.form ≡ plain.Emit s (Some e)
        → statement t ≡ Emit s (Some (expression e)) }
    ensures assign { (t : Term) (x : ℕ) (e : Expr) → t.form ≡ plain.Assign x e →
        statement t ≡ Assign x (expression e) }
    ensures exit { (t : Term) (d : ℕ) → t.form ≡ plain.Exit d → statement t ≡ Exit d }
    ensures send { (t : Term) (c : ℕ) (e : Expr) → t.form ≡ plain.Send c e →
        statement t ≡ Send c (expression e) }
    ensures receive { (t : Term) (c : ℕ) → t.form ≡ plain.Receive c → statement t ≡ Receive c }
{}

/// Each node of an expression stands for the same form at its own kind, and its operands for theirs.
pub fn nodes_keep_their_kinds()
    ensures literal { (e : Expr) (n : ℤ) → e.form ≡ node.Literal n →
        expression e ≡ Literal e.kind n }
    ensures variable { (e : Expr) (x : ℕ) → e.form ≡ node.Variable x →
        expression e ≡ Variable e.kind x }
    ensures signal { (e : Expr) (s : ℕ) → e.form ≡ node.Signal s →
        expression e ≡ SignalValue e.kind s }
    ensures channel { (e : Expr) (c : ℕ) → e.form ≡ node.Channel c →
        expression e ≡ ChannelValue e.kind c }
    ensures unary { (e f : Expr) (o : Op1) → e.form ≡ tree.Unary o f →
        expression e ≡ Unary e.kind o (expression f) }
    ensures binary { (e f g : Expr) (o : Op2) → e.form ≡ tree.Binary o f g
        → expression e ≡ Binary e.kind o (expression f) (expression g) }
    ensures cast { (e f : Expr) → e.form ≡ tree.Cast f → expression e ≡ Cast e.kind (expression f) }
{}

/// Each test stands for the same test on those that its parts stand for.
pub fn tests_keep_their_parts()
    ensures signal { (s : ℕ) → test (sig_node.Signal s) ≡ IsPresent s }
    ensures not { (a : SigTest) → test (sig_tree.Not a) ≡ Not (test a) }
    ensures both { (a b : SigTest) → test (sig_tree.Both a b) ≡ Both (test a) (test b) }
    ensures either { (a b : SigTest) → test (sig_tree.Either a b) ≡ Either (test a) (test b) }
{}

/// A divisor is an integer or character literal other than 0, or a minus before an integer literal other than 0.
pub fn divisors_are_literals()
    ensures number { is_divisor (Literal kind.Int (pos 5)) ≡ true }
    ensures long_number { is_divisor (Literal kind.Long (pos 5)) ≡ true }
    ensures character { is_divisor (Literal kind.Char (pos 97)) ≡ true }
    ensures zero { is_divisor (Literal kind.Int (pos 0)) ≡ false }
    ensures truth { is_divisor (Literal kind.Boolean (pos 1)) ≡ false }
    ensures minus { is_divisor (Unary kind.Int op1.Minus (Literal kind.Int (pos 5))) ≡ true }
    ensures minus_zero { is_divisor (Unary kind.Int op1.Minus (Literal kind.Int (pos 0))) ≡ false }
    ensures minus_character { is_divisor (Unary kind.Int op1.Minus (Literal kind.Char (pos 97))) ≡
        false }
    ensures plus { is_divisor (Unary kind.Int op1.Plus (Literal kind.Int (pos 5))) ≡ false }
    ensures cast { is_divisor (Cast kind.Int (Literal kind.Int (pos 5))) ≡ false }
    ensures variable { has_divisors (Binary kind.Int op2.Div (Variable kind.Int 0)
        (Variable kind.Int 1)) ≡ false }
    ensures rest { has_divisors (Binary kind.Int op2.Rem (Variable kind.Int 0)
        (Variable kind.Int 1)) ≡ false }
    ensures sum { has_divisors (Binary kind.Int op2.Add (Variable kind.Int 0) (Variable kind.Int 1))
        ≡ true }
    ensures below { has_divisors (Cast kind.Int by_zero) ≡ false }
    ensures below_minus { has_divisors (Unary kind.Int op1.Minus by_zero) ≡ false }
    ensures left { has_divisors (Binary kind.Int op2.Add by_zero (Literal kind.Int (pos 1))) ≡ false }
    ensures right { has_divisors (Binary kind.Int op2.Add (Literal kind.Int (pos 1)) by_zero) ≡ false }
    ensures dividend { has_divisors (Binary kind.Int op2.Div by_zero (Literal kind.Int (pos 1))) ≡
        false }
    ensures allowed { has_divisors (Binary kind.Int op2.Div (Literal kind.Int (pos 0))
        (Literal kind.Int (pos 1))) ≡ true }
{}
