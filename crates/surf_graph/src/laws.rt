//! Laws of starting copies.

ghost use Rattle.std.specs.Prelude.{◌≡◌, ℕ, ℤ, pos, true, false};
ghost use Rattle.kernel_terms.specs.declared.tables.Tables.{Tables};
ghost use Rattle.kernel_terms.specs.MayEnd.{LoopsWait};
ghost use Rattle.kernel_terms.specs.Statements.{Stmt};
ghost use Rattle.kernel_rules.specs.definitions.TickRule.{Tick, Ticks};
ghost use Rattle.surf_graph.specs.definitions.Copies.{Context};
ghost use Rattle.surf_graph.specs.definitions.Formulas.{Satisfies, is_on, told, told_env};
ghost use Rattle.surf_graph.specs.definitions.Operations.{OperationsShow, operations};
ghost use Rattle.surf_graph.specs.definitions.Shows.{Outside, Shows};
ghost use Rattle.surf_graph.specs.definitions.Sources.{IsSource};
ghost use Rattle.surf_graph.specs.definitions.StartingCopies.{start};
ghost use Rattle.surf_graph.specs.definitions.Tells.{Active, Silent};
ghost use Rattle.wire_code.specs.Formulas.{Satisfies as Meets};

/// For any values of wires that satisfy the equations of a starting copy: where it starts, they tell a
/// tick of the statement; where it doesn't, they tell nothing.
pub fn starting_copies_tell_ticks()
    ensures active { (tables : Tables) (f w : ℕ → ℤ) (p : Stmt) (c : Context) → IsSource tables p
        → LoopsWait p → w 0 ≡ pos 0 → Satisfies f w (start tables p c).equations
        → is_on w c.go ≡ true → is_on w c.hold ≡ false
        → Active tables (told w c.wires.last) (told_env w c.wires) (told w c.wires.variables) w p p
        c.register c.keep (start tables p c) }
    ensures silent { (tables : Tables) (f w : ℕ → ℤ) (p : Stmt) (c : Context) → w 0 ≡ pos 0
        → Satisfies f w (start tables p c).equations → is_on w c.go ≡ false
        → is_on w c.hold ≡ false → Silent w (told w c.wires.variables) (start tables p c) }
{}

/// The converse: for any values of the wires that a starting copy is given, each tick of its statement is
/// told by values of its own wires that satisfy its equations.
pub fn starting_ticks_are_told()
    ensures { (tables : Tables) (f w : ℕ → ℤ) (p : Stmt) (c : Context) (o : Tick) → Outside c
        → IsSource tables p → LoopsWait p → w 0 ≡ pos 0 → is_on w c.go ≡ true
        → is_on w c.hold ≡ false
        → Ticks tables (told w c.wires.last) p (told_env w c.wires) (told w c.wires.variables) o
        → Shows tables f w p c.register c.keep c.next (start tables p c) o }
{}

/// The same of the operations of a starting copy, its equations spelled out.
pub fn starting_operations_tell_ticks()
    ensures active { (tables : Tables) (f w : ℕ → ℤ) (p : Stmt) (c : Context) → IsSource tables p
        → LoopsWait p → w 0 ≡ pos 0 → Meets f w (operations (start tables p c))
        → is_on w c.go ≡ true → is_on w c.hold ≡ false
        → Active tables (told w c.wires.last) (told_env w c.wires) (told w c.wires.variables) w p p
        c.register c.keep (start tables p c) }
    ensures silent { (tables : Tables) (f w : ℕ → ℤ) (p : Stmt) (c : Context) → w 0 ≡ pos 0
        → Meets f w (operations (start tables p c)) → is_on w c.go ≡ false
        → is_on w c.hold ≡ false → Silent w (told w c.wires.variables) (start tables p c) }
{}

/// The converse: each tick of the statement is told by values of the copy's own wires and of the further ones of
/// its operations.
pub fn starting_ticks_are_told_by_operations()
    ensures { (tables : Tables) (f w : ℕ → ℤ) (p : Stmt) (c : Context) (o : Tick) → Outside c
        → IsSource tables p → LoopsWait p → w 0 ≡ pos 0 → is_on w c.go ≡ true
        → is_on w c.hold ≡ false
        → Ticks tables (told w c.wires.last) p (told_env w c.wires) (told w c.wires.variables) o
        → OperationsShow tables f w p c.register c.keep c.next (start tables p c) o }
{}
