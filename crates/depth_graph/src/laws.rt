//! Laws of resuming copies.

ghost use Rattle.std.specs.Prelude.{◌≡◌, ℕ, ℤ, pos, true, false, ◌&&◌};
ghost use Rattle.kernel_terms.specs.declared.tables.Tables.{Tables};
ghost use Rattle.kernel_terms.specs.MayEnd.{LoopsWait};
ghost use Rattle.kernel_terms.specs.Statements.{Stmt};
ghost use Rattle.kernel_rules.specs.definitions.Registers.{live, residual, FitRegisters};
ghost use Rattle.kernel_rules.specs.definitions.TickRule.{Tick, Ticks};
ghost use Rattle.surf_graph.specs.definitions.Copies.{Context};
ghost use Rattle.surf_graph.specs.definitions.Formulas.{Satisfies, is_on, told, told_env};
ghost use Rattle.surf_graph.specs.definitions.Operations.{OperationsShow, operations};
ghost use Rattle.surf_graph.specs.definitions.Shows.{Outside, Shows};
ghost use Rattle.surf_graph.specs.definitions.Sources.{IsSource};
ghost use Rattle.surf_graph.specs.definitions.Tells.{Active, Silent, Held};
ghost use Rattle.depth_graph.specs.definitions.ResumingCopies.{resume};
ghost use Rattle.wire_code.specs.Formulas.{Satisfies as Meets};

/// For any values of wires that satisfy the equations of a resuming copy: where its part is live, its
/// registers f fit and it ticks, they tell a tick of the statement that the registers stand for; where it
/// isn't live or doesn't tick, they tell nothing; where it is held, its registers stay.
pub fn resuming_copies_tell_ticks()
    ensures active { (tables : Tables) (f w : ℕ → ℤ) (p : Stmt) (c : Context) → IsSource tables p
        → LoopsWait p → w 0 ≡ pos 0 → Satisfies f w (resume tables p c).equations
        → is_on w c.go ≡ true → is_on w c.hold ≡ false → FitRegisters tables p c.register f
        → Active tables (told w c.wires.last) (told_env w c.wires) (told w c.wires.variables) w p
        (residual tables p c.register f) c.register c.keep (resume tables p c) }
    ensures silent { (tables : Tables) (f w : ℕ → ℤ) (p : Stmt) (c : Context) → w 0 ≡ pos 0
        → Satisfies f w (resume tables p c).equations
        → is_on w c.go && live tables p c.register f ≡ false → is_on w c.hold ≡ false
        → Silent w (told w c.wires.variables) (resume tables p c) }
    ensures held { (tables : Tables) (f w : ℕ → ℤ) (p : Stmt) (c : Context) → w 0 ≡ pos 0
        → Satisfies f w (resume tables p c).equations → is_on w c.go ≡ false
        → is_on w c.hold ≡ true
        → Held tables f w (told w c.wires.variables) p c.register c.keep (resume tables p c) }
{}

/// The converse: for any values of the wires that a resuming copy is given, each tick of the statement that
/// its registers stand for is told by values of its own wires that satisfy its equations.
pub fn resuming_ticks_are_told()
    ensures { (tables : Tables) (f w : ℕ → ℤ) (p : Stmt) (c : Context) (o : Tick) → Outside c
        → IsSource tables p → LoopsWait p → w 0 ≡ pos 0 → is_on w c.go ≡ true
        → is_on w c.hold ≡ false → FitRegisters tables p c.register f
        → Ticks tables (told w c.wires.last) (residual tables p c.register f) (told_env w c.wires)
        (told w c.wires.variables) o
        → Shows tables f w p c.register c.keep c.next (resume tables p c) o }
{}

/// The same of the operations of a resuming copy, its equations spelled out.
pub fn resuming_operations_tell_ticks()
    ensures active { (tables : Tables) (f w : ℕ → ℤ) (p : Stmt) (c : Context) → IsSource tables p
        → LoopsWait p → w 0 ≡ pos 0 → Meets f w (operations (resume tables p c))
        → is_on w c.go ≡ true → is_on w c.hold ≡ false → FitRegisters tables p c.register f
        → Active tables (told w c.wires.last) (told_env w c.wires) (told w c.wires.variables) w p
        (residual tables p c.register f) c.register c.keep (resume tables p c) }
    ensures silent { (tables : Tables) (f w : ℕ → ℤ) (p : Stmt) (c : Context) → w 0 ≡ pos 0
        → Meets f w (operations (resume tables p c))
        → is_on w c.go && live tables p c.register f ≡ false → is_on w c.hold ≡ false
        → Silent w (told w c.wires.variables) (resume tables p c) }
    ensures held { (tables : Tables) (f w : ℕ → ℤ) (p : Stmt) (c : Context) → w 0 ≡ pos 0
        → Meets f w (operations (resume tables p c)) → is_on w c.go ≡ false
        → is_on w c.hold ≡ true
        → Held tables f w (told w c.wires.variables) p c.register c.keep (resume tables p c) }
{}

/// The converse: each tick of the statement that the registers stand for is told by values of the copy's own
/// wires and of the further ones of its operations.
pub fn resuming_ticks_are_told_by_operations()
    ensures { (tables : Tables) (f w : ℕ → ℤ) (p : Stmt) (c : Context) (o : Tick) → Outside c
        → IsSource tables p → LoopsWait p → w 0 ≡ pos 0 → is_on w c.go ≡ true
        → is_on w c.hold ≡ false → FitRegisters tables p c.register f
        → Ticks tables (told w c.wires.last) (residual tables p c.register f) (told_env w c.wires)
        (told w c.wires.variables) o
        → OperationsShow tables f w p c.register c.keep c.next (resume tables p c) o }
{}
