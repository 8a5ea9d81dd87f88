ghost use Rattle.std.specs.Prelude.{◌≡◌, ◌++◌, ◌∷◌, [], IfOk};

use java_values::NoMemory;
use kernel_terms::Expr;
use sj_ast::Block;
use sqlite_items::Boxed;
use std::alloc::Global;

/// Adds a value behind those of a list.
pub fn add<T: Drop>(list: &mut Vec<T>, value: T) -> Result<(), NoMemory>
    ensures { IfOk result (λ _. list.new.items ≡ list.old.items ++ value ∷ []) }
{
    list.push(value)?;
    Ok(())
}

/// The block, in memory of its own.
pub fn boxed_block(
    alloc: Global,
    block: Block<u32, Expr>,
) -> Result<Boxed<Block<u32, Expr>>, NoMemory>
    ensures { IfOk result (λ b. b ≡ block) }
{
    Ok(Boxed::new(alloc, block)?)
}
