ghost use Rattle.std.specs.Prelude.{◌≡◌, ◌++◌, ◌∷◌, [], IfOk};
ghost use Rattle.sj_names.specs.VisibleNames.{scope_of};
ghost use Rattle.sj_names.specs.definitions.Mentions.{mention, expression_mentions, test_mentions};

use crate::mention::{Mention, Role};
use crate::names::Names;
use java_values::NoMemory;
use sj_ast::{Name, Raw, Test};

/// Adds the name with this role.
pub fn add_name(
    names: &Names<'_>,
    role: Role,
    name: &Name,
    mentions: &mut Vec<Mention>,
) -> Result<(), NoMemory>
    ensures { IfOk result (λ _. mentions.new.items ≡
        mentions.old.items ++ mention role name.now (scope_of names.now) ∷ []) }
{
    mentions.push(Mention {
        at: name.at,
        role,
        meaning: names.meaning(name.text.bytes()),
    })?;
    Ok(())
}

/// Adds the names of the expression.
pub fn add_expression(
    names: &Names<'_>,
    expression: &Raw<Name>,
    mentions: &mut Vec<Mention>,
) -> Result<(), NoMemory>
    ensures { IfOk result (λ _. mentions.new.items ≡
        mentions.old.items ++ expression_mentions expression.now (scope_of names.now)) }
{
    match expression {
        Raw::Literal { .. } | Raw::Least { .. } => Ok(()),
        Raw::Variable { at: _, name } => add_name(names, Role::Variable, name, mentions),
        Raw::Status { name, .. } => add_name(names, Role::Status, name, mentions),
        Raw::Unary { operand, .. } => add_expression(names, operand.get(), mentions),
        Raw::Cast { operand, .. } => add_expression(names, operand.get(), mentions),
        Raw::Group { inner, .. } => add_expression(names, inner.get(), mentions),
        Raw::Binary { left, right, .. } => {
            add_expression(names, left.get(), mentions)?;
            add_expression(names, right.get(), mentions)
        }
    }
}

/// Adds the names of the test.
pub fn add_test(
    names: &Names<'_>,
    test: &Test<Name>,
    mentions: &mut Vec<Mention>,
) -> Result<(), NoMemory>
    ensures { IfOk result (λ _. mentions.new.items ≡
        mentions.old.items ++ test_mentions test.now (scope_of names.now)) }
{
    match test {
        Test::Signal { at: _, name } => add_name(names, Role::Test, name, mentions),
        Test::Not { test, .. } => add_test(names, test.get(), mentions),
        Test::Group { inner, .. } => add_test(names, inner.get(), mentions),
        Test::Both { left, right, .. } => {
            add_test(names, left.get(), mentions)?;
            add_test(names, right.get(), mentions)
        }
        Test::Either { left, right, .. } => {
            add_test(names, left.get(), mentions)?;
            add_test(names, right.get(), mentions)
        }
    }
}
