ghost use Rattle.std.specs.Prelude.{◌≡◌, IfOk};

use java_values::NoMemory;
use sj_ast::Test;
use sqlite_items::Boxed;
use std::alloc::Global;

/// A test equal to this one.
pub fn copied(alloc: Global, test: &Test<u32>) -> Result<Test<u32>, NoMemory>
    ensures { IfOk result (λ t. t ≡ test.now) }
{
    match test {
        Test::Signal { at, name } => Ok(Test::Signal {
            at: *at,
            name: *name,
        }),
        Test::Not { at, test } => Ok(Test::Not {
            at: *at,
            test: Boxed::new(alloc, copied(alloc, test.get())?)?,
        }),
        Test::Group { at, inner } => Ok(Test::Group {
            at: *at,
            inner: Boxed::new(alloc, copied(alloc, inner.get())?)?,
        }),
        Test::Both { at, left, right } => {
            let left = Boxed::new(alloc, copied(alloc, left.get())?)?;
            Ok(Test::Both {
                at: *at,
                left,
                right: Boxed::new(alloc, copied(alloc, right.get())?)?,
            })
        }
        Test::Either { at, left, right } => {
            let left = Boxed::new(alloc, copied(alloc, left.get())?)?;
            Ok(Test::Either {
                at: *at,
                left,
                right: Boxed::new(alloc, copied(alloc, right.get())?)?,
            })
        }
    }
}
