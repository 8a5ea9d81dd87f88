ghost use Rattle.std.specs.Prelude.{◌≡◌, IfOk};

use java_values::{Kind, NoMemory, Op1, Op2};
use sqlite_items::Boxed;
use std::alloc::Global;

/// An expression with its kind.
#[cycle(expr)]
#[derive(Debug, Drop)]
pub struct Expr {
    pub kind: Kind,
    pub form: ExprForm,
}

#[cycle(expr)]
#[derive(Debug, Drop)]
pub enum ExprForm {
    /// A number in the range of the expression's kind.
    Literal(i64),
    /// The value of the variable of this number.
    Variable(u32),
    /// The value of the signal of this number in this tick.
    Signal(u32),
    /// The last value that was received on the channel of this number.
    Channel(u32),
    Unary(Op1, Boxed<Expr>),
    Binary(Op2, Boxed<Expr>, Boxed<Expr>),
    /// The operand's value, cast to the expression's kind.
    Cast(Boxed<Expr>),
}

impl Expr {
    /// An expression equal to this one.
    #[cycle(copy)]
    pub fn copy(&self, alloc: Global) -> Result<Expr, NoMemory>
        ensures { IfOk result (λ e. e ≡ self.now) }
    {
        let form = match &self.form {
            ExprForm::Literal(n) => ExprForm::Literal(*n),
            ExprForm::Variable(x) => ExprForm::Variable(*x),
            ExprForm::Signal(s) => ExprForm::Signal(*s),
            ExprForm::Channel(c) => ExprForm::Channel(*c),
            ExprForm::Unary(op, e) => ExprForm::Unary(*op, copied(alloc, e.get())?),
            ExprForm::Binary(op, e, f) => {
                let left = copied(alloc, e.get())?;
                ExprForm::Binary(*op, left, copied(alloc, f.get())?)
            }
            ExprForm::Cast(e) => ExprForm::Cast(copied(alloc, e.get())?),
        };
        Ok(Expr {
            kind: self.kind,
            form,
        })
    }
}

#[cycle(copy)]
fn copied(alloc: Global, e: &Expr) -> Result<Boxed<Expr>, NoMemory>
    ensures { IfOk result (λ b. b ≡ e.now) }
{
    Ok(Boxed::new(alloc, e.copy(alloc)?)?)
}
