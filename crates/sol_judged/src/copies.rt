// Copies of expressions, for constants.

ghost use Rattle.std.specs.Prelude.{◌≡◌, IfOk};

use chc_nums::NoMemory;
use sol_core::Expr;
use sqlite_items::{Boxed, Items};
use std::alloc::Global;

#[cycle(copy_expr)]
fn copy_boxed(alloc: Global, e: &Expr) -> Result<Boxed<Expr>, NoMemory>
    ensures { IfOk result (λ b. b ≡ e.now) }
{
    Ok(Boxed::new(alloc, copy_expr(alloc, e)?)?)
}

/// An expression that is equal to this one.
#[cycle(copy_expr)]
pub fn copy_expr(alloc: Global, e: &Expr) -> Result<Expr, NoMemory>
    ensures { IfOk result (λ c. c ≡ e.now) }
{
    match e {
        Expr::Num(z, ty) => Ok(Expr::Num(*z, *ty)),
        Expr::Local(i) => Ok(Expr::Local(*i)),
        Expr::Scalar(i) => Ok(Expr::Scalar(*i)),
        Expr::MapAt(m, keys) => Ok(Expr::MapAt(*m, copy_all(alloc, keys.as_slice())?)),
        Expr::ElemAt(a, index, site) => {
            Ok(Expr::ElemAt(*a, copy_boxed(alloc, index.get())?, *site))
        }
        Expr::Len(a) => Ok(Expr::Len(*a)),
        Expr::Sender => Ok(Expr::Sender),
        Expr::Arith(op, ty, checked, a, b, sites) => {
            let a = copy_boxed(alloc, a.get())?;
            let b = copy_boxed(alloc, b.get())?;
            Ok(Expr::Arith(*op, *ty, *checked, a, b, *sites))
        }
        Expr::Compare(cmp, a, b) => {
            let a = copy_boxed(alloc, a.get())?;
            let b = copy_boxed(alloc, b.get())?;
            Ok(Expr::Compare(*cmp, a, b))
        }
        Expr::Not(a) => Ok(Expr::Not(copy_boxed(alloc, a.get())?)),
        Expr::Both(a, b) => {
            let a = copy_boxed(alloc, a.get())?;
            let b = copy_boxed(alloc, b.get())?;
            Ok(Expr::Both(a, b))
        }
        Expr::Either(a, b) => {
            let a = copy_boxed(alloc, a.get())?;
            let b = copy_boxed(alloc, b.get())?;
            Ok(Expr::Either(a, b))
        }
        Expr::Pick(c, a, b) => {
            let c = copy_boxed(alloc, c.get())?;
            let a = copy_boxed(alloc, a.get())?;
            let b = copy_boxed(alloc, b.get())?;
            Ok(Expr::Pick(c, a, b))
        }
        Expr::Cast(from, to, a) => Ok(Expr::Cast(*from, *to, copy_boxed(alloc, a.get())?)),
        Expr::Call(f, arguments) => Ok(Expr::Call(*f, copy_all(alloc, arguments.as_slice())?)),
    }
}

#[cycle(copy_expr)]
fn copy_all(alloc: Global, all: &[Expr]) -> Result<Items<Expr>, NoMemory>
    ensures { IfOk result (λ made. made ≡ all.now) }
{
    let mut made = Items::new(alloc);
    for e in all {
        made.push(copy_expr(alloc, e)?)?;
    }
    Ok(made)
}
