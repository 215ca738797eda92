//! A value put in a name's place.

ghost use Rattle.std.specs.Prelude.{◌≡◌, IfOk};
ghost use Rattle.weld_meaning.specs.Names.{put};
ghost use Rattle.weld_substitution.specs.Uses.{is_use, use_rule};

use std::alloc::{AllocError, Global};
use weld_rewriting::sweep::{Rule, sweep};
use weld_tree::{Expr, Form, LeafForm, Sym};

/// Whether the expression is a use of the name. It takes no memory.
pub fn is_use(e: &Expr, name: Sym) -> bool
    ensures { result ≡ is_use e.now name.0 }
{
    match &e.form {
        Form::Leaf(LeafForm::Name(other)) => name.0 == other.0,
        Form::Leaf(_) | Form::One(_, _) | Form::Two(_, _, _) | Form::Three(_, _, _, _) => false,
        Form::Many(_, _) | Form::Let(_, _, _) => false,
        Form::For(_, _, _, _, _, _) | Form::Iterate(_, _, _) => false,
    }
}

/// A use of the name becomes a copy of the value.
#[derive(Clone, Copy)]
struct Use<'a> {
    name: Sym,
    value: &'a Expr,
}

impl<'a> Rule for Use<'a> {
    ghost use Rattle.weld_substitution.specs.Uses.{use_rule};

    ghost rule = { λ u. use_rule u.name.0 u.value.now };

    fn try_at(&self, alloc: Global, e: &mut Expr) -> Result<bool, AllocError> {
        if !is_use(&*e, self.name) {
            return Ok(false);
        }
        let copy = self.value.copy(alloc)?;
        *e = copy;
        Ok(true)
    }
}

/// The expression with each use of the name replaced by a copy of the value, and nothing else
/// changed. Where each binder in the expression is another number than the name and than the names
/// that occur free in the value, it means what the expression does where the name is bound to the
/// value. It fails for want of memory alone.
pub fn put_at(alloc: Global, e: Box<Expr>, name: Sym, value: &Expr) -> Result<Box<Expr>, AllocError>
    ensures { IfOk result (λ changed. changed.value ≡ put name.0 value.now e.value) }
{
    let mut e = e;
    put_in(alloc, &mut e, name, value)?;
    Ok(e)
}

/// Replaces, in the expression, each use of the name by a copy of the value, and changes nothing
/// else. It fails for want of memory alone; the expression may be anything then.
#[tactic(auto, using(crate::proofs::Put::put_is))]
pub fn put_in(alloc: Global, e: &mut Expr, name: Sym, value: &Expr) -> Result<(), AllocError>
    ensures { IfOk result (λ _. e.new ≡ put name.0 value.now e.old) }
{
    let rule = Use { name, value };
    sweep(alloc, &rule, e)?;
    Ok(())
}
