//! The rule of the pass.

ghost use Rattle.std.specs.Prelude.{◌≡◌, IfOk};
ghost use Rattle.weld_inline.specs.Inlining.{lets_rule, opened};

use crate::redex::is_redex;
use std::alloc::{AllocError, Global};
use std::mem;
use weld_rewriting::sweep::Rule;
use weld_substitution::put_in;
use weld_tree::{Expr, Form, Known, LeafForm};

/// A `let` of a plain value, or one whose name is used once where the value may stand, becomes its
/// body with the value put for the name.
#[derive(Clone, Copy)]
pub struct Lets;

impl Rule for Lets {
    ghost use Rattle.weld_inline.specs.Inlining.{lets_rule};

    ghost rule = { λ _. lets_rule };

    fn try_at(&self, alloc: Global, e: &mut Expr) -> Result<bool, AllocError> {
        if !is_redex(&*e) {
            return Ok(false);
        }
        open(alloc, e)?;
        Ok(true)
    }
}

/// The body of a `let` with the value for each use of the name takes its place; what isn't a `let`
/// stays.
fn open(alloc: Global, e: &mut Expr) -> Result<(), AllocError>
    ensures { IfOk result (λ _. e.new ≡ opened e.old) }
{
    let Form::Let(binder, value, body) = &mut e.form else {
        return Ok(());
    };
    put_in(alloc, body, binder.sym, value)?;
    let place = body.place;
    let blank = Expr {
        form: Form::Leaf(LeafForm::Truth(false)),
        place,
        ty: Known::Blank,
    };
    let opened = mem::replace(&mut **body, blank);
    *e = opened;
    Ok(())
}
