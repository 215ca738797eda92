//! The one loop in the place of both lets.

ghost use Rattle.std.specs.Prelude.{◌≡◌, true, IfOk};
ghost use Rattle.weld_joining.specs.Between.{may_come_up};
ghost use Rattle.weld_joining.specs.Joining.{are_beside, is_followed, is_pair, joined_neighbours, joined_pair};
ghost use Rattle.weld_tree.specs.ExprTree.{let_in};
ghost use Rattle.weld_joining.specs.Beside.{builder_field};
ghost use Rattle.weld_joining.specs.Parts.{at_of, from_halves, result_at, result_let};

use crate::between::take_next;
use crate::both::{Both, both_of, loop_of_both};
use crate::halves::{Half, Node, take_half};
use crate::parts::{bare, builder_field, result_let};
use std::alloc::{AllocError, Global};
use std::mem;
use weld_tree::{Binder, Expr, Form, LeafForm, Place, Sym};

/// Two lets of loops or of their results become one loop and lets of its fields or of their
/// results; what stands between them follows.
pub(crate) fn join(alloc: Global, e: &mut Expr) -> Result<(), AllocError>
    requires { is_pair e.old ≡ true }
    ensures { IfOk result (λ _. e.new ≡ joined_pair e.old) }
{
    let place = e.place;
    let ty = e.ty.copy(alloc)?;
    let outer = Node { place, ty };
    let form = mem::replace(&mut e.form, Form::Leaf(LeafForm::Truth(false)));
    let Form::Let(binder, value, rest) = form else {
        unreachable!();
    };
    let made = from_first(alloc, outer, binder, value, rest)?;
    *e = made;
    Ok(())
}

/// The same of the first `let`, taken apart.
#[tactic(auto, using(crate::proofs::TakenOut::next_beside, crate::proofs::TakenOut::next_joined))]
fn from_first(
    alloc: Global,
    outer: Node,
    binder: Binder,
    value: Box<Expr>,
    rest: Box<Expr>,
) -> Result<Expr, AllocError>
    requires followed { is_followed binder value.value rest.value ≡ true }
    requires comes { may_come_up rest.value ≡ true }
    ensures { IfOk result (λ e. e ≡ joined_pair (let_in (at_of outer) binder value.value
        rest.value)) }
{
    let next = take_next(alloc, rest)?;
    from_lets(
        alloc,
        outer,
        next.at,
        binder,
        value,
        next.binder,
        next.bound,
        next.rest,
    )
}

/// The same of both lets, taken apart.
#[tactic(auto, using(crate::proofs::Together::first_over, crate::proofs::Together::second_over))]
fn from_lets(
    alloc: Global,
    outer: Node,
    inner: Node,
    binder: Binder,
    value: Box<Expr>,
    other: Binder,
    after: Box<Expr>,
    rest: Box<Expr>,
) -> Result<Expr, AllocError>
    requires { are_beside binder value.value after.value ≡ true }
    ensures { IfOk result (λ e. e ≡ joined_neighbours (let_in (at_of outer) binder value.value
        (let_in (at_of inner) other after.value rest.value))) }
{
    let first = take_half(value);
    let second = take_half(after);
    let both = both_of(alloc, &first.run, &second.run)?;
    beside(
        alloc, both, outer, inner, binder, first, other, second, rest,
    )
}

fn beside(
    alloc: Global,
    both: Both,
    outer: Node,
    inner: Node,
    binder: Binder,
    first: Half,
    other: Binder,
    second: Half,
    rest: Box<Expr>,
) -> Result<Expr, AllocError>
    ensures { IfOk result (λ e. e
        ≡ from_halves both (at_of outer) (at_of inner) binder first other second rest.value) }
{
    let place = outer.place;
    let ty = outer.ty.copy(alloc)?;
    let number = bare(&second.run.number);
    let rest = last_let(
        alloc,
        place,
        &both,
        number.sym,
        inner,
        other,
        second.result,
        rest,
    )?;
    let rest = first_let(alloc, &both, number.sym, outer, binder, first.result, rest)?;
    let made = loop_of_both(alloc, place, both, first.run, second.run)?;
    Ok(Expr {
        form: Form::Let(number, made, rest),
        place,
        ty,
    })
}

/// The `let` of the first field or of its result.
fn first_let(
    alloc: Global,
    both: &Both,
    number: Sym,
    at: Node,
    binder: Binder,
    finish: Option<Node>,
    rest: Box<Expr>,
) -> Result<Box<Expr>, AllocError>
    ensures { IfOk result (λ b. b.value ≡ result_let (at_of at) binder (result_at finish)
        (builder_field at.place both.now.all 0 both.now.first number.0) rest.value) }
{
    let field = builder_field(alloc, at.place, &both.all, 0, &both.first, number)?;
    result_let(alloc, at, binder, finish, field, rest)
}

/// The `let` of the second field or of its result.
fn last_let(
    alloc: Global,
    place: Place,
    both: &Both,
    number: Sym,
    at: Node,
    binder: Binder,
    finish: Option<Node>,
    rest: Box<Expr>,
) -> Result<Box<Expr>, AllocError>
    ensures { IfOk result (λ b. b.value ≡ result_let (at_of at) binder (result_at finish)
        (builder_field place both.now.all 1 both.now.second number.0) rest.value) }
{
    let field = builder_field(alloc, place, &both.all, 1, &both.second, number)?;
    result_let(alloc, at, binder, finish, field, rest)
}
