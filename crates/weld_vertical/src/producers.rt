//! Loops over what other loops make.

ghost use Rattle.std.specs.Prelude.{◌≡◌, min};
ghost use Rattle.weld_tree.specs.ExprTree.{pack_legs};
ghost use Rattle.weld_tree.specs.ExprView.{view_leg};
ghost use Rattle.weld_tree.specs.TypeView.{view_build};
ghost use Rattle.weld_vertical.specs.Sinking.{ends_in_merge, is_consumer, is_filter, is_list, is_made, is_only_leg, is_produced, is_produced_leg, is_producer, is_spine, merges, starts_list};

use weld_substitution::{is_use, uses_of};
use weld_tree::{BuildTy, Expr, Form, LeafForm, Leg, Legs, OneForm, Sym, ThreeForm, TwoForm};

/// Whether the expression is a loop whose only leg is the list that another loop makes, which starts
/// with an empty `vecbuilder` and merges once a row; or once or not at all, at one place, where the
/// first doesn't use its row number. It takes no memory.
pub(crate) fn is_consumer(e: &Expr) -> bool
    ensures { result ≡ is_consumer e.now }
{
    match &e.form {
        Form::For(legs, _, _, number, _, body) => is_only_leg(number.sym, body, legs),
        _ => false,
    }
}

fn is_only_leg(number: Sym, body: &Expr, legs: &Legs) -> bool
    ensures { result ≡ is_only_leg number.0 body.now (pack_legs legs.now) }
{
    match legs.as_slice() {
        [leg] => is_produced_leg(number, body, leg),
        _ => false,
    }
}

fn is_produced_leg(number: Sym, body: &Expr, leg: &Leg) -> bool
    ensures { result ≡ is_produced_leg number.0 body.now (view_leg leg.now) }
{
    match leg {
        Leg::Whole(e) => is_produced(number, body, e),
        Leg::Strided(_, _, _, _) => false,
    }
}

fn is_produced(number: Sym, body: &Expr, e: &Expr) -> bool
    ensures { result ≡ is_produced number.0 body.now e.now }
{
    match &e.form {
        Form::One(OneForm::Finish, part) => is_made(number, body, part),
        _ => false,
    }
}

/// Whether it makes a list for a consumer with this row number and body.
#[tactic(auto, using(crate::proofs::Once::none_is))]
fn is_made(number: Sym, body: &Expr, e: &Expr) -> bool
    ensures { result ≡ is_made number.0 body.now e.now }
{
    is_producer(e) || (is_filter(e) && uses_of(body, number) == 0)
}

#[tactic(auto, using(crate::proofs::Once::once_is))]
fn is_producer(e: &Expr) -> bool
    ensures { result ≡ is_producer e.now }
{
    match &e.form {
        Form::For(_, start, builder, _, _, body) => {
            starts_list(start)
                && (ends_in_merge(body, builder.sym) && uses_of(body, builder.sym) == 1)
        }
        _ => false,
    }
}

#[tactic(auto, using(crate::proofs::Once::once_is))]
fn is_filter(e: &Expr) -> bool
    ensures { result ≡ is_filter e.now }
{
    match &e.form {
        Form::For(_, start, builder, _, _, body) => {
            starts_list(start) && (is_spine(body, builder.sym) && merges(body) == 1)
        }
        _ => false,
    }
}

/// Whether it is an empty `vecbuilder`.
fn starts_list(e: &Expr) -> bool
    ensures { result ≡ starts_list e.now }
{
    match &e.form {
        Form::Leaf(LeafForm::Builder(build)) => is_list(build),
        _ => false,
    }
}

fn is_list(build: &BuildTy) -> bool
    ensures { result ≡ is_list (view_build build.now) }
{
    match build {
        BuildTy::List(_) => true,
        BuildTy::Total(_, _) | BuildTy::Keyed(_, _, _) => false,
        BuildTy::Cells(_, _) | BuildTy::Groups(_, _) => false,
    }
}

/// Whether it is lets, perhaps none, that end in a merge into the name.
fn ends_in_merge(e: &Expr, name: Sym) -> bool
    ensures { result ≡ ends_in_merge name.0 e.now }
{
    match &e.form {
        Form::Let(_, _, body) => ends_in_merge(body, name),
        Form::Two(TwoForm::Merge, builder, _) => is_use(builder, name),
        _ => false,
    }
}

/// Whether it is lets and ifs, perhaps none, at each end of which stands the name or a merge into it,
/// and the name is used nowhere else.
#[tactic(auto, using(crate::proofs::Once::none_is))]
fn is_spine(e: &Expr, name: Sym) -> bool
    ensures { result ≡ is_spine name.0 e.now }
{
    match &e.form {
        Form::Leaf(_) => is_use(e, name),
        Form::Let(_, value, body) => uses_of(value, name) == 0 && is_spine(body, name),
        Form::Two(TwoForm::Merge, builder, value) => {
            is_use(builder, name) && uses_of(value, name) == 0
        }
        Form::Three(ThreeForm::If, condition, first, second) => {
            uses_of(condition, name) == 0 && (is_spine(first, name) && is_spine(second, name))
        }
        _ => false,
    }
}

/// How many of the ends are merges, or the greatest u64 where that is less.
pub(crate) fn merges(e: &Expr) -> u64
    ensures { result ≡ min (merges e.now) u64.MAX }
{
    match &e.form {
        Form::Let(_, _, body) => merges(body),
        Form::Two(_, _, _) => 1,
        Form::Three(_, _, first, second) => merges(first).saturating_add(merges(second)),
        _ => 0,
    }
}
