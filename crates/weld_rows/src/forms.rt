//! Steps of the runner that don't recurse.

ghost use Rattle.std.specs.Prelude.{◌≡◌, ◌∷◌, [], Bool, IfSome};
ghost use Rattle.weld_meaning.specs.Thing.{plain};
ghost use Rattle.weld_eval.specs.FrameView.{env_of};
ghost use Rattle.weld_eval.specs.LegsView.{lists_of};
ghost use Rattle.weld_eval.specs.RowView.{row_value};
ghost use Rattle.weld_builders.specs.Outcome.{done};
ghost use Rattle.weld_meaning.specs.Evaluation.{one_thing};
ghost use Rattle.weld_tree.specs.ExprView.{view_one, view_two};
ghost use Rattle.weld_eval.specs.Takes.{OneTakes};
ghost use Rattle.weld_eval.specs.ThingView.{held_of, thing_of};
ghost use Rattle.weld_data.specs.View.{view_column};
ghost use Rattle.weld_eval_forms.specs.Legs.{elements_in, IsVector};
ghost use Rattle.weld_eval_plain.specs.Nodes.{decided};
ghost use Rattle.weld_eval.specs.Answers.{Answers};
ghost use Rattle.weld_tree.specs.ExprTree.{finish};
ghost use Rattle.weld_rows.specs.Nodes.{either_form, IsPairOf};
ghost use Rattle.weld_rows.specs.Numbers.{TriesNumber, number_thing, numeric, numeric_leaf, numeric_one, numeric_two, IsNumberThing};

use std::alloc::Global;
use weld_data::{Column, Stop, Val};
use weld_eval::frame::Frame;
use weld_eval::legs::Legs;
use weld_eval::number::number_of;
use weld_eval::row::RowAt;
use weld_eval::short::Short;
use weld_eval::thing::{Held, Owned, into_owned, value_of};
use weld_tree::{Expr, Exprs, Form, LeafForm, ManyForm, OneForm, Sym, ThreeForm, TwoForm};

/// Whether the form alone says that an expression is a number. It takes no memory.
pub(crate) fn is_numeric(e: &Expr) -> bool
    ensures { result ≡ numeric e.now }
{
    match &e.form {
        Form::Leaf(LeafForm::Int(_, _)) => true,
        Form::Leaf(LeafForm::Truth(_)) => true,
        Form::One(form, _) => is_numeric_one(form),
        Form::Two(form, _, _) => is_numeric_two(*form),
        Form::Three(ThreeForm::If, _, then, _) => is_numeric(then),
        Form::Three(ThreeForm::Select, _, then, _) => is_numeric(then),
        Form::Let(_, _, body) => is_numeric(body),
        _ => false,
    }
}

/// The same of a form of one part.
#[inline]
fn is_numeric_one(form: &OneForm) -> bool
    ensures { result ≡ numeric_one (view_one form.now) }
{
    match form {
        OneForm::Neg | OneForm::Not | OneForm::Cast(_) | OneForm::Len => true,
        OneForm::Field(_) | OneForm::Finish | OneForm::Builder(_) => false,
    }
}

/// The same of a form of two parts.
#[inline]
fn is_numeric_two(form: TwoForm) -> bool
    ensures { result ≡ numeric_two (view_two form) }
{
    match form {
        TwoForm::Binary(_) | TwoForm::And | TwoForm::Or | TwoForm::KeyExists => true,
        TwoForm::LookUp | TwoForm::Merge => false,
    }
}

/// Whether the first part of `&&` or `||` decides alone.
#[inline]
pub(crate) fn decides(form: TwoForm, first: bool) -> bool
    ensures { result ≡ decided form first }
{
    match form {
        TwoForm::And => !first,
        _ => first,
    }
}

/// The number that a thing is.
pub(crate) fn number_in(x: Held) -> Short
    requires { IsNumberThing (held_of x) }
    ensures { held_of x.entry ≡ number_thing result }
{
    match number_of(value_of(&x)) {
        Some(n) => n,
        None => unreachable!(),
    }
}

/// The result of a builder, where it is a number.
#[tactic(auto, using(crate::proofs::Results::has_result))]
#[inline(always)]
pub(crate) fn number_finished(builder: Owned, alloc: Global) -> Result<Option<Short>, Stop>
    requires { OneTakes finish (thing_of builder) }
    ensures { TriesNumber result (one_thing finish (thing_of builder)) }
{
    match builder {
        Owned::Built(built) => match built.finish(alloc) {
            Ok(v) => {
                let number = number_of(&v);
                let_value_go(v);
                Ok(number)
            }
            Err(_) => Err(Stop::Memory),
        },
        other => {
            let_go(other);
            Ok(None)
        }
    }
}

/// Lets a value go.
fn let_value_go(_value: Val) {}

/// A thing as one that was made.
pub(crate) fn made<'a, 'b>(held: Held<'b>, alloc: Global) -> Result<Held<'a>, Stop>
    ensures { Answers held_of result (done (held_of held.entry)) }
{
    match into_owned(held, alloc) {
        Ok(x) => Ok(Held::Made(x)),
        Err(_) => Err(Stop::Memory),
    }
}

/// Lets a thing go.
pub(crate) fn discard(_thing: Held) {}

/// The same of a thing of its own.
pub(crate) fn let_go(_thing: Owned) {}

/// The elements of a vector.
#[tactic(auto, using(crate::proofs::FormLemmas::elements_are))]
pub(crate) fn column_of<'a>(x: &'a Held<'a>) -> &'a Column
    requires { IsVector (held_of x.now) }
    ensures { view_column result.now ≡ elements_in x.now }
{
    match value_of(x) {
        Val::List(column) => column,
        _ => unreachable!(),
    }
}

/// The two parts of an expression that is a struct of two, written out.
#[tactic(auto, using(crate::proofs::Nodes::is_pair_of))]
#[inline(always)]
pub(crate) fn pair_parts(e: &Expr) -> Option<&Exprs>
    ensures { IfSome result (λ parts. IsPairOf e.now parts.now) }
{
    match &e.form {
        Form::Many(ManyForm::Struct, parts) => { if parts.len() == 2 { Some(parts) } else { None } }
        _ => None,
    }
}

/// Whether a form evaluates its second part only where it decides. It takes no memory.
#[inline]
pub(crate) fn is_either(form: TwoForm) -> bool
    ensures { result ≡ either_form (view_two form) }
{
    match form {
        TwoForm::And | TwoForm::Or => true,
        TwoForm::Binary(_) | TwoForm::LookUp | TwoForm::KeyExists | TwoForm::Merge => false,
    }
}

/// The names with one more, which stands for a number. It takes no memory.
#[inline(always)]
pub(crate) fn with_number<'a>(name: Sym, n: Short, rest: &'a Frame<'a>) -> Frame<'a>
    ensures { env_of result ≡ (name.0, number_thing n) ∷ env_of rest.now }
{
    Frame::Number(name, n, rest)
}

/// The names with one more, which stands for a row. It takes no memory.
#[inline(always)]
pub(crate) fn with_row<'a>(name: Sym, row: &'a RowAt<'a>, rest: &'a Frame<'a>) -> Frame<'a>
    ensures { env_of result ≡ (name.0, plain (row_value row.now)) ∷ env_of rest.now }
{
    Frame::Row(name, row, rest)
}

/// The names with one more, which stands for a builder. It takes no memory.
#[inline(always)]
pub(crate) fn with_builder<'a>(name: Sym, own: &'a Owned, rest: &'a Frame<'a>) -> Frame<'a>
    ensures { env_of result ≡ (name.0, thing_of own.now) ∷ env_of rest.now }
{
    Frame::Builder(name, own, rest)
}

/// No legs. It takes no memory.
pub(crate) fn no_legs<'a>() -> Legs<'a>
    ensures { lists_of result ≡ [] }
{
    Legs::End
}

/// The legs with one before them. It takes no memory.
pub(crate) fn link<'a>(column: &'a Column, rest: &'a Legs<'a>) -> Legs<'a>
    ensures { lists_of result ≡ view_column column.now ∷ lists_of rest.now }
{
    Legs::And(column, rest)
}
