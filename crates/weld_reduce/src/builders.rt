//! Builders, as types and as expressions.
ghost use Rattle.std.specs.Prelude.{◌≡◌, ◌∷◌, Some, None, IfOk, OnOk, IfErr};
ghost use Rattle.weld_tree.specs.TypeView.{view_build};
ghost use Rattle.weld_tree.specs.TypeTree.{build as build_type};
ghost use Rattle.weld_tree.specs.ExprTree as trees;
ghost use Rattle.weld_tree.specs.ExprTree.{fresh, started};
ghost use Rattle.weld_reduce.specs.declared.stop.Stop.TheVariants.{Broken};
ghost use Rattle.weld_reduce.specs.Values.{ty, expr};
ghost use Rattle.weld_reduce.specs.Forms as forms;
ghost use Rattle.weld_reduce.specs.Forms.{at};
ghost use Rattle.weld_reduce.specs.Operators.{built_at};

use crate::nodes::{leaf, one};
use crate::stop::Stop;
use crate::value::Value;
use crate::values::Values;
use std::alloc::{AllocError, Global};
use weld_grammar::Rule;
use weld_tree::{BuildTy, Expr, LeafForm, OneForm, Place, Ty, TyForm};

/// A builder with the place of its word.
#[derive(Drop)]
pub struct Built {
    pub place: Place,
    pub build: BuildTy,
}

/// `word [ t`
fn list_built(values: &mut Values) -> Result<Built, Stop>
    ensures ok { IfOk result
        (λ b. forms.list_built values.old ≡ Some ((b.place, view_build b.build), values.new)) }
    ensures broken { IfErr result (λ stop. forms.list_built values.old ≡ None) }
{
    let (_, item) = values.pop_type()?;
    values.pop_token()?;
    let word = values.pop_token()?;
    Ok(Built {
        place: word.place,
        build: BuildTy::List(item),
    })
}

/// `word [ t o`
fn total_built(values: &mut Values) -> Result<Built, Stop>
    ensures ok { IfOk result
        (λ b. forms.total_built values.old ≡ Some ((b.place, view_build b.build), values.new)) }
    ensures broken { IfErr result (λ stop. forms.total_built values.old ≡ None) }
{
    let op = values.pop_op()?;
    let (_, item) = values.pop_type()?;
    values.pop_token()?;
    let word = values.pop_token()?;
    Ok(Built {
        place: word.place,
        build: BuildTy::Total(item, op),
    })
}

/// `word [ t u o`
fn keyed_built(values: &mut Values) -> Result<Built, Stop>
    ensures ok { IfOk result
        (λ b. forms.keyed_built values.old ≡ Some ((b.place, view_build b.build), values.new)) }
    ensures broken { IfErr result (λ stop. forms.keyed_built values.old ≡ None) }
{
    let op = values.pop_op()?;
    let (_, value) = values.pop_type()?;
    let (_, key) = values.pop_type()?;
    values.pop_token()?;
    let word = values.pop_token()?;
    Ok(Built {
        place: word.place,
        build: BuildTy::Keyed(key, value, op),
    })
}

/// `word [ t o`
fn cells_built(values: &mut Values) -> Result<Built, Stop>
    ensures ok { IfOk result
        (λ b. forms.cells_built values.old ≡ Some ((b.place, view_build b.build), values.new)) }
    ensures broken { IfErr result (λ stop. forms.cells_built values.old ≡ None) }
{
    let op = values.pop_op()?;
    let (_, item) = values.pop_type()?;
    values.pop_token()?;
    let word = values.pop_token()?;
    Ok(Built {
        place: word.place,
        build: BuildTy::Cells(item, op),
    })
}

/// `word [ t u`
fn groups_built(values: &mut Values) -> Result<Built, Stop>
    ensures ok { IfOk result
        (λ b. forms.groups_built values.old ≡ Some ((b.place, view_build b.build), values.new)) }
    ensures broken { IfErr result (λ stop. forms.groups_built values.old ≡ None) }
{
    let (_, value) = values.pop_type()?;
    let (_, key) = values.pop_type()?;
    values.pop_token()?;
    let word = values.pop_token()?;
    Ok(Built {
        place: word.place,
        build: BuildTy::Groups(key, value),
    })
}

/// The builder as a type.
fn push_type(alloc: Global, built: Built, values: &mut Values) -> Result<(), AllocError>
    ensures { OnOk result
        (values.new ≡ ty built.place (build_type (view_build built.build)) ∷ values.old) }
{
    let Built { place, build } = built;
    let ty = Box::new(
        alloc,
        Ty {
            form: TyForm::Build(build),
        },
    )?;
    values.push(Value::Type(place, ty))
}

/// The builder as an expression.
fn push_fresh(alloc: Global, built: Built, values: &mut Values) -> Result<(), AllocError>
    ensures { OnOk result
        (values.new ≡ expr (trees.leaf (at built.place) (fresh (view_build built.build)))
        ∷ values.old) }
{
    let Built { place, build } = built;
    let node = leaf(alloc, place, LeafForm::Builder(build))?;
    values.push(Value::Expr(node))
}

/// The builder from a starting value.
fn push_started(
    alloc: Global,
    built: Built,
    e: Box<Expr>,
    values: &mut Values,
) -> Result<(), AllocError>
    ensures { OnOk result
        (values.new ≡ expr (trees.one (at built.place) (started (view_build built.build)) e.value)
        ∷ values.old) }
{
    let Built { place, build } = built;
    let node = one(alloc, place, OneForm::Builder(build), e)?;
    values.push(Value::Expr(node))
}

/// The builder at its rule.
fn built_at(rule: Rule, values: &mut Values) -> Result<Built, Stop>
    ensures ok { IfOk result
        (λ b. built_at rule values.old ≡ Some ((b.place, view_build b.build), values.new)) }
    ensures broken { IfErr result (λ _. built_at rule values.old ≡ None) }
{
    match rule {
        Rule::ListBuild | Rule::ListType => list_built(values),
        Rule::TotalBuild | Rule::TotalType => total_built(values),
        Rule::KeyedBuild | Rule::KeyedType => keyed_built(values),
        Rule::CellsBuild | Rule::CellsType => cells_built(values),
        _ => groups_built(values),
    }
}

/// The builder of a rule as a type.
pub fn builder_type(alloc: Global, rule: Rule, values: &mut Values) -> Result<(), Stop>
    ensures ok { OnOk result (forms.as_type (built_at rule values.old) ≡ Some values.new) }
    ensures broken { IfErr result
        (λ stop. stop ≡ Broken → forms.as_type (built_at rule values.old) ≡ None) }
{
    let built = built_at(rule, values)?;
    push_type(alloc, built, values)?;
    Ok(())
}

/// The builder of a rule as an expression.
pub fn fresh_builder(alloc: Global, rule: Rule, values: &mut Values) -> Result<(), Stop>
    ensures ok { OnOk result (forms.as_fresh (built_at rule values.old) ≡ Some values.new) }
    ensures broken { IfErr result
        (λ stop. stop ≡ Broken → forms.as_fresh (built_at rule values.old) ≡ None) }
{
    let built = built_at(rule, values)?;
    push_fresh(alloc, built, values)?;
    Ok(())
}

/// The builder of a rule from a starting value.
fn started_builder(alloc: Global, rule: Rule, e: Box<Expr>, values: &mut Values) -> Result<(), Stop>
    ensures ok { OnOk result
        (forms.as_started e.value (built_at rule values.old) ≡ Some values.new) }
    ensures broken { IfErr result
        (λ stop. stop ≡ Broken → forms.as_started e.value (built_at rule values.old) ≡ None) }
{
    let built = built_at(rule, values)?;
    push_started(alloc, built, e, values)?;
    Ok(())
}

/// A builder of one number, perhaps from a starting value.
pub fn total_builder(alloc: Global, values: &mut Values) -> Result<(), Stop>
    ensures ok { OnOk result (forms.total_builder values.old ≡ Some values.new) }
    ensures broken { IfErr result (λ stop. stop ≡ Broken → forms.total_builder values.old ≡ None) }
{
    if !values.has_expr() {
        return fresh_builder(alloc, Rule::TotalBuild, values);
    }
    let e = values.pop_expr()?;
    started_builder(alloc, Rule::TotalBuild, e, values)
}

/// A builder of numbers by places, from a starting value.
pub fn cells_builder(alloc: Global, values: &mut Values) -> Result<(), Stop>
    ensures ok { OnOk result (forms.cells_builder values.old ≡ Some values.new) }
    ensures broken { IfErr result (λ stop. stop ≡ Broken → forms.cells_builder values.old ≡ None) }
{
    let e = values.pop_expr()?;
    started_builder(alloc, Rule::CellsBuild, e, values)
}
