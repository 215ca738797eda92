//! Where the builders come from that an expression answers.

ghost use Rattle.std.specs.Prelude.{◌≡◌, ◌∷◌, IfOk};
ghost use Rattle.weld_tree.specs.ExprTree.{pack_exprs};
ghost use Rattle.weld_tree.specs.ExprView.{view_leaf, view_many, view_one, view_three, view_two};
ghost use Rattle.weld_meaning.specs.Origin.{leaf_origin, many_origin, one_origin, origin, origins, three_origin, two_origin};
ghost use Rattle.weld_linear.specs.Sources.{pack_origins};

use std::alloc::{AllocError, Global};
use weld_linear::{Scope, Source, Sources};
use weld_tree::{Binder, Expr, Exprs, Form, LeafForm, ManyForm, OneForm, ThreeForm, TwoForm};

/// Where the builders come from that the expression answers, by the origins of names. It fails for
/// want of memory alone.
#[cycle(source)]
pub(crate) fn source_of(e: &Expr, scope: &Scope, alloc: Global) -> Result<Source, AllocError>
    ensures { IfOk result (λ o. o ≡ origin e.now scope.now) }
{
    match &e.form {
        Form::Leaf(leaf) => leaf_source(leaf, scope, alloc),
        Form::One(one, part) => source_of_one(one, part, scope, alloc),
        Form::Two(two, first, _) => source_of_two(*two, first, scope, alloc),
        Form::Three(three, _, second, _) => source_of_three(*three, second, scope, alloc),
        Form::Many(many, parts) => source_of_many(*many, parts, scope, alloc),
        Form::Let(binder, value, body) => source_of_let(binder, value, body, scope, alloc),
        Form::For(_, builder, _, _, _, _) => source_of(builder, scope, alloc),
        Form::Iterate(_, _, _) => Ok(Source::value()),
    }
}

#[cycle(source)]
fn source_of_one(
    one: &OneForm,
    part: &Expr,
    scope: &Scope,
    alloc: Global,
) -> Result<Source, AllocError>
    ensures { IfOk result (λ o. o ≡ one_origin (view_one one.now) (origin part.now scope.now)) }
{
    match one {
        OneForm::Field(_) => {
            let source = source_of(part, scope, alloc)?;
            one_source(one, &source, alloc)
        }
        OneForm::Builder(_) => Ok(Source::made()),
        OneForm::Neg | OneForm::Not | OneForm::Cast(_) => Ok(Source::value()),
        OneForm::Len | OneForm::Finish => Ok(Source::value()),
    }
}

#[cycle(source)]
fn source_of_two(
    two: TwoForm,
    first: &Expr,
    scope: &Scope,
    alloc: Global,
) -> Result<Source, AllocError>
    ensures { IfOk result (λ o. o ≡ two_origin (view_two two) (origin first.now scope.now)) }
{
    match two {
        TwoForm::Merge => source_of(first, scope, alloc),
        TwoForm::Binary(_) | TwoForm::And | TwoForm::Or => Ok(Source::value()),
        TwoForm::LookUp | TwoForm::KeyExists => Ok(Source::value()),
    }
}

#[cycle(source)]
fn source_of_three(
    three: ThreeForm,
    second: &Expr,
    scope: &Scope,
    alloc: Global,
) -> Result<Source, AllocError>
    ensures { IfOk result (λ o. o ≡ three_origin (view_three three) (origin second.now scope.now)) }
{
    match three {
        ThreeForm::If => source_of(second, scope, alloc),
        ThreeForm::Select | ThreeForm::Slice => Ok(Source::value()),
    }
}

#[cycle(source)]
fn source_of_many(
    many: ManyForm,
    parts: &Exprs,
    scope: &Scope,
    alloc: Global,
) -> Result<Source, AllocError>
    ensures { IfOk result (λ o. o
        ≡ many_origin (view_many many) (origins (pack_exprs parts.now) scope.now)) }
{
    match many {
        ManyForm::Vec => Ok(Source::value()),
        ManyForm::Struct => {
            let sources = sources_of(parts, scope, alloc)?;
            Ok(many_source(many, sources))
        }
    }
}

#[cycle(source)]
#[tactic(auto, using(crate::proofs::Lists::origins_left, crate::proofs::Lists::no_origins_left))]
fn sources_of(parts: &Exprs, scope: &Scope, alloc: Global) -> Result<Sources, AllocError>
    ensures { IfOk result (λ os. pack_origins os ≡ origins (pack_exprs parts.now) scope.now) }
{
    let mut sources = Sources::new(alloc);
    for part in parts.as_slice() {
        sources.push(source_of(part, scope, alloc)?)?;
    }
    Ok(sources)
}

#[cycle(source)]
fn source_of_let(
    binder: &Binder,
    value: &Expr,
    body: &Expr,
    scope: &Scope,
    alloc: Global,
) -> Result<Source, AllocError>
    ensures { IfOk result (λ o. o
        ≡ origin body.now ((binder.now.sym.0, origin value.now scope.now) ∷ scope.now)) }
{
    let source = source_of(value, scope, alloc)?;
    let inner = Scope::bound(binder.sym, &source, &*scope);
    source_of(body, &inner, alloc)
}

/// The origin of a node without parts.
pub(crate) fn leaf_source(
    leaf: &LeafForm,
    scope: &Scope,
    alloc: Global,
) -> Result<Source, AllocError>
    ensures { IfOk result (λ o. o ≡ leaf_origin (view_leaf leaf.now) scope.now) }
{
    match leaf {
        LeafForm::Name(name) => scope.origin_of(*name, alloc),
        LeafForm::Builder(_) => Ok(Source::made()),
        LeafForm::Int(_, _) | LeafForm::Truth(_) | LeafForm::Chars(_) => Ok(Source::value()),
    }
}

/// The origin of a node of one part, by that of its part.
pub(crate) fn one_source(one: &OneForm, part: &Source, alloc: Global) -> Result<Source, AllocError>
    ensures { IfOk result (λ o. o ≡ one_origin (view_one one.now) part.now) }
{
    match one {
        OneForm::Field(number) => part.field(*number as usize, alloc),
        OneForm::Builder(_) => Ok(Source::made()),
        OneForm::Neg | OneForm::Not | OneForm::Cast(_) => Ok(Source::value()),
        OneForm::Len | OneForm::Finish => Ok(Source::value()),
    }
}

/// The origin of a node of two parts, by that of the first.
pub(crate) fn two_source(two: TwoForm, first: Source) -> Source
    ensures { result ≡ two_origin (view_two two) first }
{
    match two {
        TwoForm::Merge => first,
        TwoForm::Binary(_) | TwoForm::And | TwoForm::Or => Source::value(),
        TwoForm::LookUp | TwoForm::KeyExists => Source::value(),
    }
}

/// The origin of a node of three parts, by that of the second.
pub(crate) fn three_source(three: ThreeForm, second: Source) -> Source
    ensures { result ≡ three_origin (view_three three) second }
{
    match three {
        ThreeForm::If => second,
        ThreeForm::Select | ThreeForm::Slice => Source::value(),
    }
}

/// The origin of a node of any number of parts, by those of its parts.
pub(crate) fn many_source(many: ManyForm, parts: Sources) -> Source
    ensures { result ≡ many_origin (view_many many) (pack_origins parts) }
{
    match many {
        ManyForm::Vec => Source::value(),
        ManyForm::Struct => Source::struct_of(parts),
    }
}
