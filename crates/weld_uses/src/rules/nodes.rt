//! What is refused at a node itself, and where the builders come from that it answers.
ghost use Rattle.std.specs.Prelude.{◌≡◌, ◌<◌, ◌≤◌, ◌∷◌, true, false, [], length, IfOk};
ghost use Rattle.weld_tree.specs.ExprTree as tree;
ghost use Rattle.weld_tree.specs.ExprView.{view_leaf, view_one, view_two, view_many};
ghost use Rattle.weld_meaning.specs.Origin.{many_origin, own_paths, named_below, by_name};
ghost use Rattle.weld_meaning.specs.Available.{at_path};
ghost use Rattle.weld_meaning.specs.LinearWalk.{paths_below};
ghost use Rattle.weld_linear.specs.AvailableView.{view_builder, of_name};
ghost use Rattle.weld_linear.specs.Resolve.{follow, resolve};
ghost use Rattle.weld_linear.specs.Sources.{pack_origins};
ghost use Rattle.weld_uses.specs.Walks.{at, Walks, UsesChain, EndsOne, EndsTwo};

use std::alloc::{AllocError, Global};
use weld_linear::{Available, Builder, Path, Scope, Source, Sources};
use weld_tree::{Code, LeafForm, ManyForm, OneForm, Place, Refusal, Sym, TwoForm};

/// A node without parts.
#[tactic(auto, using(crate::proofs::Steps::name_walks, crate::proofs::Answered::fresh_leaf, crate::proofs::Answered::int_leaf, crate::proofs::Answered::truth_leaf, crate::proofs::Answered::chars_leaf))]
pub(super) fn use_leaf(
    leaf: &LeafForm,
    place: Place,
    scope: &Scope,
    left: &mut Available,
    alloc: Global,
) -> Result<Source, Refusal>
    ensures { Walks result (tree.leaf (at place) (view_leaf leaf.now)) scope.now left.old left.new }
{
    match leaf {
        LeafForm::Name(name) => {
            let chain = Builder {
                name: *name,
                path: Path::root(alloc),
            };
            use_chain(&chain, place, scope, left, alloc)
        }
        LeafForm::Builder(_) => Ok(Source::made()),
        LeafForm::Int(_, _) => Ok(Source::value()),
        LeafForm::Truth(_) => Ok(Source::value()),
        LeafForm::Chars(_) => Ok(Source::value()),
    }
}

/// A name followed by field accesses: its builders are of within the lambda and are left, and are taken.
#[inline(never)]
pub(super) fn use_chain(
    chain: &Builder,
    place: Place,
    scope: &Scope,
    left: &mut Available,
    alloc: Global,
) -> Result<Source, Refusal>
    ensures { UsesChain result (view_builder chain.now) place scope.now left.old left.new }
{
    let Ok(real) = scope.origin_of(chain.name, alloc) else {
        return Err(Refusal::Memory);
    };
    if !real.is_seen() {
        return Err(Refusal::At(Code::L3, place));
    }
    if real.is_value() {
        // Most names are: no builder is asked for or taken.
        return Ok(real);
    }
    let Ok(wanted) = wanted(chain, &real, alloc) else {
        return Err(Refusal::Memory);
    };
    if left.lacks(&wanted) {
        return Err(Refusal::At(Code::L1, place));
    }
    left.take(chain.name, chain.path.as_slice(), &real);
    match answer_of(chain, &real, alloc) {
        Ok(source) => Ok(source),
        Err(_) => Err(Refusal::Memory),
    }
}

/// The builders at and below the path of a name of this origin.
#[inline(never)]
fn wanted(chain: &Builder, real: &Source, alloc: Global) -> Result<Available, AllocError>
    ensures { IfOk result (λ found. found ≡ of_name chain.now.name.0
        (paths_below chain.now.path (at_path chain.now.path real.now))) }
{
    match real.at_path(chain.path.as_slice()) {
        None => Ok(Available::new(alloc)),
        Some(inner) => inner.builders(chain.name, &chain.path, alloc),
    }
}

/// The origin, by the names, of a name of this origin followed by field accesses.
#[inline(never)]
fn answer_of(chain: &Builder, real: &Source, alloc: Global) -> Result<Source, AllocError>
    ensures { IfOk result (λ o. o ≡ follow chain.now.path
        (named_below chain.now.name.0 [] real.now)) }
{
    let whole = real.paths_of(chain.name, alloc)?;
    whole.follow(chain.path.as_slice(), alloc)
}

/// What is refused at a node of one part that is no name followed by field accesses, by the origin of its part.
#[inline(never)]
pub(super) fn one_answer(
    one: &OneForm,
    part: &Source,
    place: Place,
    scope: &Scope,
    alloc: Global,
) -> Result<Source, Refusal>
    ensures { EndsOne result (view_one one.now) place scope.now part.now }
{
    match one {
        OneForm::Field(number) => match part.field(*number as usize, alloc) {
            Err(_) => Err(Refusal::Memory),
            Ok(field) => {
                if field.is_value() {
                    Ok(field)
                } else {
                    Err(Refusal::At(Code::L1, place))
                }
            }
        },
        OneForm::Finish => match part.resolve(scope, alloc) {
            Err(_) => Err(Refusal::Memory),
            Ok(real) => {
                if real.is_own() {
                    Err(Refusal::At(Code::L5, place))
                } else {
                    Ok(Source::value())
                }
            }
        },
        OneForm::Builder(_) => Ok(Source::made()),
        OneForm::Neg | OneForm::Not | OneForm::Cast(_) | OneForm::Len => Ok(Source::value()),
    }
}

/// What is refused at a node of two parts, by the origin of the first and whether the second took a builder.
pub(super) fn two_answer(
    two: TwoForm,
    first: Source,
    place: Place,
    took: bool,
) -> Result<Source, Refusal>
    ensures { EndsTwo result (view_two two) place took first }
{
    match two {
        TwoForm::Merge => Ok(first),
        TwoForm::And | TwoForm::Or => {
            if took {
                Err(Refusal::At(Code::L2, place))
            } else {
                Ok(Source::value())
            }
        }
        TwoForm::Binary(_) | TwoForm::LookUp | TwoForm::KeyExists => Ok(Source::value()),
    }
}

/// Whether fewer builders are left than before.
pub(super) fn has_fewer(left: &Available, before: usize) -> bool
    ensures yes { result ≡ true → length left.now < before }
    ensures no { result ≡ false → before ≤ length left.now }
{
    left.len() < before
}

/// The paths of a lambda's own builder, where the loop's builder has this origin by the names in scope.
#[inline(never)]
pub(super) fn own_builder(
    source: &Source,
    scope: &Scope,
    alloc: Global,
) -> Result<Source, AllocError>
    ensures { IfOk result (λ own. own ≡ own_paths (resolve scope.now source.now)) }
{
    source.resolve(scope, alloc)?.own_paths(alloc)
}

/// The origin, by the names before a `let`, of what its body answers by these and the one that is bound.
#[inline(never)]
pub(super) fn named_before(
    answer: &Source,
    name: Sym,
    source: &Source,
    scope: &Scope,
    alloc: Global,
) -> Result<Source, AllocError>
    ensures { IfOk result (λ o. o ≡ resolve ((name.0, source.now) ∷ by_name scope.now) answer.now) }
{
    let inner = Scope::bound_by_name(name, &*source, &*scope);
    answer.resolve(&inner, alloc)
}

/// The origin of a node of any number of parts, by those of its parts.
pub(super) fn many_answer(many: ManyForm, parts: Sources) -> Source
    ensures { result ≡ many_origin (view_many many) (pack_origins parts) }
{
    match many {
        ManyForm::Vec => Source::value(),
        ManyForm::Struct => Source::struct_of(parts),
    }
}
