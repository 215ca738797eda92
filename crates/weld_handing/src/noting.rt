//! The types that are noted in a body that is handed over.

ghost use Rattle.std.specs.Prelude.{◌≡◌, IfOk};
ghost use Rattle.weld_tree.specs.TypeTree.{pack};
ghost use Rattle.weld_meaning.specs.Origin.{struct};
ghost use Rattle.weld_linear.specs.Sources.{pack_origins};
ghost use Rattle.weld_handing.specs.Handing.{handed_note, handed_type, handed_types};

use std::alloc::{AllocError, Global};
use std::mem;
use weld_linear::{Source, SourceForm, Sources};
use weld_tree::{Known, Ty, TyForm, Tys};

/// The type that is noted where something comes from there: with the type in the place of that of the
/// list's builder. It fails for want of memory alone; what is noted may be anything then.
pub(crate) fn hand_note(
    alloc: Global,
    ty: &Ty,
    source: &Source,
    noted: &mut Known,
) -> Result<(), AllocError>
    ensures { IfOk result (λ _. noted.new ≡ handed_note ty.now source.now noted.old) }
{
    match noted {
        Known::Blank => Ok(()),
        Known::Is(noted) => hand_type(alloc, ty, source, noted),
    }
}

#[cycle(noting)]
fn hand_type(alloc: Global, ty: &Ty, source: &Source, noted: &mut Ty) -> Result<(), AllocError>
    ensures { IfOk result (λ _. noted.new ≡ handed_type ty.now source.now noted.old) }
{
    match &source.form {
        SourceForm::Value | SourceForm::Made | SourceForm::Outer => Ok(()),
        SourceForm::Named(_, _) => Ok(()),
        SourceForm::Own(_) => replace_type(alloc, ty, noted),
        SourceForm::Struct(sources) => hand_fields(alloc, ty, sources, noted),
    }
}

fn replace_type(alloc: Global, ty: &Ty, noted: &mut Ty) -> Result<(), AllocError>
    ensures { IfOk result (λ _. noted.new ≡ ty.now) }
{
    *noted = ty.copy(alloc)?;
    Ok(())
}

#[cycle(noting)]
fn hand_fields(alloc: Global, ty: &Ty, sources: &Sources, noted: &mut Ty) -> Result<(), AllocError>
    ensures { IfOk result (λ _.
        noted.new ≡ handed_type ty.now (struct (pack_origins sources.now)) noted.old) }
{
    match &mut noted.form {
        TyForm::Struct(fields) => hand_all(alloc, ty, sources, fields),
        TyForm::Scalar(_) | TyForm::Vec(_) => Ok(()),
        TyForm::Dict(_, _) | TyForm::Build(_) => Ok(()),
    }
}

#[cycle(noting)]
fn hand_all(alloc: Global, ty: &Ty, sources: &Sources, fields: &mut Tys) -> Result<(), AllocError>
    ensures { IfOk result (λ _. pack fields.new
        ≡ handed_types ty.now (pack_origins sources.now) (pack fields.old)) }
{
    let mut types = mem::replace(fields, Tys::new(alloc)).into_vec();
    hand_each(alloc, ty, sources.as_slice(), types.as_mut_slice())?;
    *fields = Tys::from_vec(types);
    Ok(())
}

#[cycle(noting)]
#[tactic(auto, using(crate::proofs::Noted::type_changed, crate::proofs::Noted::type_kept, crate::proofs::Noted::all_typed, crate::proofs::Noted::origin_less))]
fn hand_each(alloc: Global, ty: &Ty, sources: &[Source], types: &mut [Ty]) -> Result<(), AllocError>
    ensures { IfOk result (λ _. pack types.new
        ≡ handed_types ty.now (pack_origins sources.now) (pack types.old)) }
{
    for (i, noted) in types.iter_mut().enumerate() {
        if i < sources.len() {
            hand_type(alloc, ty, &sources[i], noted)?;
        }
    }
    Ok(())
}
