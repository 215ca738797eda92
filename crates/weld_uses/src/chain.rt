ghost use Rattle.std.specs.Prelude.{◌≡◌, IfOk, option_map};
ghost use Rattle.weld_meaning.specs.Available.{chain_of, chain_of_one};
ghost use Rattle.weld_meaning.specs.LinearWalk.{name_place};
ghost use Rattle.weld_tree.specs.ExprView.{view_one};
ghost use Rattle.weld_linear.specs.AvailableView.{view_builder};

use std::alloc::{AllocError, Global};
use weld_linear::{Builder, Path};
use weld_tree::{Expr, Form, LeafForm, OneForm, Place};

/// The name and the path, where the expression is a name followed by field accesses.
#[cycle(chain)]
pub(crate) fn chain_of(e: &Expr, alloc: Global) -> Result<Option<Builder>, AllocError>
    ensures { IfOk result (λ c. option_map view_builder c ≡ chain_of e.now) }
{
    match &e.form {
        Form::Leaf(LeafForm::Name(name)) => Ok(Some(Builder {
            name: *name,
            path: Path::root(alloc),
        })),
        Form::One(one, part) => chain_of_one(one, part, alloc),
        Form::Leaf(_) | Form::Two(_, _, _) | Form::Three(_, _, _, _) | Form::Many(_, _) => Ok(None),
        Form::Let(_, _, _) | Form::For(_, _, _, _, _, _) | Form::Iterate(_, _, _) => Ok(None),
    }
}

/// The name and the path of a node of one part.
#[cycle(chain)]
pub(crate) fn chain_of_one(
    one: &OneForm,
    part: &Expr,
    alloc: Global,
) -> Result<Option<Builder>, AllocError>
    ensures { IfOk result (λ c. option_map view_builder c
        ≡ chain_of_one (view_one one.now) (chain_of part.now)) }
{
    match one {
        OneForm::Field(number) => match chain_of(part, alloc)? {
            None => Ok(None),
            Some(chain) => Ok(Some(Builder {
                name: chain.name,
                path: chain.path.below(*number as usize, alloc)?,
            })),
        },
        OneForm::Neg | OneForm::Not | OneForm::Cast(_) | OneForm::Len => Ok(None),
        OneForm::Finish | OneForm::Builder(_) => Ok(None),
    }
}

/// The place of the name with which field accesses begin.
pub(crate) fn name_place(e: &Expr) -> Place
    ensures { result ≡ name_place e.now }
{
    match &e.form {
        Form::One(_, part) => name_place(part),
        Form::Leaf(_) | Form::Two(_, _, _) | Form::Three(_, _, _, _) | Form::Many(_, _) => e.place,
        Form::Let(_, _, _) | Form::For(_, _, _, _, _, _) | Form::Iterate(_, _, _) => e.place,
    }
}
