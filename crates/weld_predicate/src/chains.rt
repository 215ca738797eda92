//! Names followed by field accesses.

ghost use Rattle.std.specs.Prelude.{◌≡◌, Some, []};
ghost use Rattle.weld_tree.specs.ExprTree.{field as field_form};
ghost use Rattle.weld_meaning.specs.Available.{chain_of, chain_of_one};
ghost use Rattle.weld_predicate.specs.Guard.{same_chain};

use weld_tree::{Expr, Form, LeafForm, OneForm, Sym};

/// Whether both are one name with the same field accesses. It takes no memory.
#[cycle(chains)]
pub(crate) fn same_chain(e: &Expr, other: &Expr) -> bool
    ensures { result ≡ same_chain (chain_of e.now) (chain_of other.now) }
{
    match &e.form {
        Form::Leaf(LeafForm::Name(name)) => is_name_of(other, *name),
        Form::One(OneForm::Field(field), part) => same_field(part, *field, other),
        _ => false,
    }
}

/// Whether the expression is the name.
#[tactic(auto, using(crate::proofs::ChainLemmas::same_names, crate::proofs::ChainLemmas::no_name))]
fn is_name_of(e: &Expr, name: Sym) -> bool
    ensures { result ≡ same_chain (Some (name.0, [])) (chain_of e.now) }
{
    match &e.form {
        Form::Leaf(LeafForm::Name(other)) => name.0 == other.0,
        _ => false,
    }
}

/// Whether the expression is the field of the same chain as the part.
#[cycle(chains)]
#[tactic(auto, using(crate::proofs::ChainLemmas::same_fields, crate::proofs::ChainLemmas::leaf_no_field, crate::proofs::ChainLemmas::no_chain))]
fn same_field(part: &Expr, field: u32, e: &Expr) -> bool
    ensures { result
        ≡ same_chain (chain_of_one (field_form field) (chain_of part.now)) (chain_of e.now) }
{
    match &e.form {
        Form::One(OneForm::Field(other), below) => field == *other && same_chain(part, below),
        Form::Leaf(_) => false,
        Form::One(_, _) | Form::Two(_, _, _) | Form::Three(_, _, _, _) | Form::Many(_, _) => false,
        Form::Let(_, _, _) | Form::For(_, _, _, _, _, _) | Form::Iterate(_, _, _) => false,
    }
}
