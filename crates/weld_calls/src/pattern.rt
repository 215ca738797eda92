ghost use Rattle.std.specs.Prelude.{◌≡◌, true};
ghost use Rattle.weld_tree.specs.TypeTree.{pack};
ghost use Rattle.weld_data.specs.Lookup.{same_kind};
ghost use Rattle.weld_calls.specs.CallTypes.{is_integer as plain_is_integer, may_be_k, is_number, is_vec, are_vecs, is_key, is_table, is_wanted, kind_in as plain_kind_in, item, k_after};

use weld_data::Kind;
use weld_tree::{Ty, TyForm, Tys};

/// What a call wants of an argument's type. The numbers of one call are all of one integer kind K; T is
/// any type of elements, and Q a type of keys.
#[derive(Clone, Copy, Debug, PartialEq, Eq)]
pub enum Pattern {
    /// K
    Number,
    /// `vec[K]`
    Numbers,
    /// `vec[vec[K]]`
    Rows,
    /// `i64`
    Place,
    /// `vec[i64]`
    Places,
    /// `vec[bool]`
    Truths,
    /// `vec[T]`
    Items,
    /// `vec[Q]`
    Keys,
    /// A struct of vectors.
    Columns,
}

impl Pattern {
    /// Whether the type is as wanted, where `known` is the kind that K is already, if it is. It takes no
    /// memory.
    pub fn wants(self, known: Option<Kind>, ty: &Ty) -> bool
        ensures { result ≡ is_wanted known self ty.now }
    {
        match self {
            Pattern::Number => is_k(known, ty),
            Pattern::Numbers => is_k_vector(known, ty),
            Pattern::Rows => is_k_rows(known, ty),
            Pattern::Place => is_of_kind(Kind::I64, ty),
            Pattern::Places => is_vector_of(Kind::I64, ty),
            Pattern::Truths => is_vector_of(Kind::Bool, ty),
            Pattern::Items => is_vector(ty),
            Pattern::Keys => is_vector_of_keys(ty),
            Pattern::Columns => is_columns(ty),
        }
    }

    /// The kind that K is after an argument of that type, if it is known then. It takes no memory.
    pub fn kind_after(self, known: Option<Kind>, ty: &Ty) -> Option<Kind>
        ensures { result ≡ k_after known self ty.now }
    {
        match self {
            Pattern::Number => kind_in(ty),
            Pattern::Numbers => kind_in(item_in(ty)),
            Pattern::Rows => kind_in(item_in(item_in(ty))),
            Pattern::Place
            | Pattern::Places
            | Pattern::Truths
            | Pattern::Items
            | Pattern::Keys
            | Pattern::Columns => known,
        }
    }
}

/// What a vector's elements are; of what isn't one, the type itself.
fn item_in(ty: &Ty) -> &Ty
    ensures { result.now ≡ item ty.now }
{
    match &ty.form {
        TyForm::Vec(item) => item,
        TyForm::Scalar(_) | TyForm::Struct(_) | TyForm::Dict(_, _) | TyForm::Build(_) => ty,
    }
}

/// The kind of a scalar.
fn kind_in(ty: &Ty) -> Option<Kind>
    ensures { result ≡ plain_kind_in ty.now }
{
    match &ty.form {
        TyForm::Scalar(kind) => Some(*kind),
        TyForm::Vec(_) | TyForm::Struct(_) | TyForm::Dict(_, _) | TyForm::Build(_) => None,
    }
}

/// Whether the kind may be K.
fn may_be(known: Option<Kind>, kind: Kind) -> bool
    ensures { result ≡ may_be_k known kind }
{
    match known {
        None => is_integer(kind),
        Some(k) => is_same(k, kind),
    }
}

fn is_integer(kind: Kind) -> bool
    ensures { result ≡ plain_is_integer kind }
{
    match kind {
        Kind::Bool => false,
        _ => true,
    }
}

/// Whether the type is a scalar whose kind may be K.
fn is_k(known: Option<Kind>, ty: &Ty) -> bool
    ensures { result ≡ is_number (may_be_k known) ty.now }
{
    match &ty.form {
        TyForm::Scalar(kind) => may_be(known, *kind),
        TyForm::Vec(_) | TyForm::Struct(_) | TyForm::Dict(_, _) | TyForm::Build(_) => false,
    }
}

fn is_k_vector(known: Option<Kind>, ty: &Ty) -> bool
    ensures { result ≡ is_vec (is_number (may_be_k known)) ty.now }
{
    match &ty.form {
        TyForm::Vec(item) => is_k(known, item),
        TyForm::Scalar(_) | TyForm::Struct(_) | TyForm::Dict(_, _) | TyForm::Build(_) => false,
    }
}

fn is_k_rows(known: Option<Kind>, ty: &Ty) -> bool
    ensures { result ≡ is_vec (is_vec (is_number (may_be_k known))) ty.now }
{
    match &ty.form {
        TyForm::Vec(item) => is_k_vector(known, item),
        TyForm::Scalar(_) | TyForm::Struct(_) | TyForm::Dict(_, _) | TyForm::Build(_) => false,
    }
}

fn is_of_kind(kind: Kind, ty: &Ty) -> bool
    ensures { result ≡ is_number (same_kind kind) ty.now }
{
    match &ty.form {
        TyForm::Scalar(found) => is_same(kind, *found),
        TyForm::Vec(_) | TyForm::Struct(_) | TyForm::Dict(_, _) | TyForm::Build(_) => false,
    }
}

fn is_vector_of(kind: Kind, ty: &Ty) -> bool
    ensures { result ≡ is_vec (is_number (same_kind kind)) ty.now }
{
    match &ty.form {
        TyForm::Vec(item) => is_of_kind(kind, item),
        TyForm::Scalar(_) | TyForm::Struct(_) | TyForm::Dict(_, _) | TyForm::Build(_) => false,
    }
}

fn is_vector(ty: &Ty) -> bool
    ensures { result ≡ is_vec (λ t. true) ty.now }
{
    match &ty.form {
        TyForm::Vec(_) => true,
        TyForm::Scalar(_) | TyForm::Struct(_) | TyForm::Dict(_, _) | TyForm::Build(_) => false,
    }
}

fn is_vector_of_keys(ty: &Ty) -> bool
    ensures { result ≡ is_vec is_key ty.now }
{
    match &ty.form {
        TyForm::Vec(item) => is_a_key(item),
        TyForm::Scalar(_) | TyForm::Struct(_) | TyForm::Dict(_, _) | TyForm::Build(_) => false,
    }
}

fn is_a_key(ty: &Ty) -> bool
    ensures { result ≡ is_key ty.now }
{
    ty.is_key()
}

fn is_columns(ty: &Ty) -> bool
    ensures { result ≡ is_table ty.now }
{
    match &ty.form {
        TyForm::Struct(fields) => are_vectors(fields),
        TyForm::Scalar(_) | TyForm::Vec(_) | TyForm::Dict(_, _) | TyForm::Build(_) => false,
    }
}

fn are_vectors(fields: &Tys) -> bool
    ensures { result ≡ are_vecs (pack fields.now) }
{
    are_all_vectors(fields.as_slice())
}

fn are_all_vectors(fields: &[Ty]) -> bool
    ensures { result ≡ are_vecs (pack fields.now) }
{
    for ty in fields {
        if !is_vector(ty) {
            return false;
        }
    }
    true
}

/// Whether two kinds are the same.
fn is_same(kind: Kind, other: Kind) -> bool
    ensures { result ≡ same_kind kind other }
{
    kind == other
}
