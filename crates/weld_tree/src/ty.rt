use std::marker::Model;
use weld_data::{Kind, MergeOp};

mod copy;
mod facts;
mod list;
mod make;
mod same;
mod size;

/// A type of a program. Contracts see it as plain data, a `TypeTree`.
#[cycle(ty)]
#[derive(Drop)]
pub struct Ty {
    pub form: TyForm,
}

/// What a type is, one level of it.
#[cycle(ty)]
#[derive(Drop)]
pub enum TyForm {
    Scalar(Kind),
    Vec(Box<Ty>),
    Struct(Tys),
    Dict(Box<Ty>, Box<Ty>),
    Build(BuildTy),
}

/// The type of a builder: of a list of items; of one number; of numbers by keys; of numbers by
/// places; of lists of values by keys.
#[cycle(ty)]
#[derive(Drop)]
pub enum BuildTy {
    List(Box<Ty>),
    Total(Box<Ty>, MergeOp),
    Keyed(Box<Ty>, Box<Ty>, MergeOp),
    Cells(Box<Ty>, MergeOp),
    Groups(Box<Ty>, Box<Ty>),
}

/// A list of types.
#[cycle(ty)]
#[derive(Drop)]
pub struct Tys {
    items: Vec<Ty>,
}

impl Model for Ty {
    ghost use Rattle.weld_tree.specs.TypeTree.{TypeTree};
    ghost use Rattle.weld_tree.specs.TypeCode.{coded_type};

    ghost Value = { TypeTree };

    ghost coded = { coded_type };

    ghost use Rattle.weld_tree.specs.TypeView.{view_type};

    ghost view = { λ t. view_type t.form };

    ghost use Rattle.weld_tree.specs.TypeFalls.{type_size};

    ghost size = { type_size };

    ghost use Rattle.std.proofs.Common.{arith};

    ghost size_decreases = { λ a h. Prim.grind arith };
}

impl Model for Tys {
    ghost use Rattle.std.specs.Prelude.{List};
    ghost use Rattle.std.specs.Coded.{coded_list};
    ghost use Rattle.weld_tree.specs.TypeTree.{TypeTree};
    ghost use Rattle.weld_tree.specs.TypeCode.{coded_type};

    ghost Value = { List TypeTree };

    ghost coded = { coded_list coded_type };

    ghost view = { λ a. a.items.items };

    ghost use Rattle.weld_tree.specs.TypeFalls.{types_size, most-types_size};

    ghost size = { types_size };

    ghost use Rattle.std.proofs.Common.{arith};

    ghost size_decreases = { λ a h. Prim.omega (arith, most-types_size a.items.items) };
}
