//! What lies on the machine's stack.
use weld_data::MergeOp;
use weld_grammar::terminals::Token;
use weld_tree::{Expr, Exprs, Leg, Legs, Place, Ty, Tys};

/// A token; an expression; two or more of a list; a leg; legs; a type with the place of its first token; two or more of
/// a struct's; an operator of a builder.
#[derive(Drop)]
pub enum Value<'a> {
    Token(&'a Token),
    Expr(Box<Expr>),
    Exprs(Exprs),
    Leg(Leg),
    Legs(Legs),
    Type(Place, Box<Ty>),
    Types(Tys),
    Op(MergeOp),
}
