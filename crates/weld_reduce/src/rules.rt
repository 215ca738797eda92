//! Rules that end.
ghost use Rattle.std.specs.Prelude.{◌≡◌, ◌+◌, ◌<◌, Some, None, OnOk, IfErr};
ghost use Rattle.weld_reduce.specs.declared.stop.Stop.TheVariants.{Broken};
ghost use Rattle.weld_reduce.specs.Forms.{reduced};
ghost use Rattle.weld_reduce.specs.Ways as ways;
ghost use Rattle.weld_reduce.specs.Ways.{by_way};
ghost use Rattle.weld_reduce.specs.StateView.{view_state};
ghost use Rattle.weld_reduce.specs.States as states;
ghost use Rattle.weld_reduce.specs.Made.{made_by_rule};

use crate::binding::{reduce_for, reduce_iterate, reduce_let};
use crate::builders::{builder_type, cells_builder, fresh_builder, total_builder};
use crate::calls::{behind_token, call_one, call_three, call_two, listed, next_expr};
use crate::legs::{iter, next_leg};
use crate::numbers::{field, minus, number};
use crate::operators::between;
use crate::state::{State, bind, param};
use crate::stop::Stop;
use crate::types::{any_type, dict_type, merge_operator, next_type, struct_type, vec_type};
use crate::values::Values;
use crate::way::Way;
use crate::way_of::way_of;
use std::alloc::Global;
use weld_grammar::Rule;

/// A rule that has a way of its own.
fn own(alloc: Global, rule: Rule, values: &mut Values) -> Result<(), Stop>
    ensures ok { OnOk result (ways.own rule values.old ≡ Some values.new) }
    ensures broken { IfErr result (λ stop. stop ≡ Broken → ways.own rule values.old ≡ None) }
{
    match rule {
        Rule::WithoutParams => behind_token(values),
        Rule::Minus => minus(alloc, values),
        Rule::FieldPart => field(alloc, values),
        Rule::Primary => number(alloc, values),
        Rule::NextExpr => next_expr(alloc, values),
        Rule::Leg => next_leg(alloc, values),
        Rule::Iter => iter(values),
        Rule::TotalBuild => total_builder(alloc, values),
        Rule::CellsBuild => cells_builder(alloc, values),
        Rule::AnyType => any_type(alloc, values),
        Rule::VecType => vec_type(alloc, values),
        Rule::StructType => struct_type(alloc, values),
        Rule::NextType => next_type(alloc, values),
        Rule::DictType => dict_type(alloc, values),
        _ => merge_operator(values),
    }
}

/// A rule, by its way.
fn reduce_by(alloc: Global, way: Way, rule: Rule, values: &mut Values) -> Result<(), Stop>
    ensures ok { OnOk result (by_way way rule values.old ≡ Some values.new) }
    ensures broken { IfErr result (λ stop. stop ≡ Broken → by_way way rule values.old ≡ None) }
{
    match way {
        Way::Rest => Ok(()),
        Way::Line => between(alloc, rule, values),
        Way::Word => call_one(alloc, rule, values),
        Way::Two(form) => call_two(alloc, form, values),
        Way::Three(form) => call_three(alloc, form, values),
        Way::Listed(form) => listed(alloc, form, values),
        Way::Fresh => fresh_builder(alloc, rule, values),
        Way::BuilderType => builder_type(alloc, rule, values),
        Way::Own => own(alloc, rule, values),
    }
}

/// A rule that binds no names.
#[tactic(auto, using(crate::proofs::CodeWays::reduced_by_way))]
fn reduce_stack(alloc: Global, rule: Rule, values: &mut Values) -> Result<(), Stop>
    ensures ok { OnOk result (reduced rule values.old ≡ Some values.new) }
    ensures broken { IfErr result (λ stop. stop ≡ Broken → reduced rule values.old ≡ None) }
{
    reduce_by(alloc, way_of(rule), rule, values)
}

/// The rule ends.
#[tactic(auto, using(crate::proofs::CodeRules::nameless))]
pub fn reduce(alloc: Global, rule: Rule, state: &mut State) -> Result<(), Stop>
    requires room { state.old.next + made_by_rule rule < 4294967296 }
    ensures ok { OnOk result
        (states.reduce rule (view_state state.old) ≡ Some (view_state state.new)) }
    ensures broken { IfErr result
        (λ stop. stop ≡ Broken → states.reduce rule (view_state state.old) ≡ None) }
{
    match rule {
        Rule::Let => reduce_let(alloc, state),
        Rule::For => reduce_for(alloc, state),
        Rule::Iterate => reduce_iterate(alloc, state),
        Rule::Bind => bind(state),
        Rule::Param => param(state),
        // (of these most derivations have many, and they leave all as it is)
        Rule::Expr
        | Rule::Or
        | Rule::And
        | Rule::Equality
        | Rule::Relation
        | Rule::Sum
        | Rule::Product
        | Rule::Unary
        | Rule::Post
        | Rule::EqualityOp
        | Rule::RelationOp
        | Rule::SumOp
        | Rule::ProductOp => Ok(()),
        _ => reduce_stack(alloc, rule, &mut state.values),
    }
}
