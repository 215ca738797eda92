//! One walk over an expression for both limits of its nodes, their depth and the number of lets.
ghost use Rattle.std.specs.Prelude.{◌≡◌, ◌+◌, min};
ghost use Rattle.weld_tokens.specs.Depth as depth;
ghost use Rattle.weld_tokens.specs.Lets as lets;
ghost use Rattle.weld_tree.specs.ExprTree.{pack_exprs, pack_legs};
ghost use Rattle.weld_tree.specs.ExprView.{view_leg};

use crate::text_limits::depth::{earlier, if_deep};
use weld_tree::{Expr, Exprs, Form, Leg, Legs, Place};

/// The place of the first node, in the order of the text, that stands deeper than 100 in an expression (M4), where there
/// is one, and whether the expression has more than 1,024 `let` nodes (M5).
pub fn node_limits(e: &Expr) -> (Option<Place>, bool)
    ensures too_deep { result.0 ≡ depth.first_deep_node e.now }
    ensures too_many_lets { result.1 ≡ lets.has_too_many_lets e.now }
{
    let found = nodes_of(e, 100);
    (found.too_deep, found.lets > 1_024)
}

/// The place of the first node that stands too deep, and how many `let` nodes there are, or the greatest u64 where that is
/// less.
#[derive(Clone, Copy)]
pub(crate) struct Nodes {
    pub too_deep: Option<Place>,
    pub lets: u64,
}

fn found_so(too_deep: Option<Place>, lets: u64) -> Nodes
    ensures too_deep { result.too_deep ≡ too_deep }
    ensures lets { result.lets ≡ lets }
{
    Nodes { too_deep, lets }
}

/// Both.
fn both(one: Nodes, other: Nodes) -> Nodes
    ensures too_deep { result.too_deep ≡ depth.earlier one.too_deep other.too_deep }
    ensures lets { result.lets ≡ min (one.lets + other.lets) u64.MAX }
{
    Nodes {
        too_deep: earlier(one.too_deep, other.too_deep),
        lets: one.lets.saturating_add(other.lets),
    }
}

/// What is found in an expression for whose nodes so many levels are left. A loop goes along bodies of lets, single and
/// first operands, so that neither a thousand lets nor a long sum takes stack.
#[cycle(nodes)]
#[tactic(auto, using(crate::proofs::Earlier::rest_step, crate::proofs::Earlier::two_step, crate::proofs::Earlier::let_step, crate::proofs::Earlier::many_step, crate::proofs::Earlier::loop_step))]
pub(crate) fn nodes_of(e: &Expr, levels: u32) -> Nodes
    ensures too_deep { result.too_deep ≡ depth.first_deep levels e.now }
    ensures lets { result.lets ≡ min (lets.lets e.now) u64.MAX }
{
    let mut found = None;
    let mut count = 0u64;
    let mut rest = e;
    let mut left = levels;
    loop {
        found = earlier(found, if_deep(left, rest.place));
        let below = left.saturating_sub(1);
        match &rest.form {
            Form::One(_, part) => {
                rest = part;
                left = below;
            }
            Form::Two(_, first, second) => {
                let other = nodes_of(second, below);
                found = earlier(found, other.too_deep);
                count = count.saturating_add(other.lets);
                rest = first;
                left = below;
            }
            Form::Let(_, value, body) => {
                let other = nodes_of(value, below);
                found = earlier(found, other.too_deep);
                count = count.saturating_add(1).saturating_add(other.lets);
                rest = body;
            }
            Form::Leaf(_) => return found_so(found, count),
            Form::Iterate(state, _, body) => {
                let last = both(nodes_of(state, below), nodes_of(body, below));
                return both(found_so(found, count), last);
            }
            Form::Three(_, first, second, third) => {
                let last = both(nodes_of(second, below), nodes_of(third, below));
                return both(found_so(found, count), both(nodes_of(first, below), last));
            }
            Form::Many(_, parts) => return nodes_in(parts, below, found_so(found, count)),
            Form::For(legs, builder, _, _, _, body) => {
                let last = both(nodes_of(builder, below), nodes_of(body, below));
                return both(nodes_in_legs(legs, below, found_so(found, count)), last);
            }
        }
    }
}

#[cycle(nodes)]
#[tactic(auto, using(crate::proofs::Left::deep_left, crate::proofs::Left::no_deep_left, crate::proofs::Left::lets_left, crate::proofs::Left::no_lets_left))]
fn nodes_in(es: &Exprs, levels: u32, found: Nodes) -> Nodes
    ensures too_deep { result.too_deep ≡ depth.first_deep_in levels found.too_deep
        (pack_exprs es.now) }
    ensures lets { result.lets ≡ min (found.lets + lets.lets_in (pack_exprs es.now)) u64.MAX }
{
    let mut first = found.too_deep;
    let mut count = found.lets;
    for e in es.as_slice() {
        let other = nodes_of(e, levels);
        first = earlier(first, other.too_deep);
        count = count.saturating_add(other.lets);
    }
    found_so(first, count)
}

#[cycle(nodes)]
fn nodes_in_leg(leg: &Leg, levels: u32) -> Nodes
    ensures too_deep { result.too_deep ≡ depth.first_deep_in_leg levels (view_leg leg.now) }
    ensures lets { result.lets ≡ min (lets.lets_in_leg (view_leg leg.now)) u64.MAX }
{
    match leg {
        Leg::Whole(e) => nodes_of(e, levels),
        Leg::Strided(e, f, g, h) => {
            let last = both(nodes_of(g, levels), nodes_of(h, levels));
            both(nodes_of(e, levels), both(nodes_of(f, levels), last))
        }
    }
}

#[cycle(nodes)]
#[tactic(auto, using(crate::proofs::Left::leg_deep_left, crate::proofs::Left::no_leg_deep_left, crate::proofs::Left::leg_lets_left, crate::proofs::Left::no_leg_lets_left))]
fn nodes_in_legs(legs: &Legs, levels: u32, found: Nodes) -> Nodes
    ensures too_deep { result.too_deep ≡ depth.first_deep_in_legs levels found.too_deep
        (pack_legs legs.now) }
    ensures lets { result.lets ≡ min (found.lets + lets.lets_in_legs (pack_legs legs.now)) u64.MAX }
{
    let mut first = found.too_deep;
    let mut count = found.lets;
    for leg in legs.as_slice() {
        let other = nodes_in_leg(leg, levels);
        first = earlier(first, other.too_deep);
        count = count.saturating_add(other.lets);
    }
    found_so(first, count)
}
