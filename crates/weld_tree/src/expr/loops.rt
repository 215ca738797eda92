ghost use Rattle.std.specs.Prelude.{◌≡◌, min, map};
ghost use Rattle.weld_tree.specs.ExprTree.{pack_exprs, pack_legs};
ghost use Rattle.weld_tree.specs.ExprView.{view_leg};
ghost use Rattle.weld_tree.specs.Program.{loops, loops_in, loops_in_leg, loops_in_legs};

use crate::expr::{Expr, Exprs, Form, Leg, Legs};
use crate::program::Program;

/// How many loops, `for` nodes, stand in the program, or the greatest u64 where that is less. It
/// takes no memory.
pub fn loops_of(p: &Program) -> u64
    ensures { result ≡ min (loops p.now.body) u64.MAX }
{
    p.body.loops()
}

impl Expr {
    /// How many loops stand in the expression, or the greatest u64 where that is less.
    #[cycle(loops)]
    pub fn loops(&self) -> u64
        ensures { result ≡ min (loops self.now) u64.MAX }
    {
        match &self.form {
            Form::Leaf(_) => 0,
            Form::One(_, e) => e.loops(),
            Form::Two(_, e, f) | Form::Let(_, e, f) | Form::Iterate(e, _, f) => {
                e.loops().saturating_add(f.loops())
            }
            Form::Three(_, e, f, g) => e
                .loops()
                .saturating_add(f.loops())
                .saturating_add(g.loops()),
            Form::Many(_, es) => es.loops(),
            Form::For(legs, builder, _, _, _, body) => {
                let inside = builder.loops().saturating_add(body.loops());
                legs.loops().saturating_add(inside).saturating_add(1)
            }
        }
    }
}

impl Exprs {
    #[cycle(loops)]
    #[tactic(auto, using(crate::proofs::Parts::loops_left, crate::proofs::Parts::no_loops_left))]
    fn loops(&self) -> u64
        ensures { result ≡ min (loops_in (pack_exprs self.now)) u64.MAX }
    {
        let mut sum = 0u64;
        for e in &self.items {
            sum = sum.saturating_add(e.loops());
        }
        sum
    }
}

impl Leg {
    #[cycle(loops)]
    fn loops(&self) -> u64
        ensures { result ≡ min (loops_in_leg (view_leg self.now)) u64.MAX }
    {
        match self {
            Leg::Whole(e) => e.loops(),
            Leg::Strided(e, f, g, h) => e
                .loops()
                .saturating_add(f.loops())
                .saturating_add(g.loops())
                .saturating_add(h.loops()),
        }
    }
}

impl Legs {
    #[cycle(loops)]
    #[tactic(auto, using(crate::proofs::Parts::leg_loops_left, crate::proofs::Parts::no_leg_loops_left))]
    fn loops(&self) -> u64
        ensures { result ≡ min (loops_in_legs (pack_legs self.now)) u64.MAX }
    {
        let mut sum = 0u64;
        for leg in &self.items {
            sum = sum.saturating_add(leg.loops());
        }
        sum
    }
}
