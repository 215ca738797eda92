ghost use Rattle.std.specs.Prelude.{◌≡◌, IfOk};
ghost use Rattle.weld_tree.specs.ExprTree.{At};
ghost use Rattle.weld_tree.specs.ExprView.{view_form, view_leaf, view_one, view_leg};

use crate::binder::Binder;
use crate::expr::{Expr, Exprs, Form, LeafForm, Leg, Legs, OneForm};
use std::alloc::{AllocError, Global};
use weld_data::Text;

impl Expr {
    /// A copy of the expression.
    #[cycle(copy)]
    pub fn copy(&self, alloc: Global) -> Result<Expr, AllocError>
        ensures { IfOk result (λ copy. copy ≡ self.now) }
    {
        let ty = self.ty.copy(alloc)?;
        Ok(Expr {
            form: self.form.copy(alloc)?,
            place: self.place,
            ty,
        })
    }

    /// A copy of the expression in a box.
    #[cycle(copy)]
    pub fn boxed_copy(&self, alloc: Global) -> Result<Box<Expr>, AllocError>
        ensures { IfOk result (λ copy. copy.value ≡ self.now) }
    {
        Ok(Box::new(alloc, self.copy(alloc)?)?)
    }
}

impl Form {
    #[cycle(copy)]
    fn copy(&self, alloc: Global) -> Result<Form, AllocError>
        ensures { IfOk result (λ copy. (at : At) → view_form copy at ≡ view_form self.now at) }
    {
        match self {
            Form::Leaf(leaf) => Ok(Form::Leaf(leaf.copy(alloc)?)),
            Form::One(one, e) => {
                let one = one.copy(alloc)?;
                Ok(Form::One(one, e.boxed_copy(alloc)?))
            }
            Form::Two(two, e, f) => {
                let (e, f) = boxed_two(alloc, e, f)?;
                Ok(Form::Two(*two, e, f))
            }
            Form::Three(three, e, f, g) => {
                let (e, f, g) = boxed_three(alloc, e, f, g)?;
                Ok(Form::Three(*three, e, f, g))
            }
            Form::Many(many, es) => Ok(Form::Many(*many, es.copy(alloc)?)),
            Form::Let(binder, e, f) => {
                let binder = binder.copy(alloc)?;
                let (e, f) = boxed_two(alloc, e, f)?;
                Ok(Form::Let(binder, e, f))
            }
            Form::For(legs, e, b, n, x, f) => {
                let (b, n, x) = copy_binders(alloc, b, n, x)?;
                let (legs, e, f) = copy_loop(alloc, legs, e, f)?;
                Ok(Form::For(legs, e, b, n, x, f))
            }
            Form::Iterate(e, binder, f) => {
                let binder = binder.copy(alloc)?;
                let (e, f) = boxed_two(alloc, e, f)?;
                Ok(Form::Iterate(e, binder, f))
            }
        }
    }
}

impl LeafForm {
    /// A copy of the form.
    pub fn copy(&self, alloc: Global) -> Result<LeafForm, AllocError>
        ensures { IfOk result (λ copy. view_leaf copy ≡ view_leaf self.now) }
    {
        match self {
            LeafForm::Int(kind, number) => Ok(LeafForm::Int(*kind, *number)),
            LeafForm::Truth(truth) => Ok(LeafForm::Truth(*truth)),
            LeafForm::Chars(text) => Ok(LeafForm::Chars(Text::copy_of(alloc, text.as_slice())?)),
            LeafForm::Name(sym) => Ok(LeafForm::Name(*sym)),
            LeafForm::Builder(build) => Ok(LeafForm::Builder(build.copy(alloc)?)),
        }
    }
}

impl OneForm {
    /// A copy of the form.
    pub fn copy(&self, alloc: Global) -> Result<OneForm, AllocError>
        ensures { IfOk result (λ copy. view_one copy ≡ view_one self.now) }
    {
        match self {
            OneForm::Neg => Ok(OneForm::Neg),
            OneForm::Not => Ok(OneForm::Not),
            OneForm::Cast(kind) => Ok(OneForm::Cast(*kind)),
            OneForm::Len => Ok(OneForm::Len),
            OneForm::Field(place) => Ok(OneForm::Field(*place)),
            OneForm::Finish => Ok(OneForm::Finish),
            OneForm::Builder(build) => Ok(OneForm::Builder(build.copy(alloc)?)),
        }
    }
}

#[cycle(copy)]
fn boxed_two(alloc: Global, e: &Expr, f: &Expr) -> Result<(Box<Expr>, Box<Expr>), AllocError>
    ensures first { IfOk result (λ copies. copies.0.value ≡ e.now) }
    ensures second { IfOk result (λ copies. copies.1.value ≡ f.now) }
{
    let e = e.boxed_copy(alloc)?;
    Ok((e, f.boxed_copy(alloc)?))
}

#[cycle(copy)]
fn boxed_three(
    alloc: Global,
    e: &Expr,
    f: &Expr,
    g: &Expr,
) -> Result<(Box<Expr>, Box<Expr>, Box<Expr>), AllocError>
    ensures first { IfOk result (λ copies. copies.0.value ≡ e.now) }
    ensures second { IfOk result (λ copies. copies.1.value ≡ f.now) }
    ensures third { IfOk result (λ copies. copies.2.value ≡ g.now) }
{
    let (e, f) = boxed_two(alloc, e, f)?;
    Ok((e, f, g.boxed_copy(alloc)?))
}

#[cycle(copy)]
fn copy_loop(
    alloc: Global,
    legs: &Legs,
    e: &Expr,
    f: &Expr,
) -> Result<(Legs, Box<Expr>, Box<Expr>), AllocError>
    ensures legs { IfOk result (λ copies. copies.0 ≡ legs.now) }
    ensures first { IfOk result (λ copies. copies.1.value ≡ e.now) }
    ensures second { IfOk result (λ copies. copies.2.value ≡ f.now) }
{
    let legs = legs.copy(alloc)?;
    let (e, f) = boxed_two(alloc, e, f)?;
    Ok((legs, e, f))
}

fn copy_binders(
    alloc: Global,
    b: &Binder,
    n: &Binder,
    x: &Binder,
) -> Result<(Box<Binder>, Box<Binder>, Box<Binder>), AllocError>
    ensures first { IfOk result (λ copies. copies.0.value ≡ b.now) }
    ensures second { IfOk result (λ copies. copies.1.value ≡ n.now) }
    ensures third { IfOk result (λ copies. copies.2.value ≡ x.now) }
{
    let b = Box::new(alloc, b.copy(alloc)?)?;
    let n = Box::new(alloc, n.copy(alloc)?)?;
    Ok((b, n, Box::new(alloc, x.copy(alloc)?)?))
}

impl Exprs {
    /// A copy of the list.
    #[cycle(copy)]
    pub fn copy(&self, alloc: Global) -> Result<Exprs, AllocError>
        ensures { IfOk result (λ copy. copy ≡ self.now) }
    {
        let mut items = Vec::new(alloc);
        for e in &self.items {
            items.push(e.copy(alloc)?)?;
        }
        Ok(Exprs { items })
    }
}

impl Leg {
    /// A copy of the leg.
    #[cycle(copy)]
    pub fn copy(&self, alloc: Global) -> Result<Leg, AllocError>
        ensures { IfOk result (λ copy. view_leg copy ≡ view_leg self.now) }
    {
        match self {
            Leg::Whole(e) => Ok(Leg::Whole(e.boxed_copy(alloc)?)),
            Leg::Strided(e, f, g, h) => {
                let (e, f, g) = boxed_three(alloc, e, f, g)?;
                Ok(Leg::Strided(e, f, g, h.boxed_copy(alloc)?))
            }
        }
    }
}

impl Legs {
    /// A copy of the list.
    #[cycle(copy)]
    #[tactic(auto, using(crate::proofs::Parts::legs_more, crate::proofs::Parts::legs_push, crate::proofs::Parts::leg_nodes_le))]
    pub fn copy(&self, alloc: Global) -> Result<Legs, AllocError>
        ensures { IfOk result (λ copy. copy ≡ self.now) }
    {
        let mut items = Vec::new(alloc);
        for leg in &self.items {
            items.push(leg.copy(alloc)?)?;
        }
        Ok(Legs { items })
    }
}
