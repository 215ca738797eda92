use crate::trees_kept::programs::node;
use std::alloc::{AllocError, Global};
use std::test::Fail;
use weld_data::{BinOp, Kind, MergeOp, Text};
use weld_tree::{
    Binder, BuildTy, Expr, Exprs, Form, LeafForm, Leg, Legs, ManyForm, OneForm, Place, Sym,
    ThreeForm, TwoForm, Ty,
};

fn atom(alloc: Global) -> Result<Box<Expr>, AllocError> {
    node(alloc, Form::Leaf(LeafForm::Truth(true)))
}

fn binder(sym: u32) -> Binder {
    Binder {
        sym: Sym(sym),
        place: Place { line: 1, column: 1 },
        note: None,
        note_place: Place { line: 1, column: 1 },
    }
}

fn total(alloc: Global) -> Result<BuildTy, AllocError> {
    Ok(BuildTy::Total(Box::new(alloc, Ty::scalar(Kind::I64))?, MergeOp::Add))
}

fn leaf(alloc: Global, number: u8) -> Result<Box<Expr>, AllocError> {
    match number {
        0 => node(alloc, Form::Leaf(LeafForm::Int(Kind::I8, 7))),
        1 => node(alloc, Form::Leaf(LeafForm::Truth(false))),
        2 => node(
            alloc,
            Form::Leaf(LeafForm::Chars(Text::copy_of(alloc, b"ab")?)),
        ),
        3 => node(alloc, Form::Leaf(LeafForm::Name(Sym(4)))),
        _ => node(alloc, Form::Leaf(LeafForm::Builder(total(alloc)?))),
    }
}

fn one(alloc: Global, number: u8) -> Result<Box<Expr>, AllocError> {
    let form = match number {
        0 => OneForm::Neg,
        1 => OneForm::Not,
        2 => OneForm::Cast(Kind::U8),
        3 => OneForm::Len,
        4 => OneForm::Field(3),
        5 => OneForm::Finish,
        _ => OneForm::Builder(total(alloc)?),
    };
    let e = atom(alloc)?;
    node(alloc, Form::One(form, e))
}

static TWO: [TwoForm; 6] = [
    TwoForm::Binary(BinOp::Rem),
    TwoForm::And,
    TwoForm::Or,
    TwoForm::LookUp,
    TwoForm::KeyExists,
    TwoForm::Merge,
];

static THREE: [ThreeForm; 3] = [ThreeForm::If, ThreeForm::Select, ThreeForm::Slice];

/// Each form of two, three or many parts, one within the other.
fn nest(alloc: Global) -> Result<Box<Expr>, AllocError> {
    let mut whole = atom(alloc)?;
    for form in &TWO {
        whole = two(alloc, *form, whole)?;
    }
    for form in &THREE {
        whole = three(alloc, *form, whole)?;
    }
    many(alloc, ManyForm::Vec, many(alloc, ManyForm::Struct, whole)?)
}

fn two(alloc: Global, form: TwoForm, e: Box<Expr>) -> Result<Box<Expr>, AllocError> {
    let f = atom(alloc)?;
    node(alloc, Form::Two(form, e, f))
}

fn three(alloc: Global, form: ThreeForm, e: Box<Expr>) -> Result<Box<Expr>, AllocError> {
    let f = atom(alloc)?;
    let g = atom(alloc)?;
    node(alloc, Form::Three(form, e, f, g))
}

fn many(alloc: Global, form: ManyForm, e: Box<Expr>) -> Result<Box<Expr>, AllocError> {
    let mut items = Exprs::new(alloc);
    items.push(Box::into_inner(e))?;
    node(alloc, Form::Many(form, items))
}

/// A strided leg over the vector.
fn strided(alloc: Global, e: Box<Expr>) -> Result<Leg, AllocError> {
    let f = atom(alloc)?;
    let g = atom(alloc)?;
    let h = atom(alloc)?;
    Ok(Leg::Strided(e, f, g, h))
}

/// A loop over a strided leg and a whole one.
fn loop_over(alloc: Global, e: Box<Expr>) -> Result<Box<Expr>, AllocError> {
    let mut legs = Legs::new(alloc);
    legs.push(strided(alloc, e)?)?;
    legs.push(Leg::Whole(atom(alloc)?))?;
    let builder = atom(alloc)?;
    let body = atom(alloc)?;
    node(
        alloc,
        Form::For(
            legs,
            builder,
            Box::new(alloc, binder(0))?,
            Box::new(alloc, binder(1))?,
            Box::new(alloc, binder(2))?,
            body,
        ),
    )
}

/// Each form that binds, one within the other.
fn binders(alloc: Global, e: Box<Expr>) -> Result<Box<Expr>, AllocError> {
    let body = atom(alloc)?;
    let whole = node(alloc, Form::Let(binder(3), e, body))?;
    let turn = atom(alloc)?;
    node(alloc, Form::Iterate(whole, binder(4), turn))
}

#[test]
fn each_form_is_copied(rt: HostRuntime) -> Result<(), Fail> {
    let alloc = rt.alloc();
    for number in 0..7 {
        assert_eq!(rt; leaf(alloc, number)?.boxed_copy(alloc)?.loops(), 0);
        assert_eq!(rt; one(alloc, number)?.boxed_copy(alloc)?.loops(), 0);
    }
    let whole = binders(alloc, loop_over(alloc, nest(alloc)?)?)?;
    assert_eq!(rt; whole.boxed_copy(alloc)?.loops(), 1);
    Ok(())
}
