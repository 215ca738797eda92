use std::alloc::{AllocError, Global};
use std::test::Fail;
use weld_data::{Kind, MergeOp};
use weld_tree::{BuildTy, Code, Ty, Tys};

static LETTERS: [(Code, &str); 9] = [
    (Code::X1, "X1"),
    (Code::M9, "M9"),
    (Code::N2, "N2"),
    (Code::Y30, "Y30"),
    (Code::L6, "L6"),
    (Code::S9, "S9"),
    (Code::Q5, "Q5"),
    (Code::Missing, "MISSING"),
    (Code::Repeat, "REPEAT"),
];

#[test]
fn codes_have_their_letters(rt: HostRuntime) -> Result<(), Fail> {
    for (code, letters) in &LETTERS {
        assert_eq!(rt; code.text(), *letters);
    }
    Ok(())
}

fn vec_of(alloc: Global, kind: Kind) -> Result<Box<Ty>, AllocError> {
    Ok(Box::new(alloc, Ty::vec_of(alloc, Ty::scalar(kind))?)?)
}

fn fields(alloc: Global, first: Box<Ty>, second: Box<Ty>) -> Result<Box<Ty>, AllocError> {
    let mut list = Tys::new(alloc);
    list.push(Box::into_inner(first))?;
    list.push(Box::into_inner(second))?;
    Ok(Box::new(alloc, Ty::struct_of(list))?)
}

fn scalar(alloc: Global, kind: Kind) -> Result<Box<Ty>, AllocError> {
    Ok(Box::new(alloc, Ty::scalar(kind))?)
}

/// The type of each number, each form once, and types that aren't well formed.
fn ty_of(alloc: Global, number: u8) -> Result<Box<Ty>, AllocError> {
    match number {
        0 => scalar(alloc, Kind::I64),
        1 => vec_of(alloc, Kind::U8),
        2 => fields(alloc, scalar(alloc, Kind::I64)?, vec_of(alloc, Kind::U8)?),
        3 => dict_of(alloc, ty_of_key(alloc)?, vec_of(alloc, Kind::Bool)?),
        4 => builder(alloc, BuildTy::List(vec_of(alloc, Kind::Bool)?)),
        5 => builder(
            alloc,
            BuildTy::Total(scalar(alloc, Kind::I64)?, MergeOp::Min),
        ),
        6 => keyed(alloc),
        7 => builder(
            alloc,
            BuildTy::Cells(scalar(alloc, Kind::U8)?, MergeOp::Mul),
        ),
        8 => groups(alloc),
        9 => dict_of(alloc, vec_of_structs(alloc)?, scalar(alloc, Kind::I64)?),
        10 => fields(alloc, keyed(alloc)?, scalar(alloc, Kind::I64)?),
        _ => Ok(Box::new(alloc, Ty::struct_of(Tys::new(alloc)))?),
    }
}

fn ty_of_key(alloc: Global) -> Result<Box<Ty>, AllocError> {
    fields(alloc, scalar(alloc, Kind::I64)?, vec_of(alloc, Kind::U8)?)
}

fn vec_of_structs(alloc: Global) -> Result<Box<Ty>, AllocError> {
    let item = ty_of_key(alloc)?;
    Ok(Box::new(alloc, Ty::vec_of(alloc, Box::into_inner(item))?)?)
}

fn dict_of(alloc: Global, key: Box<Ty>, value: Box<Ty>) -> Result<Box<Ty>, AllocError> {
    let dict = Ty::dict_of(alloc, Box::into_inner(key), Box::into_inner(value))?;
    Ok(Box::new(alloc, dict)?)
}

fn builder(alloc: Global, build: BuildTy) -> Result<Box<Ty>, AllocError> {
    Ok(Box::new(alloc, Ty::builder(build))?)
}

fn keyed(alloc: Global) -> Result<Box<Ty>, AllocError> {
    let key = scalar(alloc, Kind::I64)?;
    let value = scalar(alloc, Kind::I64)?;
    builder(alloc, BuildTy::Keyed(key, value, MergeOp::Add))
}

fn groups(alloc: Global) -> Result<Box<Ty>, AllocError> {
    let key = scalar(alloc, Kind::I64)?;
    let value = vec_of(alloc, Kind::I64)?;
    builder(alloc, BuildTy::Groups(key, value))
}

/// What is asked of a type: builder-free, a builder, a key, well formed, its depth, its nodes.
type Answers = (bool, bool, bool, bool, u64, u64);

static ANSWERS: [Answers; 12] = [
    (true, false, true, true, 1, 1),
    (true, false, true, true, 2, 2),
    (true, false, true, true, 3, 4),
    (true, false, false, true, 4, 7),
    (false, true, false, true, 3, 3),
    (false, true, false, true, 2, 2),
    (false, true, false, true, 2, 3),
    (false, true, false, true, 2, 2),
    (false, true, false, true, 3, 4),
    (true, false, false, false, 5, 7),
    (false, false, false, false, 3, 5),
    (true, true, false, false, 1, 1),
];

fn answers(ty: &Ty) -> Answers {
    (
        ty.is_builder_free(),
        ty.is_builder(),
        ty.is_key(),
        ty.is_well_formed(),
        ty.depth(),
        ty.nodes(),
    )
}

#[test]
fn types_are_what_they_are(rt: HostRuntime) -> Result<(), Fail> {
    let alloc = rt.alloc();
    let mut number = 0;
    for expected in &ANSWERS {
        let ty = ty_of(alloc, number)?;
        assert_eq!(rt; answers(&ty), *expected, "{number}");
        let copy = ty.boxed_copy(alloc)?;
        assert!(rt; copy.same(&ty) && copy.is_within_limits(), "{number}");
        number = number.wrapping_add(1);
    }
    Ok(())
}

#[test]
fn builders_take_and_give(rt: HostRuntime) -> Result<(), Fail> {
    let alloc = rt.alloc();
    let groups = BuildTy::Groups(scalar(alloc, Kind::U8)?, scalar(alloc, Kind::I64)?);
    let taken = fields(alloc, scalar(alloc, Kind::U8)?, scalar(alloc, Kind::I64)?)?;
    assert!(rt; groups.takes(alloc)?.same(&taken));
    let given = dict_of(alloc, scalar(alloc, Kind::U8)?, vec_of(alloc, Kind::I64)?)?;
    assert!(rt; groups.gives(alloc)?.same(&given));
    Ok(())
}
