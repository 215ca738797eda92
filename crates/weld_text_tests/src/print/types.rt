use std::alloc::{AllocError, Global};
use std::test::Fail;
use weld_data::{Kind, MergeOp};
use weld_print::types::print_ty;
use weld_tree::{BuildTy, Ty};

fn scalar(alloc: Global, kind: Kind) -> Result<Box<Ty>, AllocError> {
    Ok(Box::new(alloc, Ty::scalar(kind))?)
}

/// The type of each number.
fn ty_of(alloc: Global, number: u8) -> Result<Box<Ty>, AllocError> {
    match number {
        0 => scalar(alloc, Kind::Bool),
        1 => strings(alloc),
        2 => structs(alloc),
        3 => dictionaries(alloc),
        _ => sums(alloc),
    }
}

fn strings(alloc: Global) -> Result<Box<Ty>, AllocError> {
    Ok(Box::new(alloc, Ty::vec_of(alloc, Ty::scalar(Kind::I8))?)?)
}

fn structs(alloc: Global) -> Result<Box<Ty>, AllocError> {
    let fields = Ty::pair_of(alloc, Ty::scalar(Kind::I32), Ty::scalar(Kind::U8))?;
    Ok(Box::new(alloc, fields)?)
}

fn dictionaries(alloc: Global) -> Result<Box<Ty>, AllocError> {
    let key = structs(alloc)?;
    let value = strings(alloc)?;
    let dict = Ty::dict_of(alloc, Box::into_inner(key), Box::into_inner(value))?;
    Ok(Box::new(alloc, dict)?)
}

fn sums(alloc: Global) -> Result<Box<Ty>, AllocError> {
    let key = strings(alloc)?;
    let sums = BuildTy::Keyed(key, scalar(alloc, Kind::I64)?, MergeOp::Add);
    Ok(Box::new(alloc, Ty::builder(sums))?)
}

static TEXTS: [&str; 5] = [
    "bool",
    "vec[i8]",
    "{i32,u8}",
    "dict[{i32,u8},vec[i8]]",
    "dictmerger[vec[i8],i64,+]",
];

#[test]
fn types_are_printed(rt: HostRuntime) -> Result<(), Fail> {
    let alloc = rt.alloc();
    let mut number = 0;
    for text in &TEXTS {
        let ty = ty_of(alloc, number)?;
        let printed = print_ty(alloc, &ty)?;
        assert!(rt; printed.as_slice() == text.as_bytes(), "{number}");
        number = number.wrapping_add(1);
    }
    Ok(())
}
