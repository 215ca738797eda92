use std::alloc::{AllocError, Global};
use std::test::Fail;
use weld_tokens::text_limits::{first_deep_node, has_too_many_lets};
use weld_tree::{Binder, Expr, Form, Known, LeafForm, OneForm, Place, Sym};

/// A node at a column.
fn node(form: Form, column: u32) -> Expr {
    Expr {
        form,
        place: Place { line: 1, column },
        ty: Known::Blank,
    }
}

/// A truth value at a column.
fn truth(alloc: Global, column: u32) -> Result<Box<Expr>, AllocError> {
    Ok(Box::new(alloc, node(Form::Leaf(LeafForm::Truth(true)), column))?)
}

/// A truth value behind so many `!`.
fn negations(alloc: Global, count: u32) -> Result<Box<Expr>, AllocError> {
    let mut e = truth(alloc, 200)?;
    for i in 0..count {
        let form = Form::One(OneForm::Not, e);
        e = Box::new(alloc, node(form, 199 - i.min(199)))?;
    }
    Ok(e)
}

/// So many `let` nodes, one in the body of the other.
fn lets(alloc: Global, count: u32) -> Result<Box<Expr>, AllocError> {
    let mut e = truth(alloc, 2)?;
    for _ in 0..count {
        let binder = Binder {
            sym: Sym(0),
            place: Place { line: 1, column: 1 },
            note: None,
            note_place: Place { line: 1, column: 1 },
        };
        let form = Form::Let(binder, truth(alloc, 3)?, e);
        e = Box::new(alloc, node(form, 1))?;
    }
    Ok(e)
}

#[test]
fn nodes_stand_a_hundred_deep_at_most(rt: HostRuntime) -> Result<(), Fail> {
    let alloc = rt.alloc();
    let e = negations(alloc, 99)?;
    assert_eq!(rt; first_deep_node(&e), None);
    let e = negations(alloc, 100)?;
    assert_eq!(rt;
        first_deep_node(&e),
        Some(Place {
            line: 1,
            column: 200
        })
    );
    let e = negations(alloc, 102)?;
    assert_eq!(rt;
        first_deep_node(&e),
        Some(Place {
            line: 1,
            column: 198
        })
    );
    Ok(())
}

#[test]
fn lets_nest_nothing_but_are_counted(rt: HostRuntime) -> Result<(), Fail> {
    let alloc = rt.alloc();
    let e = lets(alloc, 1_024)?;
    assert_eq!(rt; first_deep_node(&e), None);
    assert_eq!(rt; has_too_many_lets(&e), false);
    let e = lets(alloc, 1_025)?;
    assert_eq!(rt; has_too_many_lets(&e), true);
    Ok(())
}
