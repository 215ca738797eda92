use crate::trees_kept::programs::{constant, node};
use std::test::Fail;
use weld_data::Kind;
use weld_tree::{
    Binder, Binders, Exprs, Form, LeafForm, Leg, Legs, Place, Sym, Ty, Tys, laws, loops_of,
};

#[test]
fn lists_of_trees(rt: HostRuntime) -> Result<(), Fail> {
    let alloc = rt.alloc();
    let tys = Tys::from_vec(vec![in alloc; Ty::scalar(Kind::I64), Ty::scalar(Kind::Bool)]?);
    assert!(rt; tys.same(&tys.copy(alloc)?));
    assert!(rt; tys.as_slice()[0].is_integer() && tys.as_slice()[1].is_scalar());
    assert_eq!(rt; tys.into_vec().len(), 2);

    let leg = Leg::Whole(node(alloc, Form::Leaf(LeafForm::Truth(true)))?);
    let mut legs = Legs::from_vec(vec![in alloc; leg]?);
    assert_eq!(rt; legs.as_mut_slice().len(), 1);
    assert_eq!(rt; legs.copy(alloc)?.into_vec().len(), 1);
    let mut exprs = Exprs::from_vec(Exprs::new(alloc).into_vec());
    assert_eq!(rt; exprs.as_mut_slice().len(), 0);

    let binder = Binder {
        sym: Sym(0),
        place: Place { line: 1, column: 1 },
        note: None,
        note_place: Place { line: 1, column: 1 },
    };
    let binders = Binders::from_vec(vec![in alloc; binder]?);
    assert_eq!(rt; binders.copy(alloc)?.into_vec().len(), 1);
    Ok(())
}

#[test]
fn programs(rt: HostRuntime) -> Result<(), Fail> {
    let alloc = rt.alloc();
    let copy = constant(alloc, 7)?.copy(alloc)?;
    assert_eq!(rt; (loops_of(&copy), copy.params.len()), (0, 0));
    laws::sameness_is_an_equivalence();
    laws::same_programs_have_same_counts();
    laws::distance_tells_binders_apart();
    Ok(())
}
