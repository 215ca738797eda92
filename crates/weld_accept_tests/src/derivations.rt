use crate::places::tokens_of;
use std::test::Fail;
use weld_accept::{Step, derive};
use weld_grammar::terminals::{Class, Reserved, Symbol};
use weld_grammar::{Rule, Terminal};

// vec[i64]: each token is taken, and each rule ends behind its last token
#[test]
fn a_type_is_derived_in_the_order_of_its_tokens(rt: HostRuntime) -> Result<(), Fail> {
    let alloc = rt.alloc();
    let classes = [
        Class::Reserved(Reserved::Vec),
        Class::Symbol(Symbol::LeftBracket),
        Class::Reserved(Reserved::I64),
        Class::Symbol(Symbol::RightBracket),
    ];
    let tokens = tokens_of(alloc, &classes)?;
    match derive(alloc, Rule::AnyType, &tokens) {
        Ok(steps) => {
            let found = steps.as_slice();
            assert_eq!(rt; found.len(), 9);
            assert!(rt;
                matches!(
                    found.get(0),
                    Some(Step::Shift(Terminal::Fixed(Reserved::Vec)))
                )
            );
            assert!(rt;
                matches!(
                    found.get(2),
                    Some(Step::Shift(Terminal::Fixed(Reserved::I64)))
                )
            );
            assert!(rt; matches!(found.get(3), Some(Step::Reduce(Rule::IntKind))));
            assert!(rt; matches!(found.get(4), Some(Step::Reduce(Rule::Kind))));
            assert!(rt; matches!(found.get(5), Some(Step::Reduce(Rule::AnyType))));
            assert!(rt; matches!(found.get(7), Some(Step::Reduce(Rule::VecType))));
            assert!(rt; matches!(found.get(8), Some(Step::Reduce(Rule::AnyType))));
        }
        Err(_) => assert!(rt; false),
    }
    Ok(())
}
