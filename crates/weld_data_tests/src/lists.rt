use crate::dictionaries::{build, find};
use std::test::Fail;
use weld_data::{Bools, I64s, Items, Names, Num, Pairs, Text, Val, Vals, laws};

#[test]
fn items_and_bytes(rt: HostRuntime) -> Result<(), Fail> {
    let alloc = rt.alloc();
    let mut numbers = I64s::new(alloc);
    numbers.push(5)?;
    numbers.push_all(&[6, 7])?;
    let numbers = I64s::from_vec(numbers.into_vec());
    assert_eq!(rt;
        (numbers.len(), numbers.as_slice()),
        (3, [5, 6, 7].as_slice())
    );
    let mut text = Text::new(alloc);
    assert!(rt; text.is_empty());
    text.push(b'a')?;
    text.push_all(b"bc")?;
    let text = Text::from_vec(text.into_vec());
    assert_eq!(rt; text.as_slice(), b"abc".as_slice());
    let truths = Bools::copy_of(alloc, &[true, false])?;
    assert_eq!(rt; truths.as_slice(), [true, false].as_slice());
    let mut names = Names::new(alloc);
    names.push(text)?;
    assert_eq!(rt; (names.len(), names.as_slice()[0].len()), (1, 3));
    Ok(())
}

#[test]
fn dictionaries(rt: HostRuntime) -> Result<(), Fail> {
    let alloc = rt.alloc();
    let pairs = build(alloc, 10)?;
    assert_eq!(rt;
        (pairs.len(), pairs.as_slice().len(), pairs.is_empty()),
        (10, 10, false)
    );
    for k in 0..20 {
        assert_eq!(rt; find(&pairs, k), (k < 10, k < 10));
    }
    let again = Pairs::from_vec(pairs.into_vec());
    assert_eq!(rt; again.len(), 10);
    let mut list = Vals::from_vec(Vals::new(alloc).into_vec());
    list.push(Val::Num(Num::of_i64(3)))?;
    assert!(rt; matches!(list.at(0), Val::Num(_)) && !list.is_empty());
    Ok(())
}

#[test]
fn laws_can_be_called() {
    laws::one_key_type();
    laws::key_order();
    laws::equal_values();
}
