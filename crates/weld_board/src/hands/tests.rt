//! The machine, step by step.

use crate::hands::{Event, Machine, Step};
use std::test::Fail;
use weld_tiles::{Tile, tiles};

/// The number of the tile that was taken, if one was.
fn number(step: Step) -> Option<u64> {
    match step {
        Step::Took(tile) => Some(tile.number),
        _ => None,
    }
}

#[test]
fn seats_take_what_is_first(rt: HostRuntime) -> Result<(), Fail> {
    let list = tiles(rt.alloc(), 5, 1)?;
    let mut machine = Machine::deal(rt.alloc(), list.as_slice(), 2)?;
    assert!(rt; number(machine.step(Event::Steal(1, 0))) == Some(0));
    assert!(rt; number(machine.step(Event::Pop(1))) == Some(2));
    assert!(rt; number(machine.step(Event::Pop(0))) == Some(1));
    assert!(rt; machine.step(Event::Pop(0)) == Step::Empty);
    assert!(rt; number(machine.step(Event::Steal(0, 1))) == Some(3));
    Ok(())
}

#[test]
fn a_seat_with_an_empty_hand_finishes(rt: HostRuntime) -> Result<(), Fail> {
    let list = [Tile {
        number: 0,
        lo: 0,
        hi: 1,
    }];
    let mut machine = Machine::deal(rt.alloc(), &list, 2)?;
    let finished = match machine.step(Event::Pop(0)) {
        Step::Empty => machine.step(Event::Finish(0)) == Step::Finished,
        _ => false,
    };
    assert!(rt; finished);
    Ok(())
}
