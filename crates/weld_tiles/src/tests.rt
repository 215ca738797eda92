//! Tilings of small and of the greatest numbers of rows.

use crate::{Tile, is_tiling, tiles};
use std::test::Fail;

/// Rows, a cut, and where the tiles end.
static CASES: [(u64, u32, &[u64]); 8] = [
    (0, 4, &[]),
    (1, 4, &[1]),
    (4, 4, &[4]),
    (5, 4, &[2, 5]),
    (9, 4, &[4, 6, 9]),
    (3, 1, &[1, 2, 3]),
    (4294967295, 4294967295, &[4294967295]),
    (4294967296, 4294967295, &[2147483648, 4294967296]),
];

/// Tiles, a number of rows, and whether they are a tiling of them.
static TILINGS: [(&[Tile], u64, bool); 7] = [
    (&[], 0, true),
    (&[], 1, false),
    (
        &[Tile {
            number: 0,
            lo: 0,
            hi: 18446744073709551615,
        }],
        18446744073709551615,
        true,
    ),
    (
        &[Tile {
            number: 1,
            lo: 0,
            hi: 3,
        }],
        3,
        false,
    ),
    (
        &[
            Tile {
                number: 0,
                lo: 0,
                hi: 2,
            },
            Tile {
                number: 1,
                lo: 3,
                hi: 4,
            },
        ],
        4,
        false,
    ),
    (
        &[
            Tile {
                number: 0,
                lo: 0,
                hi: 2,
            },
            Tile {
                number: 1,
                lo: 2,
                hi: 2,
            },
        ],
        2,
        false,
    ),
    (
        &[
            Tile {
                number: 0,
                lo: 0,
                hi: 2,
            },
            Tile {
                number: 1,
                lo: 2,
                hi: 4,
            },
        ],
        5,
        false,
    ),
];

#[test]
fn rows_are_cut(rt: HostRuntime) -> Result<(), Fail> {
    for (rows, cut, ends) in &CASES {
        if *cut >= 1 {
            let list = tiles(rt.alloc(), *rows, *cut)?;
            assert_eq!(rt; list.len(), ends.len());
            for (tile, end) in list.as_slice().iter().zip(*ends) {
                assert_eq!(rt; tile.hi, *end);
            }
            assert!(rt; is_tiling(list.as_slice(), *rows));
        }
    }
    Ok(())
}

#[test]
fn tilings_are_told(rt: HostRuntime) -> Result<(), Fail> {
    for (list, rows, is) in &TILINGS {
        assert_eq!(rt; is_tiling(list, *rows), *is);
    }
    Ok(())
}
