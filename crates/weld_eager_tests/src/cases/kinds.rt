//! Calls on the kinds of less use.

use super::Case;
use weld_calls::Call;
use weld_data::BinOp;

/// Numbers of 16 bits, and those of 32 and 64 bits without a sign.
pub(crate) static OTHER_KINDS: [Case; 44] = [
    Case {
        call: Call::Add,
        given: &[("vec[i16]", "[32767,-5]"), ("vec[i16]", "[1,3]")],
        wanted: "[-32768,-2]",
    },
    Case {
        call: Call::Add,
        given: &[("vec[u16]", "[65535,3]"), ("vec[u16]", "[2,4]")],
        wanted: "[1,7]",
    },
    Case {
        call: Call::Add,
        given: &[("vec[u32]", "[4294967295,3]"), ("vec[u32]", "[2,4]")],
        wanted: "[1,7]",
    },
    Case {
        call: Call::Add,
        given: &[
            ("vec[u64]", "[18446744073709551615,9223372036854775807]"),
            ("vec[u64]", "[2,1]"),
        ],
        wanted: "[1,9223372036854775808]",
    },
    Case {
        call: Call::Sub,
        given: &[("vec[i16]", "[-32768,5]"), ("vec[i16]", "[1,3]")],
        wanted: "[32767,2]",
    },
    Case {
        call: Call::Sub,
        given: &[("vec[u32]", "[0,5]"), ("vec[u32]", "[1,2]")],
        wanted: "[4294967295,3]",
    },
    Case {
        call: Call::Sub,
        given: &[("vec[u64]", "[0,5]"), ("vec[u64]", "[1,2]")],
        wanted: "[18446744073709551615,3]",
    },
    Case {
        call: Call::Mul,
        given: &[("vec[i16]", "[300,-256]"), ("vec[i16]", "[300,128]")],
        wanted: "[24464,-32768]",
    },
    Case {
        call: Call::Mul,
        given: &[("vec[u16]", "[300,65535]"), ("vec[u16]", "[300,65535]")],
        wanted: "[24464,1]",
    },
    Case {
        call: Call::Mul,
        given: &[
            ("vec[u32]", "[65536,4294967295]"),
            ("vec[u32]", "[65536,4294967295]"),
        ],
        wanted: "[0,1]",
    },
    Case {
        call: Call::Mul,
        given: &[
            (
                "vec[u64]",
                "[18446744073709551615,4294967296,9223372036854775808]",
            ),
            ("vec[u64]", "[18446744073709551615,4294967296,3]"),
        ],
        wanted: "[1,0,9223372036854775808]",
    },
    Case {
        call: Call::Arith(BinOp::Div),
        given: &[("vec[i16]", "[-32768,-7]"), ("vec[i16]", "[-1,2]")],
        wanted: "[-32768,-3]",
    },
    Case {
        call: Call::Arith(BinOp::Rem),
        given: &[("vec[i16]", "[-32768,-7]"), ("vec[i16]", "[-1,2]")],
        wanted: "[0,-1]",
    },
    Case {
        call: Call::Arith(BinOp::Div),
        given: &[
            ("vec[u64]", "[18446744073709551615,9223372036854775808]"),
            ("vec[u64]", "[2,18446744073709551615]"),
        ],
        wanted: "[9223372036854775807,0]",
    },
    Case {
        call: Call::Arith(BinOp::Rem),
        given: &[
            ("vec[u64]", "[18446744073709551615,9223372036854775808]"),
            ("vec[u64]", "[10,18446744073709551615]"),
        ],
        wanted: "[5,9223372036854775808]",
    },
    Case {
        call: Call::Arith(BinOp::Div),
        given: &[
            ("vec[u64]", "[1,18446744073709551615]"),
            ("vec[u64]", "[1,0]"),
        ],
        wanted: "fault",
    },
    Case {
        call: Call::Compare(BinOp::Lt),
        given: &[("vec[i16]", "[-1,5]"), ("i16", "0")],
        wanted: "[true,false]",
    },
    Case {
        call: Call::Compare(BinOp::Lt),
        given: &[("vec[u16]", "[65535,1]"), ("u16", "2")],
        wanted: "[false,true]",
    },
    Case {
        call: Call::Compare(BinOp::Lt),
        given: &[("vec[u32]", "[4294967295,1]"), ("u32", "2")],
        wanted: "[false,true]",
    },
    Case {
        call: Call::Compare(BinOp::Lt),
        given: &[
            ("vec[u64]", "[1,9223372036854775808,18446744073709551615]"),
            ("u64", "9223372036854775808"),
        ],
        wanted: "[true,false,false]",
    },
    Case {
        call: Call::Compare(BinOp::Ge),
        given: &[
            ("vec[u64]", "[1,9223372036854775808,18446744073709551615]"),
            ("u64", "9223372036854775808"),
        ],
        wanted: "[false,true,true]",
    },
    Case {
        call: Call::Scale,
        given: &[("vec[i16]", "[20000,-3]"), ("i16", "3")],
        wanted: "[-5536,-9]",
    },
    Case {
        call: Call::Scale,
        given: &[("vec[u64]", "[18446744073709551615,2]"), ("u64", "3")],
        wanted: "[18446744073709551613,6]",
    },
    Case {
        call: Call::Scale,
        given: &[
            ("vec[u64]", "[18446744073709551615,0]"),
            ("u64", "18446744073709551615"),
        ],
        wanted: "[1,0]",
    },
    Case {
        call: Call::Where,
        given: &[
            ("vec[bool]", "[true,false]"),
            ("vec[u64]", "[18446744073709551615,1]"),
            ("vec[u64]", "[2,9223372036854775808]"),
        ],
        wanted: "[18446744073709551615,9223372036854775808]",
    },
    Case {
        call: Call::Dot,
        given: &[("vec[u32]", "[65536,3]"), ("vec[u32]", "[65536,4]")],
        wanted: "12",
    },
    Case {
        call: Call::Dot,
        given: &[
            ("vec[u64]", "[9223372036854775808,3]"),
            ("vec[u64]", "[2,4]"),
        ],
        wanted: "12",
    },
    Case {
        call: Call::RowsDot,
        given: &[
            (
                "vec[vec[u64]]",
                "[[9223372036854775808,3],[18446744073709551615,1]]",
            ),
            ("vec[u64]", "[2,4]"),
        ],
        wanted: "[12,2]",
    },
    Case {
        call: Call::Sum,
        given: &[("vec[u16]", "[65535,2]")],
        wanted: "1",
    },
    Case {
        call: Call::Sum,
        given: &[("vec[u64]", "[18446744073709551615,2]")],
        wanted: "1",
    },
    Case {
        call: Call::Min,
        given: &[("vec[i16]", "[]")],
        wanted: "32767",
    },
    Case {
        call: Call::Min,
        given: &[("vec[u64]", "[]")],
        wanted: "18446744073709551615",
    },
    Case {
        call: Call::Min,
        given: &[("vec[u64]", "[18446744073709551615,9223372036854775808]")],
        wanted: "9223372036854775808",
    },
    Case {
        call: Call::Max,
        given: &[("vec[u32]", "[]")],
        wanted: "0",
    },
    Case {
        call: Call::Max,
        given: &[(
            "vec[u64]",
            "[9223372036854775807,18446744073709551615,9223372036854775808]",
        )],
        wanted: "18446744073709551615",
    },
    Case {
        call: Call::Take,
        given: &[
            ("vec[u64]", "[5,18446744073709551615]"),
            ("vec[i64]", "[1,0,1]"),
        ],
        wanted: "[18446744073709551615,5,18446744073709551615]",
    },
    Case {
        call: Call::Filter,
        given: &[("vec[u16]", "[65535,7]"), ("vec[bool]", "[true,false]")],
        wanted: "[65535]",
    },
    Case {
        call: Call::Filter,
        given: &[
            ("vec[u64]", "[18446744073709551615,7]"),
            ("vec[bool]", "[true,false]"),
        ],
        wanted: "[18446744073709551615]",
    },
    Case {
        call: Call::GroupSum,
        given: &[
            ("vec[u64]", "[18446744073709551615,1,18446744073709551615]"),
            ("vec[u64]", "[18446744073709551615,7,2]"),
        ],
        wanted: "dict{1:7,18446744073709551615:1}",
    },
    Case {
        call: Call::GroupSum,
        given: &[("vec[i16]", "[3,-3,3]"), ("vec[u32]", "[4294967295,7,2]")],
        wanted: "dict{-3:7,3:1}",
    },
    Case {
        call: Call::GroupCount,
        given: &[(
            "vec[u64]",
            "[9223372036854775808,9223372036854775807,9223372036854775808]",
        )],
        wanted: "dict{9223372036854775807:1,9223372036854775808:2}",
    },
    Case {
        call: Call::GroupCount,
        given: &[("vec[u16]", "[65535,1,65535]")],
        wanted: "dict{1:1,65535:2}",
    },
    Case {
        call: Call::GroupList,
        given: &[
            ("vec[u64]", "[18446744073709551615,1,18446744073709551615]"),
            ("vec[u64]", "[18446744073709551615,4,9223372036854775808]"),
        ],
        wanted: "dict{1:[4],18446744073709551615:[18446744073709551615,9223372036854775808]}",
    },
    Case {
        call: Call::GroupList,
        given: &[
            ("vec[u32]", "[4294967295,1,4294967295]"),
            ("vec[i16]", "[-3,4,5]"),
        ],
        wanted: "dict{1:[4],4294967295:[-3,5]}",
    },
];
