//! Calls that go element by element.

use super::Case;
use weld_calls::Call;
use weld_data::BinOp;

/// Sums, differences, products and comparisons.
pub(crate) static ADD_SUB_MUL_COMPARE: [Case; 27] = [
    Case {
        call: Call::Add,
        given: &[("vec[i8]", "[40,60,-100]"), ("vec[i8]", "[60,7,-100]")],
        wanted: "\"dC8\"",
    },
    Case {
        call: Call::Add,
        given: &[("vec[u8]", "[200,3,0]"), ("vec[u8]", "[100,2,1]")],
        wanted: "[44,5,1]",
    },
    Case {
        call: Call::Add,
        given: &[("vec[i32]", "[2147483647,-5,7]"), ("vec[i32]", "[1,3,-2]")],
        wanted: "[-2147483648,-2,5]",
    },
    Case {
        call: Call::Add,
        given: &[
            ("vec[i64]", "[9223372036854775807,-7,12]"),
            ("vec[i64]", "[2,3,-5]"),
        ],
        wanted: "[-9223372036854775807,-4,7]",
    },
    Case {
        call: Call::Add,
        given: &[("vec[i64]", "[]"), ("vec[i64]", "[]")],
        wanted: "[]",
    },
    Case {
        call: Call::Add,
        given: &[("vec[i64]", "[1,2]"), ("vec[i64]", "[1]")],
        wanted: "fault",
    },
    Case {
        call: Call::Sub,
        given: &[("vec[i8]", "[100,-100]"), ("vec[i8]", "[10,90]")],
        wanted: "\"ZB\"",
    },
    Case {
        call: Call::Sub,
        given: &[("vec[u8]", "[200,3,0]"), ("vec[u8]", "[100,2,1]")],
        wanted: "[100,1,255]",
    },
    Case {
        call: Call::Sub,
        given: &[("vec[i32]", "[2147483647,-5,7]"), ("vec[i32]", "[1,3,-2]")],
        wanted: "[2147483646,-8,9]",
    },
    Case {
        call: Call::Sub,
        given: &[
            ("vec[i64]", "[9223372036854775807,-7,12]"),
            ("vec[i64]", "[2,3,-5]"),
        ],
        wanted: "[9223372036854775805,-10,17]",
    },
    Case {
        call: Call::Sub,
        given: &[("vec[i64]", "[]"), ("vec[i64]", "[]")],
        wanted: "[]",
    },
    Case {
        call: Call::Sub,
        given: &[("vec[i64]", "[1,2]"), ("vec[i64]", "[1]")],
        wanted: "fault",
    },
    Case {
        call: Call::Mul,
        given: &[("vec[i8]", "[20,-60]"), ("vec[i8]", "[3,-2]")],
        wanted: "\"<x\"",
    },
    Case {
        call: Call::Mul,
        given: &[("vec[u8]", "[200,3,0]"), ("vec[u8]", "[100,2,1]")],
        wanted: "[32,6,0]",
    },
    Case {
        call: Call::Mul,
        given: &[("vec[i32]", "[2147483647,-5,7]"), ("vec[i32]", "[1,3,-2]")],
        wanted: "[2147483647,-15,-14]",
    },
    Case {
        call: Call::Mul,
        given: &[
            ("vec[i64]", "[9223372036854775807,-7,12]"),
            ("vec[i64]", "[2,3,-5]"),
        ],
        wanted: "[-2,-21,-60]",
    },
    Case {
        call: Call::Mul,
        given: &[("vec[i64]", "[]"), ("vec[i64]", "[]")],
        wanted: "[]",
    },
    Case {
        call: Call::Mul,
        given: &[("vec[i64]", "[1,2]"), ("vec[i64]", "[1]")],
        wanted: "fault",
    },
    Case {
        call: Call::Compare(BinOp::Eq),
        given: &[("vec[i64]", "[1,2,3]"), ("i64", "2")],
        wanted: "[false,true,false]",
    },
    Case {
        call: Call::Compare(BinOp::Ne),
        given: &[("vec[i64]", "[1,2,3]"), ("i64", "2")],
        wanted: "[true,false,true]",
    },
    Case {
        call: Call::Compare(BinOp::Lt),
        given: &[("vec[i64]", "[1,2,3]"), ("i64", "2")],
        wanted: "[true,false,false]",
    },
    Case {
        call: Call::Compare(BinOp::Le),
        given: &[("vec[i64]", "[1,2,3]"), ("i64", "2")],
        wanted: "[true,true,false]",
    },
    Case {
        call: Call::Compare(BinOp::Gt),
        given: &[("vec[i64]", "[1,2,3]"), ("i64", "2")],
        wanted: "[false,false,true]",
    },
    Case {
        call: Call::Compare(BinOp::Ge),
        given: &[("vec[i64]", "[1,2,3]"), ("i64", "2")],
        wanted: "[false,true,true]",
    },
    Case {
        call: Call::Compare(BinOp::Lt),
        given: &[("vec[i8]", "[-1,5]"), ("i8", "0")],
        wanted: "[true,false]",
    },
    Case {
        call: Call::Compare(BinOp::Lt),
        given: &[("vec[u8]", "[0,255]"), ("u8", "7")],
        wanted: "[true,false]",
    },
    Case {
        call: Call::Compare(BinOp::Lt),
        given: &[("vec[i32]", "[-9,9]"), ("i32", "0")],
        wanted: "[true,false]",
    },
];

/// Operators on two vectors.
pub(crate) static ARITH: [Case; 25] = [
    Case {
        call: Call::Arith(BinOp::Add),
        given: &[("vec[u8]", "[200,3,0]"), ("vec[u8]", "[100,2,1]")],
        wanted: "[44,5,1]",
    },
    Case {
        call: Call::Arith(BinOp::Add),
        given: &[("vec[i32]", "[2147483647,-5,7]"), ("vec[i32]", "[1,3,-2]")],
        wanted: "[-2147483648,-2,5]",
    },
    Case {
        call: Call::Arith(BinOp::Add),
        given: &[
            ("vec[i64]", "[9223372036854775807,-7,12]"),
            ("vec[i64]", "[2,3,-5]"),
        ],
        wanted: "[-9223372036854775807,-4,7]",
    },
    Case {
        call: Call::Arith(BinOp::Sub),
        given: &[("vec[u8]", "[200,3,0]"), ("vec[u8]", "[100,2,1]")],
        wanted: "[100,1,255]",
    },
    Case {
        call: Call::Arith(BinOp::Sub),
        given: &[("vec[i32]", "[2147483647,-5,7]"), ("vec[i32]", "[1,3,-2]")],
        wanted: "[2147483646,-8,9]",
    },
    Case {
        call: Call::Arith(BinOp::Sub),
        given: &[
            ("vec[i64]", "[9223372036854775807,-7,12]"),
            ("vec[i64]", "[2,3,-5]"),
        ],
        wanted: "[9223372036854775805,-10,17]",
    },
    Case {
        call: Call::Arith(BinOp::Mul),
        given: &[("vec[u8]", "[200,3,0]"), ("vec[u8]", "[100,2,1]")],
        wanted: "[32,6,0]",
    },
    Case {
        call: Call::Arith(BinOp::Mul),
        given: &[("vec[i32]", "[2147483647,-5,7]"), ("vec[i32]", "[1,3,-2]")],
        wanted: "[2147483647,-15,-14]",
    },
    Case {
        call: Call::Arith(BinOp::Mul),
        given: &[
            ("vec[i64]", "[9223372036854775807,-7,12]"),
            ("vec[i64]", "[2,3,-5]"),
        ],
        wanted: "[-2,-21,-60]",
    },
    Case {
        call: Call::Arith(BinOp::Div),
        given: &[("vec[u8]", "[200,3,0]"), ("vec[u8]", "[100,2,1]")],
        wanted: "[2,1,0]",
    },
    Case {
        call: Call::Arith(BinOp::Div),
        given: &[("vec[i32]", "[2147483647,-5,7]"), ("vec[i32]", "[1,3,-2]")],
        wanted: "[2147483647,-1,-3]",
    },
    Case {
        call: Call::Arith(BinOp::Div),
        given: &[
            ("vec[i64]", "[9223372036854775807,-7,12]"),
            ("vec[i64]", "[2,3,-5]"),
        ],
        wanted: "[4611686018427387903,-2,-2]",
    },
    Case {
        call: Call::Arith(BinOp::Rem),
        given: &[("vec[u8]", "[200,3,0]"), ("vec[u8]", "[100,2,1]")],
        wanted: "[0,1,0]",
    },
    Case {
        call: Call::Arith(BinOp::Rem),
        given: &[("vec[i32]", "[2147483647,-5,7]"), ("vec[i32]", "[1,3,-2]")],
        wanted: "[0,-2,1]",
    },
    Case {
        call: Call::Arith(BinOp::Rem),
        given: &[
            ("vec[i64]", "[9223372036854775807,-7,12]"),
            ("vec[i64]", "[2,3,-5]"),
        ],
        wanted: "[1,-1,2]",
    },
    Case {
        call: Call::Arith(BinOp::Add),
        given: &[("vec[i8]", "[40]"), ("vec[i8]", "[60]")],
        wanted: "\"d\"",
    },
    Case {
        call: Call::Arith(BinOp::Sub),
        given: &[("vec[i8]", "[100]"), ("vec[i8]", "[10]")],
        wanted: "\"Z\"",
    },
    Case {
        call: Call::Arith(BinOp::Mul),
        given: &[("vec[i8]", "[20]"), ("vec[i8]", "[3]")],
        wanted: "\"<\"",
    },
    Case {
        call: Call::Arith(BinOp::Div),
        given: &[("vec[i8]", "[100]"), ("vec[i8]", "[2]")],
        wanted: "\"2\"",
    },
    Case {
        call: Call::Arith(BinOp::Rem),
        given: &[("vec[i8]", "[100]"), ("vec[i8]", "[60]")],
        wanted: "\"(\"",
    },
    Case {
        call: Call::Arith(BinOp::Div),
        given: &[("vec[i64]", "[-9223372036854775808]"), ("vec[i64]", "[-1]")],
        wanted: "[-9223372036854775808]",
    },
    Case {
        call: Call::Arith(BinOp::Rem),
        given: &[
            ("vec[i64]", "[-9223372036854775808,-7]"),
            ("vec[i64]", "[-1,3]"),
        ],
        wanted: "[0,-1]",
    },
    Case {
        call: Call::Arith(BinOp::Div),
        given: &[("vec[i64]", "[1,2]"), ("vec[i64]", "[1,0]")],
        wanted: "fault",
    },
    Case {
        call: Call::Arith(BinOp::Rem),
        given: &[("vec[u8]", "[1,2]"), ("vec[u8]", "[1,0]")],
        wanted: "fault",
    },
    Case {
        call: Call::Arith(BinOp::Add),
        given: &[("vec[u8]", "[1,2]"), ("vec[u8]", "[1]")],
        wanted: "fault",
    },
];
