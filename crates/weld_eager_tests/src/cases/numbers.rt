//! Calls that multiply, choose and count.

use super::Case;
use weld_calls::Call;

/// Multiples, choices, dots and histograms.
pub(crate) static NUMBERS: [Case; 24] = [
    Case {
        call: Call::Scale,
        given: &[("vec[i8]", "[20,100]"), ("i8", "3")],
        wanted: "\"<,\"",
    },
    Case {
        call: Call::Scale,
        given: &[("vec[u8]", "[200,3]"), ("u8", "3")],
        wanted: "[88,9]",
    },
    Case {
        call: Call::Scale,
        given: &[("vec[i32]", "[2147483647,-5]"), ("i32", "2")],
        wanted: "[-2,-10]",
    },
    Case {
        call: Call::Scale,
        given: &[("vec[i64]", "[9223372036854775807,-7]"), ("i64", "-3")],
        wanted: "[-9223372036854775805,21]",
    },
    Case {
        call: Call::Where,
        given: &[
            ("vec[bool]", "[true,false,true]"),
            ("vec[i8]", "[65,66,67]"),
            ("vec[i8]", "[97,98,99]"),
        ],
        wanted: "\"AbC\"",
    },
    Case {
        call: Call::Where,
        given: &[
            ("vec[bool]", "[true,false,true]"),
            ("vec[u8]", "[200,3,0]"),
            ("vec[u8]", "[1,2,3]"),
        ],
        wanted: "[200,2,0]",
    },
    Case {
        call: Call::Where,
        given: &[
            ("vec[bool]", "[true,false,true]"),
            ("vec[i32]", "[1,2,3]"),
            ("vec[i32]", "[-1,-2,-3]"),
        ],
        wanted: "[1,-2,3]",
    },
    Case {
        call: Call::Where,
        given: &[
            ("vec[bool]", "[true,false,true]"),
            ("vec[i64]", "[1,2,3]"),
            ("vec[i64]", "[-1,-2,-3]"),
        ],
        wanted: "[1,-2,3]",
    },
    Case {
        call: Call::Where,
        given: &[
            ("vec[bool]", "[true,false]"),
            ("vec[i64]", "[1,2]"),
            ("vec[i64]", "[3]"),
        ],
        wanted: "fault",
    },
    Case {
        call: Call::Where,
        given: &[
            ("vec[bool]", "[true]"),
            ("vec[i64]", "[1,2]"),
            ("vec[i64]", "[3,4]"),
        ],
        wanted: "fault",
    },
    Case {
        call: Call::Dot,
        given: &[("vec[i8]", "[100,-60,3]"), ("vec[i8]", "[3,2,1]")],
        wanted: "-73",
    },
    Case {
        call: Call::Dot,
        given: &[("vec[u8]", "[200,3,0]"), ("vec[u8]", "[100,2,1]")],
        wanted: "38",
    },
    Case {
        call: Call::Dot,
        given: &[("vec[i32]", "[2147483647,-5,7]"), ("vec[i32]", "[1,3,-2]")],
        wanted: "2147483618",
    },
    Case {
        call: Call::Dot,
        given: &[
            ("vec[i64]", "[9223372036854775807,-7,12]"),
            ("vec[i64]", "[2,3,-5]"),
        ],
        wanted: "-83",
    },
    Case {
        call: Call::Dot,
        given: &[("vec[i64]", "[1]"), ("vec[i64]", "[1,2]")],
        wanted: "fault",
    },
    Case {
        call: Call::Histogram,
        given: &[
            ("vec[i64]", "[1,0,1,2,1]"),
            ("vec[i64]", "[10,9223372036854775806,-3,4]"),
        ],
        wanted: "[11,-9223372036854775807,-2,4]",
    },
    Case {
        call: Call::Histogram,
        given: &[("vec[i64]", "[1,3]"), ("vec[i64]", "[0,0,0]")],
        wanted: "fault",
    },
    Case {
        call: Call::Histogram,
        given: &[("vec[i64]", "[-1]"), ("vec[i64]", "[0]")],
        wanted: "fault",
    },
    Case {
        call: Call::RowsDot,
        given: &[("vec[vec[i8]]", "[[100,17],[20,1]]"), ("vec[i8]", "[3,3]")],
        wanted: "\"_?\"",
    },
    Case {
        call: Call::RowsDot,
        given: &[("vec[vec[u8]]", "[[100,20],[20,1]]"), ("vec[u8]", "[3,5]")],
        wanted: "[144,65]",
    },
    Case {
        call: Call::RowsDot,
        given: &[
            ("vec[vec[i32]]", "[[100,20],[20,1]]"),
            ("vec[i32]", "[3,-5]"),
        ],
        wanted: "[200,55]",
    },
    Case {
        call: Call::RowsDot,
        given: &[
            ("vec[vec[i64]]", "[[100,20],[20,1]]"),
            ("vec[i64]", "[3,-5]"),
        ],
        wanted: "[200,55]",
    },
    Case {
        call: Call::RowsDot,
        given: &[("vec[vec[i64]]", "[]"), ("vec[i64]", "[1]")],
        wanted: "[]",
    },
    Case {
        call: Call::RowsDot,
        given: &[("vec[vec[i64]]", "[[1,2],[1]]"), ("vec[i64]", "[1,2]")],
        wanted: "fault",
    },
];
