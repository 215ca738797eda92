//! Calls that take elements.

use super::Case;
use weld_calls::Call;

/// Elements at places, and those that are kept.
pub(crate) static TAKE_FILTER: [Case; 23] = [
    Case {
        call: Call::Take,
        given: &[
            ("vec[bool]", "[true,false,true,true]"),
            ("vec[i64]", "[3,0,0]"),
        ],
        wanted: "[true,true,true]",
    },
    Case {
        call: Call::Take,
        given: &[("vec[i8]", "[97,98,99,100]"), ("vec[i64]", "[3,0,0]")],
        wanted: "\"daa\"",
    },
    Case {
        call: Call::Take,
        given: &[("vec[u8]", "[1,0,255,7]"), ("vec[i64]", "[3,0,0]")],
        wanted: "[7,1,1]",
    },
    Case {
        call: Call::Take,
        given: &[("vec[i32]", "[1,-2,3,-4]"), ("vec[i64]", "[3,0,0]")],
        wanted: "[-4,1,1]",
    },
    Case {
        call: Call::Take,
        given: &[("vec[i64]", "[5,-6,7,8]"), ("vec[i64]", "[3,0,0]")],
        wanted: "[8,5,5]",
    },
    Case {
        call: Call::Take,
        given: &[
            ("vec[vec[i64]]", "[[1],[],[2,3],[4]]"),
            ("vec[i64]", "[3,0,0]"),
        ],
        wanted: "[[4],[1],[1]]",
    },
    Case {
        call: Call::Take,
        given: &[
            ("vec[vec[i8]]", "[[97],[],[98,99],[100]]"),
            ("vec[i64]", "[3,0,0]"),
        ],
        wanted: "[\"d\",\"a\",\"a\"]",
    },
    Case {
        call: Call::Take,
        given: &[
            ("vec[{i64,bool}]", "[{1,false},{2,true},{3,true},{4,false}]"),
            ("vec[i64]", "[3,0,0]"),
        ],
        wanted: "[{4,false},{1,false},{1,false}]",
    },
    Case {
        call: Call::Take,
        given: &[
            (
                "vec[dict[i64,i64]]",
                "[dict{1:2},dict{},dict{3:4,5:6},dict{7:8}]",
            ),
            ("vec[i64]", "[3,0,0]"),
        ],
        wanted: "[dict{7:8},dict{1:2},dict{1:2}]",
    },
    Case {
        call: Call::Take,
        given: &[("vec[i64]", "[5,6]"), ("vec[i64]", "[0,2]")],
        wanted: "fault",
    },
    Case {
        call: Call::Take,
        given: &[("vec[i64]", "[5,6]"), ("vec[i64]", "[-1]")],
        wanted: "fault",
    },
    Case {
        call: Call::Take,
        given: &[("vec[vec[bool]]", "[]"), ("vec[i64]", "[0]")],
        wanted: "fault",
    },
    Case {
        call: Call::Filter,
        given: &[
            ("vec[bool]", "[true,false,true,true]"),
            ("vec[bool]", "[false,true,true,false]"),
        ],
        wanted: "[false,true]",
    },
    Case {
        call: Call::Filter,
        given: &[
            ("vec[i8]", "[97,98,99,100]"),
            ("vec[bool]", "[false,true,true,false]"),
        ],
        wanted: "\"bc\"",
    },
    Case {
        call: Call::Filter,
        given: &[
            ("vec[u8]", "[1,0,255,7]"),
            ("vec[bool]", "[false,true,true,false]"),
        ],
        wanted: "[0,255]",
    },
    Case {
        call: Call::Filter,
        given: &[
            ("vec[i32]", "[1,-2,3,-4]"),
            ("vec[bool]", "[false,true,true,false]"),
        ],
        wanted: "[-2,3]",
    },
    Case {
        call: Call::Filter,
        given: &[
            ("vec[i64]", "[5,-6,7,8]"),
            ("vec[bool]", "[false,true,true,false]"),
        ],
        wanted: "[-6,7]",
    },
    Case {
        call: Call::Filter,
        given: &[
            ("vec[vec[i64]]", "[[1],[],[2,3],[4]]"),
            ("vec[bool]", "[false,true,true,false]"),
        ],
        wanted: "[[],[2,3]]",
    },
    Case {
        call: Call::Filter,
        given: &[
            ("vec[vec[i8]]", "[[97],[],[98,99],[100]]"),
            ("vec[bool]", "[false,true,true,false]"),
        ],
        wanted: "[\"\",\"bc\"]",
    },
    Case {
        call: Call::Filter,
        given: &[
            ("vec[{i64,bool}]", "[{1,false},{2,true},{3,true},{4,false}]"),
            ("vec[bool]", "[false,true,true,false]"),
        ],
        wanted: "[{2,true},{3,true}]",
    },
    Case {
        call: Call::Filter,
        given: &[
            (
                "vec[dict[i64,i64]]",
                "[dict{1:2},dict{},dict{3:4,5:6},dict{7:8}]",
            ),
            ("vec[bool]", "[false,true,true,false]"),
        ],
        wanted: "[dict{},dict{3:4,5:6}]",
    },
    Case {
        call: Call::Filter,
        given: &[("vec[i64]", "[5,6]"), ("vec[bool]", "[true]")],
        wanted: "fault",
    },
    Case {
        call: Call::Filter,
        given: &[
            ("vec[vec[bool]]", "[[true]]"),
            ("vec[bool]", "[true,false]"),
        ],
        wanted: "fault",
    },
];
