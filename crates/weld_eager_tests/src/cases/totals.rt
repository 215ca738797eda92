//! Calls that make one number of a vector, and those that cut.

use super::Case;
use weld_calls::Call;

/// Sums, least and greatest elements, and counts.
pub(crate) static TOTALS: [Case; 20] = [
    Case {
        call: Call::Sum,
        given: &[("vec[i8]", "[100,-60,99]")],
        wanted: "-117",
    },
    Case {
        call: Call::Sum,
        given: &[("vec[u8]", "[200,3,0]")],
        wanted: "203",
    },
    Case {
        call: Call::Sum,
        given: &[("vec[i32]", "[2147483647,-5,7]")],
        wanted: "-2147483647",
    },
    Case {
        call: Call::Sum,
        given: &[("vec[i64]", "[9223372036854775807,-7,12]")],
        wanted: "-9223372036854775804",
    },
    Case {
        call: Call::Sum,
        given: &[("vec[i8]", "[]")],
        wanted: "0",
    },
    Case {
        call: Call::Sum,
        given: &[("vec[i64]", "[]")],
        wanted: "0",
    },
    Case {
        call: Call::Min,
        given: &[("vec[i8]", "[100,-60,99]")],
        wanted: "-60",
    },
    Case {
        call: Call::Min,
        given: &[("vec[u8]", "[200,3,0]")],
        wanted: "0",
    },
    Case {
        call: Call::Min,
        given: &[("vec[i32]", "[2147483647,-5,7]")],
        wanted: "-5",
    },
    Case {
        call: Call::Min,
        given: &[("vec[i64]", "[9223372036854775807,-7,12]")],
        wanted: "-7",
    },
    Case {
        call: Call::Min,
        given: &[("vec[i8]", "[]")],
        wanted: "127",
    },
    Case {
        call: Call::Min,
        given: &[("vec[i64]", "[]")],
        wanted: "9223372036854775807",
    },
    Case {
        call: Call::Max,
        given: &[("vec[i8]", "[100,-60,99]")],
        wanted: "100",
    },
    Case {
        call: Call::Max,
        given: &[("vec[u8]", "[200,3,0]")],
        wanted: "200",
    },
    Case {
        call: Call::Max,
        given: &[("vec[i32]", "[2147483647,-5,7]")],
        wanted: "2147483647",
    },
    Case {
        call: Call::Max,
        given: &[("vec[i64]", "[9223372036854775807,-7,12]")],
        wanted: "9223372036854775807",
    },
    Case {
        call: Call::Max,
        given: &[("vec[i8]", "[]")],
        wanted: "-128",
    },
    Case {
        call: Call::Max,
        given: &[("vec[i64]", "[]")],
        wanted: "-9223372036854775808",
    },
    Case {
        call: Call::Count,
        given: &[("vec[bool]", "[true,false,true,true]")],
        wanted: "3",
    },
    Case {
        call: Call::Count,
        given: &[("vec[bool]", "[]")],
        wanted: "0",
    },
];

/// Slices and columns.
pub(crate) static SLICE_COLUMN: [Case; 18] = [
    Case {
        call: Call::Slice,
        given: &[
            ("vec[bool]", "[true,false,true,true]"),
            ("i64", "1"),
            ("i64", "2"),
        ],
        wanted: "[false,true]",
    },
    Case {
        call: Call::Slice,
        given: &[("vec[i8]", "[97,98,99,100]"), ("i64", "1"), ("i64", "2")],
        wanted: "\"bc\"",
    },
    Case {
        call: Call::Slice,
        given: &[("vec[u8]", "[1,0,255,7]"), ("i64", "1"), ("i64", "2")],
        wanted: "[0,255]",
    },
    Case {
        call: Call::Slice,
        given: &[("vec[i32]", "[1,-2,3,-4]"), ("i64", "1"), ("i64", "2")],
        wanted: "[-2,3]",
    },
    Case {
        call: Call::Slice,
        given: &[("vec[i64]", "[5,-6,7,8]"), ("i64", "1"), ("i64", "2")],
        wanted: "[-6,7]",
    },
    Case {
        call: Call::Slice,
        given: &[
            ("vec[vec[i64]]", "[[1],[],[2,3],[4]]"),
            ("i64", "1"),
            ("i64", "2"),
        ],
        wanted: "[[],[2,3]]",
    },
    Case {
        call: Call::Slice,
        given: &[
            ("vec[vec[i8]]", "[[97],[],[98,99],[100]]"),
            ("i64", "1"),
            ("i64", "2"),
        ],
        wanted: "[\"\",\"bc\"]",
    },
    Case {
        call: Call::Slice,
        given: &[
            ("vec[{i64,bool}]", "[{1,false},{2,true},{3,true},{4,false}]"),
            ("i64", "1"),
            ("i64", "2"),
        ],
        wanted: "[{2,true},{3,true}]",
    },
    Case {
        call: Call::Slice,
        given: &[
            (
                "vec[dict[i64,i64]]",
                "[dict{1:2},dict{},dict{3:4,5:6},dict{7:8}]",
            ),
            ("i64", "1"),
            ("i64", "2"),
        ],
        wanted: "[dict{},dict{3:4,5:6}]",
    },
    Case {
        call: Call::Slice,
        given: &[("vec[i64]", "[5,6,7,8]"), ("i64", "3"), ("i64", "2")],
        wanted: "fault",
    },
    Case {
        call: Call::Slice,
        given: &[("vec[i64]", "[5,6,7,8]"), ("i64", "-1"), ("i64", "1")],
        wanted: "fault",
    },
    Case {
        call: Call::Slice,
        given: &[("vec[i64]", "[5,6,7,8]"), ("i64", "0"), ("i64", "-1")],
        wanted: "fault",
    },
    Case {
        call: Call::Slice,
        given: &[("vec[i64]", "[5,6,7,8]"), ("i64", "5"), ("i64", "0")],
        wanted: "fault",
    },
    Case {
        call: Call::Slice,
        given: &[
            ("vec[i64]", "[5,6,7,8]"),
            ("i64", "9223372036854775807"),
            ("i64", "1"),
        ],
        wanted: "fault",
    },
    Case {
        call: Call::Slice,
        given: &[("vec[i64]", "[5,6,7,8]"), ("i64", "4"), ("i64", "0")],
        wanted: "[]",
    },
    Case {
        call: Call::Column(0),
        given: &[(
            "{vec[i64],vec[bool],vec[vec[i8]]}",
            "{[1,2],[true,false,true],[[97,98],[]]}",
        )],
        wanted: "[1,2]",
    },
    Case {
        call: Call::Column(1),
        given: &[(
            "{vec[i64],vec[bool],vec[vec[i8]]}",
            "{[1,2],[true,false,true],[[97,98],[]]}",
        )],
        wanted: "[true,false,true]",
    },
    Case {
        call: Call::Column(2),
        given: &[(
            "{vec[i64],vec[bool],vec[vec[i8]]}",
            "{[1,2],[true,false,true],[[97,98],[]]}",
        )],
        wanted: "[\"ab\",\"\"]",
    },
];
