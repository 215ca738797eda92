//! Calls that group by keys.

use super::Case;
use weld_calls::Call;

/// Sums and counts by keys.
pub(crate) static GROUP_SUM_COUNT: [Case; 20] = [
    Case {
        call: Call::GroupSum,
        given: &[
            ("vec[bool]", "[true,false,true]"),
            ("vec[i64]", "[9223372036854775807,4,2]"),
        ],
        wanted: "dict{false:4,true:-9223372036854775807}",
    },
    Case {
        call: Call::GroupSum,
        given: &[
            ("vec[i8]", "[5,-5,5]"),
            ("vec[i64]", "[9223372036854775807,4,2]"),
        ],
        wanted: "dict{-5:4,5:-9223372036854775807}",
    },
    Case {
        call: Call::GroupSum,
        given: &[
            ("vec[u8]", "[200,3,200]"),
            ("vec[i64]", "[9223372036854775807,4,2]"),
        ],
        wanted: "dict{3:4,200:-9223372036854775807}",
    },
    Case {
        call: Call::GroupSum,
        given: &[
            ("vec[i32]", "[7,-7,7]"),
            ("vec[i64]", "[9223372036854775807,4,2]"),
        ],
        wanted: "dict{-7:4,7:-9223372036854775807}",
    },
    Case {
        call: Call::GroupSum,
        given: &[
            ("vec[i64]", "[7,-7,7]"),
            ("vec[i64]", "[9223372036854775807,4,2]"),
        ],
        wanted: "dict{-7:4,7:-9223372036854775807}",
    },
    Case {
        call: Call::GroupSum,
        given: &[
            ("vec[vec[i64]]", "[[2],[1,5],[2]]"),
            ("vec[i64]", "[9223372036854775807,4,2]"),
        ],
        wanted: "dict{[1,5]:4,[2]:-9223372036854775807}",
    },
    Case {
        call: Call::GroupSum,
        given: &[
            ("vec[vec[i8]]", "[[98],[97],[98]]"),
            ("vec[i64]", "[9223372036854775807,4,2]"),
        ],
        wanted: "dict{\"a\":4,\"b\":-9223372036854775807}",
    },
    Case {
        call: Call::GroupSum,
        given: &[
            ("vec[{i64,vec[i8]}]", "[{2,[98]},{2,[97]},{2,[98]}]"),
            ("vec[i64]", "[9223372036854775807,4,2]"),
        ],
        wanted: "dict{{2,\"a\"}:4,{2,\"b\"}:-9223372036854775807}",
    },
    Case {
        call: Call::GroupSum,
        given: &[("vec[i64]", "[1,2,1]"), ("vec[i8]", "[100,4,50]")],
        wanted: "dict{1:-106,2:4}",
    },
    Case {
        call: Call::GroupSum,
        given: &[("vec[i64]", "[1,2,1]"), ("vec[u8]", "[200,4,100]")],
        wanted: "dict{1:44,2:4}",
    },
    Case {
        call: Call::GroupSum,
        given: &[("vec[i64]", "[1,2,1]"), ("vec[i32]", "[2147483647,4,2]")],
        wanted: "dict{1:-2147483647,2:4}",
    },
    Case {
        call: Call::GroupSum,
        given: &[("vec[i64]", "[1,2]"), ("vec[i64]", "[1]")],
        wanted: "fault",
    },
    Case {
        call: Call::GroupCount,
        given: &[("vec[bool]", "[true,false,true]")],
        wanted: "dict{false:1,true:2}",
    },
    Case {
        call: Call::GroupCount,
        given: &[("vec[i8]", "[5,-5,5]")],
        wanted: "dict{-5:1,5:2}",
    },
    Case {
        call: Call::GroupCount,
        given: &[("vec[u8]", "[200,3,200]")],
        wanted: "dict{3:1,200:2}",
    },
    Case {
        call: Call::GroupCount,
        given: &[("vec[i32]", "[7,-7,7]")],
        wanted: "dict{-7:1,7:2}",
    },
    Case {
        call: Call::GroupCount,
        given: &[("vec[i64]", "[7,-7,7]")],
        wanted: "dict{-7:1,7:2}",
    },
    Case {
        call: Call::GroupCount,
        given: &[("vec[vec[i64]]", "[[2],[1,5],[2]]")],
        wanted: "dict{[1,5]:1,[2]:2}",
    },
    Case {
        call: Call::GroupCount,
        given: &[("vec[vec[i8]]", "[[98],[97],[98]]")],
        wanted: "dict{\"a\":1,\"b\":2}",
    },
    Case {
        call: Call::GroupCount,
        given: &[("vec[{i64,vec[i8]}]", "[{2,[98]},{2,[97]},{2,[98]}]")],
        wanted: "dict{{2,\"a\"}:1,{2,\"b\"}:2}",
    },
];

/// Lists by keys.
pub(crate) static GROUP_LIST: [Case; 18] = [
    Case {
        call: Call::GroupList,
        given: &[("vec[bool]", "[true,false,true]"), ("vec[i64]", "[3,4,5]")],
        wanted: "dict{false:[4],true:[3,5]}",
    },
    Case {
        call: Call::GroupList,
        given: &[("vec[i8]", "[5,-5,5]"), ("vec[i64]", "[3,4,5]")],
        wanted: "dict{-5:[4],5:[3,5]}",
    },
    Case {
        call: Call::GroupList,
        given: &[("vec[u8]", "[200,3,200]"), ("vec[i64]", "[3,4,5]")],
        wanted: "dict{3:[4],200:[3,5]}",
    },
    Case {
        call: Call::GroupList,
        given: &[("vec[i32]", "[7,-7,7]"), ("vec[i64]", "[3,4,5]")],
        wanted: "dict{-7:[4],7:[3,5]}",
    },
    Case {
        call: Call::GroupList,
        given: &[("vec[i64]", "[7,-7,7]"), ("vec[i64]", "[3,4,5]")],
        wanted: "dict{-7:[4],7:[3,5]}",
    },
    Case {
        call: Call::GroupList,
        given: &[
            ("vec[vec[i64]]", "[[2],[1,5],[2]]"),
            ("vec[i64]", "[3,4,5]"),
        ],
        wanted: "dict{[1,5]:[4],[2]:[3,5]}",
    },
    Case {
        call: Call::GroupList,
        given: &[
            ("vec[vec[i8]]", "[[98],[97],[98]]"),
            ("vec[i64]", "[3,4,5]"),
        ],
        wanted: "dict{\"a\":[4],\"b\":[3,5]}",
    },
    Case {
        call: Call::GroupList,
        given: &[
            ("vec[{i64,vec[i8]}]", "[{2,[98]},{2,[97]},{2,[98]}]"),
            ("vec[i64]", "[3,4,5]"),
        ],
        wanted: "dict{{2,\"a\"}:[4],{2,\"b\"}:[3,5]}",
    },
    Case {
        call: Call::GroupList,
        given: &[("vec[u8]", "[2,1,2]"), ("vec[bool]", "[true,false,true]")],
        wanted: "dict{1:[false],2:[true,true]}",
    },
    Case {
        call: Call::GroupList,
        given: &[("vec[u8]", "[2,1,2]"), ("vec[i8]", "[97,98,99]")],
        wanted: "dict{1:\"b\",2:\"ac\"}",
    },
    Case {
        call: Call::GroupList,
        given: &[("vec[u8]", "[2,1,2]"), ("vec[u8]", "[1,0,255]")],
        wanted: "dict{1:[0],2:[1,255]}",
    },
    Case {
        call: Call::GroupList,
        given: &[("vec[u8]", "[2,1,2]"), ("vec[i32]", "[1,-2,3]")],
        wanted: "dict{1:[-2],2:[1,3]}",
    },
    Case {
        call: Call::GroupList,
        given: &[("vec[u8]", "[2,1,2]"), ("vec[i64]", "[5,-6,7]")],
        wanted: "dict{1:[-6],2:[5,7]}",
    },
    Case {
        call: Call::GroupList,
        given: &[("vec[u8]", "[2,1,2]"), ("vec[vec[i64]]", "[[1],[],[2,3]]")],
        wanted: "dict{1:[[]],2:[[1],[2,3]]}",
    },
    Case {
        call: Call::GroupList,
        given: &[
            ("vec[u8]", "[2,1,2]"),
            ("vec[vec[i8]]", "[[97],[],[98,99]]"),
        ],
        wanted: "dict{1:[\"\"],2:[\"a\",\"bc\"]}",
    },
    Case {
        call: Call::GroupList,
        given: &[
            ("vec[u8]", "[2,1,2]"),
            ("vec[{i64,bool}]", "[{1,false},{2,true},{3,true}]"),
        ],
        wanted: "dict{1:[{2,true}],2:[{1,false},{3,true}]}",
    },
    Case {
        call: Call::GroupList,
        given: &[
            ("vec[u8]", "[2,1,2]"),
            ("vec[dict[i64,i64]]", "[dict{1:2},dict{},dict{3:4,5:6}]"),
        ],
        wanted: "dict{1:[dict{}],2:[dict{1:2},dict{3:4,5:6}]}",
    },
    Case {
        call: Call::GroupList,
        given: &[("vec[i64]", "[1]"), ("vec[bool]", "[true,false]")],
        wanted: "fault",
    },
];
