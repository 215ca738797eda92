//! Programs with data, and the text that each must come to.

/// Loops into totals and lists.
pub static TOTALS_AND_LISTS: [(&str, &str); 19] = [
    (
        "|v: vec[i64]| result(for(v, merger[i64,+], |b,i,x| merge(b, x * x)))\n%%\n%value\n[5,3,8,1,9,2,7,4,6,0,12,11,10]",
        "650",
    ),
    (
        "|v: vec[i64]| result(for(v, merger[i8,*], |b,i,x| merge(b, i8(x + 1L))))\n%%\n%value\n[5,3,8,1,9,2,7,4,6,0,12,11,10]",
        "0",
    ),
    (
        "|v: vec[i64]| result(for(v, merger[i32,min], |b,i,x| merge(b, i32(x - 4L))))\n%%\n%value\n[5,3,8,1,9,2,7,4,6,0,12,11,10]",
        "-4",
    ),
    (
        "|v: vec[i64]| result(for(v, merger[u8,max], |b,i,x| merge(b, u8(x * 20L))))\n%%\n%value\n[5,3,8,1,9,2,7,4,6,0,12,11,10]",
        "240",
    ),
    (
        "|v: vec[i64]| result(for(v, merger[i64,+](5L), |b,i,x| merge(b, x)))\n%%\n%value\n[5,3,8,1,9,2,7,4,6,0,12,11,10]",
        "83",
    ),
    (
        "|v: vec[i64]| result(for(v, vecbuilder[i64], |b,i,x| if(x % 2L == 0L, merge(b, x), b)))\n%%\n%value\n[5,3,8,1,9,2,7,4,6,0,12,11,10]",
        "[8,2,4,6,0,12,10]",
    ),
    (
        "|v: vec[i64]| result(for(v, vecbuilder[i64], |b,i,x| merge(merge(b, x), i)))\n%%\n%value\n[5,3,8,1,9,2,7,4,6,0,12,11,10]",
        "[5,0,3,1,8,2,1,3,9,4,2,5,7,6,4,7,6,8,0,9,12,10,11,11,10,12]",
    ),
    (
        "|k: vec[i64]| result(for(k, vecbuilder[vec[i64]], |b,i,x| merge(b, [x, i])))\n%%\n%value\n[2,1,2,3,1,2,3,3,1,2,2,1,3]",
        "[[2,0],[1,1],[2,2],[3,3],[1,4],[2,5],[3,6],[3,7],[1,8],[2,9],[2,10],[1,11],[3,12]]",
    ),
    (
        "|k: vec[i64], v: vec[i64]| result(for(zip(k, v), vecbuilder[{i64,bool}], |b,i,x| merge(b, {x.$0 + x.$1, x.$0 < x.$1})))\n%%\n%value\n[2,1,2,3,1,2,3,3,1,2,2,1,3]\n%value\n[5,3,8,1,9,2,7,4,6,0,12,11,10]",
        "[{7,true},{4,true},{10,true},{4,false},{10,true},{4,false},{10,true},{7,true},{7,true},{2,false},{14,true},{12,true},{13,true}]",
    ),
    (
        "|v: vec[i64]| result(for(v, vecbuilder[i64], |b,i,x| merge(b, i * 100L + x)))\n%%\n%value\n[5,3,8,1,9,2,7,4,6,0,12,11,10]",
        "[5,103,208,301,409,502,607,704,806,900,1012,1111,1210]",
    ),
    (
        "|v: vec[i64]| {result(for(v, merger[i64,min], |b,i,x| merge(b, x))), result(for(v, vecbuilder[i64], |b,i,x| merge(b, x)))}\n%%\n%value\n[]",
        "{9223372036854775807,[]}",
    ),
    (
        "|v: vec[i64]| {result(for(v, merger[i64,min], |b,i,x| merge(b, x))), result(for(v, vecbuilder[i64], |b,i,x| merge(b, x)))}\n%%\n%value\n[7]",
        "{7,[7]}",
    ),
    (
        "|v: vec[i64], w: vec[i64]| result(for(zip(iter(v, 1L, 13L, 2L), iter(w, 0L, 12L, 2L)), vecbuilder[i64], |b,i,x| merge(b, x.$0 * 100L + x.$1)))\n%%\n%value\n[5,3,8,1,9,2,7,4,6,0,12,11,10]\n%value\n[2,1,2,3,1,2,3,3,1,2,2,1,3]",
        "[302,102,201,403,1,1102]",
    ),
    (
        "|v: vec[i64], w: vec[i64]| let r = for(v, vecbuilder[i64], |b,i,x| merge(b, x)); result(for(w, r, |b,i,x| merge(b, x + 100L)))\n%%\n%value\n[5,3,8,1,9,2,7,4,6,0,12,11,10]\n%value\n[1,4,7]",
        "[5,3,8,1,9,2,7,4,6,0,12,11,10,101,104,107]",
    ),
    (
        "|v: vec[i64]| let b = merge(vecbuilder[i64], 7L); result(for(v, b, |c,i,x| merge(c, x)))\n%%\n%value\n[1,2]",
        "[7,1,2]",
    ),
    (
        "|v: vec[u8]| {result(for(v, merger[u8,min], |b,i,x| merge(b, x))), result(for(v, merger[u8,max], |b,i,x| merge(b, x)))}\n%%\n%value\n[]",
        "{255,0}",
    ),
    (
        "|v: vec[bool], w: vec[i64], u: vec[i64]| result(for(zip(v, w, u), vecbuilder[i64], |b,i,x| merge(b, select(x.$0, x.$1, x.$2))))\n%%\n%value\n[true,false]\n%value\n[1,2]\n%value\n[3,4]",
        "[1,4]",
    ),
    (
        "|v: vec[i64]| result(for(iter(v, 2L, 2L, 1L), vecbuilder[i64], |b,i,x| merge(b, x)))\n%%\n%value\n[1,2]",
        "[]",
    ),
    (
        "|v: vec[i64]| result(for(v, merger[i64,+], |b,i,x| merge(b, x)))\n%%\n%value\n[9223372036854775807,1]",
        "-9223372036854775808",
    ),
];

/// Loops into dictionaries, groups and cells.
pub static KEYS_AND_CELLS: [(&str, &str); 12] = [
    (
        "|k: vec[i64], v: vec[i64]| result(for(zip(k, v), dictmerger[i64,i64,+], |b,i,x| merge(b, x)))\n%%\n%value\n[2,1,2,3,1,2,3,3,1,2,2,1,3]\n%value\n[5,3,8,1,9,2,7,4,6,0,12,11,10]",
        "dict{1:29,2:27,3:22}",
    ),
    (
        "|s: vec[vec[i8]]| result(for(s, dictmerger[vec[i8],i64,+], |b,i,x| merge(b, {x, i})))\n%%\n%value\n[\"b\",\"a\",\"\",\"b\",\"ab\",\"a\",\"b\",\"\",\"c\",\"a\",\"b\",\"ab\",\"b\"]",
        "dict{\"\":9,\"a\":15,\"ab\":15,\"b\":31,\"c\":8}",
    ),
    (
        "|k: vec[i64], v: vec[i64]| result(for(zip(k, v), dictmerger[{i64,bool},i64,max], |b,i,x| merge(b, {{x.$0, x.$1 > 5L}, i})))\n%%\n%value\n[2,1,2,3,1,2,3,3,1,2,2,1,3]\n%value\n[5,3,8,1,9,2,7,4,6,0,12,11,10]",
        "dict{{1,false}:1,{1,true}:11,{2,false}:9,{2,true}:10,{3,false}:7,{3,true}:12}",
    ),
    (
        "|k: vec[i64], v: vec[i64]| result(for(zip(k, v), groupbuilder[i64,i64], |b,i,x| merge(b, x)))\n%%\n%value\n[2,1,2,3,1,2,3,3,1,2,2,1,3]\n%value\n[5,3,8,1,9,2,7,4,6,0,12,11,10]",
        "dict{1:[3,9,6,11],2:[5,8,2,0,12],3:[1,7,4,10]}",
    ),
    (
        "|k: vec[bool], s: vec[vec[i8]]| result(for(zip(k, s), groupbuilder[bool,vec[i8]], |b,i,x| merge(b, x)))\n%%\n%value\n[true,false,true,true,false,false,true,false,true,true,false,true,false]\n%value\n[\"b\",\"a\",\"\",\"b\",\"ab\",\"a\",\"b\",\"\",\"c\",\"a\",\"b\",\"ab\",\"b\"]",
        "dict{false:[\"a\",\"ab\",\"a\",\"\",\"b\",\"b\"],true:[\"b\",\"\",\"b\",\"b\",\"c\",\"a\",\"ab\"]}",
    ),
    (
        "|k: vec[i64]| result(for(k, vecmerger[i64,+]([10L,20L,30L,40L]), |b,i,x| merge(b, {x, i})))\n%%\n%value\n[2,1,2,3,1,2,3,3,1,2,2,1,3]",
        "[10,44,56,68]",
    ),
    (
        "|k: vec[i64], v: vec[i64]| let d = result(for(zip(k, v), dictmerger[i64,i64,+], |b,i,x| merge(b, x))); result(for(k, vecbuilder[i64], |b,i,x| merge(b, lookup(d, x))))\n%%\n%value\n[2,1,2,3,1,2,3,3,1,2,2,1,3]\n%value\n[5,3,8,1,9,2,7,4,6,0,12,11,10]",
        "[27,29,27,22,29,27,22,22,29,27,27,29,22]",
    ),
    (
        "|k: vec[i64], v: vec[i64]| result(for(k, vecbuilder[i64], |b,i,x| merge(b, lookup(v, x))))\n%%\n%value\n[2,1,2,3,1,2,3,3,1,2,2,1,3]\n%value\n[5,3,8,1,9,2,7,4,6,0,12,11,10]",
        "[8,3,8,1,3,8,1,1,3,8,8,3,1]",
    ),
    (
        "|v: vec[{i64,i64}]| result(for(v, dictmerger[i64,i64,min], |b,i,x| merge(b, x)))\n%%\n%value\n[{1,5},{1,2},{1,9}]",
        "dict{1:2}",
    ),
    (
        "|v: vec[{i64,i64}]| result(for(v, dictmerger[i64,i64,+], |b,i,x| merge(b, x)))\n%%\n%value\n[]",
        "dict{}",
    ),
    (
        "|v: vec[i64]| result(for(v, vecmerger[i64,max]([5L,6L]), |b,i,x| merge(b, {x, i})))\n%%\n%value\n[0,1,0]",
        "[5,6]",
    ),
    (
        "|v: vec[i64]| result(for(v, vecmerger[u8,+]([u8(250)]), |b,i,x| merge(b, {x, u8(10)})))\n%%\n%value\n[0]",
        "[4]",
    ),
];

/// Numbers of the kinds without a sign and of 16 bits.
pub static KINDS: [(&str, &str); 14] = [
    (
        "|v: vec[u64]| result(for(v, merger[u64,+], |b,i,x| merge(b, x * x)))\n%%\n%value\n[18446744073709551615,1,9223372036854775808,3,0,18446744073709551614,7]",
        "64",
    ),
    (
        "|v: vec[u64]| result(for(v, vecbuilder[u64], |b,i,x| if(x > u64(9223372036854775807L), merge(b, x / u64(3L)), b)))\n%%\n%value\n[18446744073709551615,1,9223372036854775808,3,0,18446744073709551614,7]",
        "[6148914691236517205,3074457345618258602,6148914691236517204]",
    ),
    (
        "|v: vec[u64]| let r = for(v, {merger[u64,min], merger[u64,max]}, |b,i,x| {merge(b.$0, x), merge(b.$1, x)}); {result(r.$0), result(r.$1)}\n%%\n%value\n[18446744073709551615,1,9223372036854775808,3,0,18446744073709551614,7]",
        "{0,18446744073709551615}",
    ),
    (
        "|v: vec[u64]| result(for(v, dictmerger[u64,u64,+], |b,i,x| merge(b, {x % u64(3L), x})))\n%%\n%value\n[18446744073709551615,1,9223372036854775808,3,0,18446744073709551614,7]",
        "dict{0:2,1:8,2:9223372036854775806}",
    ),
    (
        "|v: vec[u64]| result(for(v, dictmerger[u64,i64,+], |b,i,x| merge(b, {x, i})))\n%%\n%value\n[18446744073709551615,1,9223372036854775808,3,0,18446744073709551614,7]",
        "dict{0:4,1:1,3:3,7:6,9223372036854775808:2,18446744073709551614:5,18446744073709551615:0}",
    ),
    (
        "|v: vec[u64]| result(for(v, vecmerger[u64,*]([u64(1L),u64(2L)]), |b,i,x| if(x != u64(0L), merge(b, {i % 2L, x}), b)))\n%%\n%value\n[18446744073709551615,1,9223372036854775808,3,0,18446744073709551614,7]",
        "[9223372036854775808,18446744073709551604]",
    ),
    (
        "|v: vec[u64]| result(for(v, vecbuilder[u64], |b,i,x| let y = x - u64(1L); if(y > x, merge(b, -y), merge(b, y + u64(i)))))\n%%\n%value\n[18446744073709551615,1,9223372036854775808,3,0,18446744073709551614,7]",
        "[18446744073709551614,1,9223372036854775809,5,1,2,12]",
    ),
    (
        "|v: vec[u64]| result(for(v, vecbuilder[{i64,i32,i16,u8}], |b,i,x| merge(b, {i64(x), i32(x), i16(x), u8(x)})))\n%%\n%value\n[18446744073709551615,1,9223372036854775808,3,0,18446744073709551614,7]",
        "[{-1,-1,-1,255},{1,1,1,1},{-9223372036854775808,0,0,0},{3,3,3,3},{0,0,0,0},{-2,-2,-2,254},{7,7,7,7}]",
    ),
    (
        "|v: vec[u64]| result(for(v, merger[u64,+], |b,i,x| merge(b, u64(100L) / x)))\n%%\n%value\n[18446744073709551615,1,9223372036854775808,3,0,18446744073709551614,7]",
        "fault",
    ),
    (
        "|v: vec[u64]| result(for(v, groupbuilder[u64,u32], |b,i,x| merge(b, {x, u32(i * 1500000000L)})))\n%%\n%value\n[18446744073709551615,1,9223372036854775808,3,0,18446744073709551614,7]",
        "dict{0:[1705032704],1:[1500000000],3:[205032704],7:[410065408],9223372036854775808:[3000000000],18446744073709551614:[3205032704],18446744073709551615:[0]}",
    ),
    (
        "|k: vec[u64], v: vec[u64]| result(for(zip(k, v), dictmerger[u64,u64,max], |b,i,x| merge(b, x)))\n%%\n%value\n[3,3,2,18446744073709551615,2,3,18446744073709551615]\n%value\n[18446744073709551615,1,9223372036854775808,3,0,18446744073709551614,7]",
        "dict{2:9223372036854775808,3:18446744073709551615,18446744073709551615:7}",
    ),
    (
        "|v: vec[u32]| let r = for(v, {merger[u32,+], merger[u32,max], vecbuilder[u32]}, |b,i,x| {merge(b.$0, x * x), merge(b.$1, x - u32(1L)), merge(b.$2, x / u32(7L))}); {result(r.$0), result(r.$1), result(r.$2)}\n%%\n%value\n[4294967295,2,4294967294,70000,0,1,65536]",
        "{605032714,4294967295,[613566756,0,613566756,10000,0,0,9362]}",
    ),
    (
        "|v: vec[i64]| result(for(v, vecbuilder[{i16,u16}], |b,i,x| merge(b, {i16(x * 30000L), u16(x * 30000L)})))\n%%\n%value\n[5,-3,8,1,-9,2,7]",
        "[{18928,18928},{-24464,41072},{-22144,43392},{30000,30000},{-7856,57680},{-5536,60000},{13392,13392}]",
    ),
    (
        "|v: vec[i16]| {result(for(v, merger[i16,+], |b,i,x| merge(b, x * i16(3)))), result(for(v, merger[i16,min], |b,i,x| merge(b, -x))), result(for(v, vecbuilder[bool], |b,i,x| merge(b, u16(x) > u16(32767))))}\n%%\n%value\n[30000,-30000,32767,-32768,5,-7,0]",
        "{-9,-32768,[false,true,false,true,false,true,false]}",
    ),
];

/// Bodies with loops, names, guards and structs of builders.
pub static BODIES: [(&str, &str); 13] = [
    (
        "|v: vec[i64]| let r = for(v, {merger[i64,+], merger[i64,+]}, |b,i,x| let c = b.$0; let d = merge(b.$1, i); {merge(c, x), d}); {result(r.$0), result(r.$1)}\n%%\n%value\n[5,3,8,1,9,2,7,4,6,0,12,11,10]",
        "{78,78}",
    ),
    (
        "|v: vec[i64]| let a = result(for(v, vecbuilder[i64], |b,i,x| merge(b, x * 2L))); let c = result(for(a, vecbuilder[i64], |b,i,x| if(x > 4L, merge(b, x), b))); result(for(c, merger[i64,+], |b,i,x| merge(b, x)))\n%%\n%value\n[5,3,8,1,9,2,7,4,6,0,12,11,10]",
        "150",
    ),
    (
        "|v: vec[i64]| result(for(v, merger[i64,+], |b,i,x| if(x != 0L, merge(b, 100L / x), b)))\n%%\n%value\n[5,3,8,1,9,2,7,4,6,0,12,11,10]",
        "308",
    ),
    (
        "|v: vec[i64]| result(for(v, merger[i64,+], |b,i,x| let c = merge(b, x); let y = x * 2L; merge(c, y)))\n%%\n%value\n[5,3,8,1,9,2,7,4,6,0,12,11,10]",
        "234",
    ),
    (
        "|v: vec[i64], w: vec[i64]| result(for(v, vecbuilder[i64], |b,i,x| for(w, b, |c,j,y| if(y < x, merge(c, x * 10L + y), c))))\n%%\n%value\n[5,3,8,1,9,2,7,4,6,0,12,11,10]\n%value\n[1,4,7]",
        "[51,54,31,81,84,87,91,94,97,21,71,74,41,61,64,121,124,127,111,114,117,101,104,107]",
    ),
    (
        "|v: vec[vec[i64]]| result(for(v, vecbuilder[i64], |b,i,x| merge(b, result(for(x, merger[i64,+](i), |c,j,y| merge(c, y * j))))))\n%%\n%value\n[[1,2],[],[3],[4,5,6],[7],[],[8,9],[1],[2,2],[3,3,3],[],[5],[6,7]]",
        "[2,1,2,20,4,5,15,7,10,18,10,11,19]",
    ),
    (
        "|v: vec[i64]| let r = for(v, {merger[i64,+], vecbuilder[i64]}, |b,i,x| if(x > 6L, {merge(b.$0, x), b.$1}, b)); {result(r.$0), result(r.$1)}\n%%\n%value\n[5,3,8,1,9,2,7,4,6,0,12,11,10]",
        "{57,[]}",
    ),
    (
        "|v: vec[i64]| let r = for(v, {{merger[i64,+], vecbuilder[i64]}, merger[i64,min]}, |b,i,x| {{merge(b.$0.$0, x), merge(b.$0.$1, i)}, merge(b.$1, x)}); {result(r.$0.$0), result(r.$0.$1), result(r.$1)}\n%%\n%value\n[5,3,8,1,9,2,7,4,6,0,12,11,10]",
        "{78,[0,1,2,3,4,5,6,7,8,9,10,11,12],0}",
    ),
    (
        "|v: vec[i64]| let r = for(v, {merger[i64,+], merger[i64,max], vecbuilder[i64]}, |b,i,x| {merge(b.$0, x), merge(b.$1, x), if(x > 5L, merge(b.$2, i), b.$2)}); {result(r.$0), result(r.$1), result(r.$2)}\n%%\n%value\n[5,3,8,1,9,2,7,4,6,0,12,11,10]",
        "{78,12,[2,4,6,8,10,11,12]}",
    ),
    (
        "|m: vec[vec[i64]], w: vec[i64]| result(for(m, vecbuilder[i64], |b,i,r| merge(b, result(for(zip(r, w), merger[i64,+], |c,j,y| merge(c, y.$0 * y.$1))))))\n%%\n%value\n[[1,2],[3,4]]\n%value\n[5,6]",
        "[17,39]",
    ),
    (
        "|k: i64, v: vec[i64]| result(for(v, vecbuilder[i64], |b,i,x| merge(b, x + k)))\n%%\n%value\n10\n%value\n[1,2]",
        "[11,12]",
    ),
    (
        "|m: vec[vec[i64]]| result(for(m, merger[i64,+], |b,i,r| merge(b, result(for(r, merger[i64,+], |c,j,y| merge(c, y))))))\n%%\n%value\n[[1,2],[],[3]]",
        "6",
    ),
    (
        "|x: i64| result(for([1L,2L], merger[i64,+], |b,i,x| merge(b, x)))\n%%\n%value\n100",
        "3",
    ),
];

/// Each form that may stand above a shared loop.
pub static STEPS: [(&str, &str); 25] = [
    (
        "|v: vec[i64]| {-result(for(v, merger[i64,+], |b,i,x| merge(b, x))), i8(result(for(v, merger[i64,+], |b,i,x| merge(b, x))) * 10L), !(result(for(v, merger[i64,+], |b,i,x| merge(b, x))) == 35L)}\n%%\n%value\n[5,3,8,1,9,2,7]",
        "{-35,94,false}",
    ),
    (
        "|v: vec[i64]| result(for(v, merger[i64,+], |b,i,x| merge(b, x))) - result(for(v, merger[i64,+], |b,i,x| merge(b, x))) / len(result(for(v, vecbuilder[i64], |b,i,x| if(x > 4L, merge(b, x), b))))\n%%\n%value\n[5,3,8,1,9,2,7]",
        "27",
    ),
    (
        "|v: vec[i64]| [result(for(v, merger[i64,+], |b,i,x| merge(b, x))), result(for(v, merger[i64,+], |b,i,x| merge(b, x))) % 4L, 7L]\n%%\n%value\n[5,3,8,1,9,2,7]",
        "[35,3,7]",
    ),
    (
        "|v: vec[i64]| {result(for(v, vecbuilder[i64], |b,i,x| if(x > 4L, merge(b, x), b))), result(for(v, merger[i64,+], |b,i,x| merge(b, x)))}.$0\n%%\n%value\n[5,3,8,1,9,2,7]",
        "[5,8,9,7]",
    ),
    (
        "|v: vec[i64]| lookup(result(for(v, vecbuilder[i64], |b,i,x| if(x > 4L, merge(b, x), b))), result(for(v, merger[i64,+], |b,i,x| merge(b, x))) - 33L)\n%%\n%value\n[5,3,8,1,9,2,7]",
        "9",
    ),
    (
        "|v: vec[i64]| lookup(result(for(v, vecbuilder[i64], |b,i,x| if(x > 4L, merge(b, x), b))), result(for(v, merger[i64,+], |b,i,x| merge(b, x))))\n%%\n%value\n[5,3,8,1,9,2,7]",
        "fault",
    ),
    (
        "|v: vec[i64]| lookup(result(for(v, dictmerger[i64,i64,+], |b,i,x| merge(b, {x % 3L, x}))), result(for(v, merger[i64,+], |b,i,x| merge(b, x))) - 33L)\n%%\n%value\n[5,3,8,1,9,2,7]",
        "15",
    ),
    (
        "|v: vec[i64]| lookup(result(for(v, dictmerger[i64,i64,+], |b,i,x| merge(b, {x % 3L, x}))), result(for(v, merger[i64,+], |b,i,x| merge(b, x))))\n%%\n%value\n[5,3,8,1,9,2,7]",
        "fault",
    ),
    (
        "|v: vec[i64]| {keyexists(result(for(v, dictmerger[i64,i64,+], |b,i,x| merge(b, {x % 3L, x}))), result(for(v, merger[i64,+], |b,i,x| merge(b, x)))), keyexists(result(for(v, dictmerger[i64,i64,+], |b,i,x| merge(b, {x % 3L, x}))), result(for(v, merger[i64,+], |b,i,x| merge(b, x))) - 35L)}\n%%\n%value\n[5,3,8,1,9,2,7]",
        "{false,true}",
    ),
    (
        "|v: vec[i64]| slice(result(for(v, vecbuilder[i64], |b,i,x| if(x > 4L, merge(b, x), b))), result(for(v, merger[i64,+], |b,i,x| merge(b, x))) - 34L, len(result(for(v, vecbuilder[i64], |b,i,x| if(x > 4L, merge(b, x), b)))) - 2L)\n%%\n%value\n[5,3,8,1,9,2,7]",
        "[8,9]",
    ),
    (
        "|v: vec[i64]| slice(result(for(v, vecbuilder[i64], |b,i,x| if(x > 4L, merge(b, x), b))), result(for(v, merger[i64,+], |b,i,x| merge(b, x))) - 34L, len(result(for(v, vecbuilder[i64], |b,i,x| if(x > 4L, merge(b, x), b)))))\n%%\n%value\n[5,3,8,1,9,2,7]",
        "fault",
    ),
    (
        "|v: vec[i64]| select(result(for(v, merger[i64,+], |b,i,x| merge(b, x))) > 30L, result(for(v, vecbuilder[i64], |b,i,x| if(x > 4L, merge(b, x), b))), [1L])\n%%\n%value\n[5,3,8,1,9,2,7]",
        "[5,8,9,7]",
    ),
    (
        "|v: vec[i64]| if(result(for(v, merger[i64,+], |b,i,x| merge(b, x))) > 40L, result(for(v, vecbuilder[i64], |b,i,x| if(x > 4L, merge(b, x), b))), [1L / (result(for(v, merger[i64,+], |b,i,x| merge(b, x))) - 35L)])\n%%\n%value\n[5,3,8,1,9,2,7]",
        "fault",
    ),
    (
        "|v: vec[i64]| if(result(for(v, merger[i64,+], |b,i,x| merge(b, x))) < 40L, if(result(for(v, merger[i64,+], |b,i,x| merge(b, x))) > 36L, [0L], result(for(v, vecbuilder[i64], |b,i,x| if(x > 4L, merge(b, x), b)))), [1L])\n%%\n%value\n[5,3,8,1,9,2,7]",
        "[5,8,9,7]",
    ),
    (
        "|v: vec[i64]| let s = result(for(v, merger[i64,+], |b,i,x| merge(b, x))); let t = result(for(v, vecbuilder[i64], |b,i,x| if(x > 4L, merge(b, x), b))); let u = result(for(t, merger[i64,+], |b,i,x| merge(b, x * s))); {s, u, len(t)}\n%%\n%value\n[5,3,8,1,9,2,7]",
        "{35,1015,4}",
    ),
    (
        "|v: vec[i64]| result(merge(for(v, vecbuilder[i64], |b,i,x| merge(b, x + i)), result(for(v, merger[i64,+], |b,i,x| merge(b, x)))))\n%%\n%value\n[5,3,8,1,9,2,7]",
        "[5,4,10,4,13,7,13,35]",
    ),
    (
        "|v: vec[i64]| result(for(iter(result(for(v, vecbuilder[i64], |b,i,x| if(x > 4L, merge(b, x), b))), result(for(v, merger[i64,+], |b,i,x| merge(b, x))) - 35L, result(for(v, merger[i64,+], |b,i,x| merge(b, x))) - 31L, result(for(v, merger[i64,+], |b,i,x| merge(b, x))) - 33L), vecbuilder[i64], |b,i,x| merge(b, x)))\n%%\n%value\n[5,3,8,1,9,2,7]",
        "[5,9]",
    ),
    (
        "|v: vec[i64]| result(for(zip(v, iter(v, 0L, 7L, 1L)), merger[i64,+](result(for(v, merger[i64,+], |b,i,x| merge(b, x)))), |b,i,x| merge(b, x.$0 * x.$1)))\n%%\n%value\n[5,3,8,1,9,2,7]",
        "268",
    ),
    (
        "|v: vec[i64]| result(for(v, vecmerger[i64,+](result(for(v, vecbuilder[i64], |b,i,x| if(x > 4L, merge(b, x), b)))), |b,i,x| merge(b, {x % 4L, 1L})))\n%%\n%value\n[5,3,8,1,9,2,7]",
        "[6,11,10,9]",
    ),
    (
        "|v: vec[i64]| iterate(result(for(v, merger[i64,+], |b,i,x| merge(b, x))), |s| {s - 10L, s > 20L}) + result(for(v, merger[i64,+], |b,i,x| merge(b, x)))\n%%\n%value\n[5,3,8,1,9,2,7]",
        "40",
    ),
    (
        "|v: vec[i64]| iterate(result(for(v, merger[i64,+], |b,i,x| merge(b, x))), |s| {10L / (s - 35L), true})\n%%\n%value\n[5,3,8,1,9,2,7]",
        "fault",
    ),
    (
        "|v: vec[i64]| result(for(v, merger[i64,+], |b,i,x| merge(b, x))) > 0L && 1L / (result(for(v, merger[i64,+], |b,i,x| merge(b, x))) - 35L) == 0L\n%%\n%value\n[5,3,8,1,9,2,7]",
        "fault",
    ),
    (
        "|v: vec[i64]| result(for(v, merger[i64,+], |b,i,x| merge(b, x))) < 0L && 1L / (result(for(v, merger[i64,+], |b,i,x| merge(b, x))) - 35L) == 0L\n%%\n%value\n[5,3,8,1,9,2,7]",
        "false",
    ),
    (
        "|v: vec[i64]| result(for(v, merger[i64,+], |b,i,x| merge(b, x))) > 0L || 1L / (result(for(v, merger[i64,+], |b,i,x| merge(b, x))) - 35L) == 0L\n%%\n%value\n[5,3,8,1,9,2,7]",
        "true",
    ),
    (
        "|v: vec[i64]| let a = for(v, {merger[i64,+], vecbuilder[i64]}, |b,i,x| {merge(b.$0, x), merge(b.$1, i)}); let c = for(v, a.$0, |b,i,x| merge(b, i)); {result(c), result(a.$1)}\n%%\n%value\n[5,3,8,1,9,2,7]",
        "{56,[0,1,2,3,4,5,6]}",
    ),
];

/// Loops in arms, in states and turns, and behind `&&` and `||`; programs without loops.
pub static ABOVE_LOOPS: [(&str, &str); 10] = [
    (
        "|v: vec[i64]| iterate(result(for(v, merger[i64,+], |b,i,x| merge(b, x))), |s| {s - 7L, s > 20L})\n%%\n%value\n[5,3,8,1,9,2,7,4,6,0,12,11,10]",
        "8",
    ),
    (
        "|v: vec[i64]| iterate(0L, |s| {s + result(for(v, merger[i64,+], |b,i,x| merge(b, x))), s < 300L})\n%%\n%value\n[5,3,8,1,9,2,7,4,6,0,12,11,10]",
        "390",
    ),
    (
        "|v: vec[i64]| if(len(v) > 20L, result(for(v, merger[i64,+], |b,i,x| merge(b, 1L / 0L))), result(for(v, merger[i64,max], |b,i,x| merge(b, x))))\n%%\n%value\n[5,3,8,1,9,2,7,4,6,0,12,11,10]",
        "12",
    ),
    (
        "|v: vec[i64]| {result(for(v, merger[i64,+], |b,i,x| merge(b, x))) > 100L && result(for(v, merger[i64,+], |b,i,x| merge(b, 1L / 0L))) == 0L, result(for(v, merger[i64,+], |b,i,x| merge(b, x))) < 100L || result(for(v, merger[i64,+], |b,i,x| merge(b, 1L / 0L))) == 0L}\n%%\n%value\n[5,3,8,1,9,2,7,4,6,0,12,11,10]",
        "{false,true}",
    ),
    (
        "|v: vec[i64]| iterate(v, |w| {result(for(w, vecbuilder[i64], |b,i,x| merge(b, x * 2L))), lookup(w, 0L) < 10L})\n%%\n%value\n[1,2]",
        "[32,64]",
    ),
    (
        "iterate({0L, 1L}, |s| {{s.$1, s.$0 + s.$1}, s.$1 < 50L})",
        "{55,89}",
    ),
    ("result(merge(merge(vecbuilder[i64], 1L), 2L))", "[1,2]"),
    (
        "|d: dict[i64,i64]| {keyexists(d, 1L), keyexists(d, 2L)}\n%%\n%value\ndict{1:2}",
        "{true,false}",
    ),
    (
        "|v: vec[{i64,bool}]| slice(v, 1L, 1L)\n%%\n%value\n[{1,true},{2,false}]",
        "[{2,false}]",
    ),
    ("false && 1 / 0 == 1", "false"),
];

/// Programs that fault: in a row, in a leg, and above the loops.
pub static FAULTS: [(&str, &str); 13] = [
    (
        "|v: vec[i64]| result(for(v, merger[i64,+], |b,i,x| merge(b, 10L / (x - 7L))))\n%%\n%value\n[5,3,8,1,9,2,7,4,6,0,12,11,10]",
        "fault",
    ),
    (
        "|v: vec[i64], w: vec[i64]| result(for(v, vecbuilder[i64], |b,i,x| merge(b, lookup(w, x))))\n%%\n%value\n[5,3,8,1,9,2,7,4,6,0,12,11,10]\n%value\n[5,3,8,1,9,2,7,4,6,0,12,11]",
        "fault",
    ),
    (
        "|v: vec[i64]| result(for(v, vecmerger[i64,+]([0L,0L,0L]), |b,i,x| merge(b, {x, 1L})))\n%%\n%value\n[0,1,2,0,1,2,0,1,2,0,1,2,3]",
        "fault",
    ),
    (
        "|k: vec[i64], v: vec[i64]| result(for(zip(k, v), merger[i64,+], |b,i,x| merge(b, x.$0)))\n%%\n%value\n[1,2,3]\n%value\n[1,2,3,4]",
        "fault",
    ),
    (
        "|v: vec[i64]| result(for(iter(v, 1L, 15L, 2L), vecbuilder[i64], |b,i,x| merge(b, x)))\n%%\n%value\n[5,3,8,1,9,2,7,4,6,0,12,11,10]",
        "fault",
    ),
    (
        "|v: vec[i64]| result(for(v, merger[i64,+], |b,i,x| merge(b, 10L / (x - 5L))))\n%%\n%value\n[5,3,8,1,9,2,7,4,6,0,12,11,10]",
        "fault",
    ),
    (
        "|v: vec[i64]| result(for(v, merger[i64,+], |b,i,x| merge(b, 10L / (x - 10L))))\n%%\n%value\n[5,3,8,1,9,2,7,4,6,0,12,11,10]",
        "fault",
    ),
    (
        "|v: vec[i64]| result(for(v, vecmerger[i64,+]([0L,0L,0L]), |b,i,x| merge(b, {x, 1L})))\n%%\n%value\n[-1]",
        "fault",
    ),
    (
        "|v: vec[i64]| result(for(iter(v, 2L, 1L, 1L), vecbuilder[i64], |b,i,x| merge(b, x)))\n%%\n%value\n[1,2,3]",
        "fault",
    ),
    (
        "|v: vec[i64]| result(for(iter(v, 0L, 3L, 0L), vecbuilder[i64], |b,i,x| merge(b, x)))\n%%\n%value\n[1,2,3]",
        "fault",
    ),
    ("iterate(3L, |x| {12L / (x - 1L), true})", "fault"),
    ("select(true, 1, 1 / 0)", "fault"),
    (
        "|d: dict[i64,i64]| lookup(d, 9L)\n%%\n%value\ndict{3:4, 1:2}",
        "fault",
    ),
];

/// Loops over seven rows, into each builder and into a struct of structs of them; the last one faults.
pub static SEVEN_ROWS: [(&str, &str); 8] = [
    (
        "|v: vec[i64]| result(for(v, merger[i64,+], |b,i,x| merge(b, x * i)))\n%%\n%value\n[5,3,8,1,9,2,7]",
        "110",
    ),
    (
        "|v: vec[i64]| result(for(v, merger[u8,min], |b,i,x| merge(b, u8(x + 250L))))\n%%\n%value\n[5,3,8,1,9,2,7]",
        "1",
    ),
    (
        "|v: vec[i64]| result(for(v, vecbuilder[i64], |b,i,x| if(x != 8L, merge(merge(b, x), i), b)))\n%%\n%value\n[5,3,8,1,9,2,7]",
        "[5,0,3,1,1,3,9,4,2,5,7,6]",
    ),
    (
        "|v: vec[i64]| result(for(v, dictmerger[i64,i64,*], |b,i,x| merge(b, {x % 3L, x})))\n%%\n%value\n[5,3,8,1,9,2,7]",
        "dict{0:27,1:7,2:80}",
    ),
    (
        "|v: vec[i64]| result(for(v, vecmerger[i64,+]([10L,20L,30L]), |b,i,x| merge(b, {x % 3L, i})))\n%%\n%value\n[5,3,8,1,9,2,7]",
        "[15,29,37]",
    ),
    (
        "|v: vec[i64]| result(for(v, groupbuilder[i64,i64], |b,i,x| merge(b, {x % 3L, x})))\n%%\n%value\n[5,3,8,1,9,2,7]",
        "dict{0:[3,9],1:[1,7],2:[5,8,2]}",
    ),
    (
        "|v: vec[i64]| let r = for(v, {merger[i64,max], {vecbuilder[i64], groupbuilder[bool,i64]}}, |b,i,x| {merge(b.$0, x), {merge(b.$1.$0, x + i), merge(b.$1.$1, {x > 4L, x})}}); {result(r.$0), {result(r.$1.$0), result(r.$1.$1)}}\n%%\n%value\n[5,3,8,1,9,2,7]",
        "{9,{[5,4,10,4,13,7,13],dict{false:[3,1,2],true:[5,8,9,7]}}}",
    ),
    (
        "|v: vec[i64]| result(for(v, vecbuilder[i64], |b,i,x| merge(b, 8L / (x - 7L))))\n%%\n%value\n[5,3,8,1,9,2,7]",
        "fault",
    ),
];
