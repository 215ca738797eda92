//! Jobs, what each must come to, and what is counted of its runs.

/// A job of one shared loop.
pub(crate) struct Job {
    pub(crate) text: &'static str,
    /// The value as it is written, or `fault`.
    pub(crate) wanted: &'static str,
    /// How many loops its program has.
    pub(crate) loops: u64,
    /// How many rows the shared one has.
    pub(crate) rows: u128,
    /// Into how many tiles they are cut by each of the cuts.
    pub(crate) tiles: [u64; 4],
}

/// The cuts.
pub(crate) static CUTS: [u32; 4] = [1, 2, 3, 4096];

/// A job of each builder, of a struct of them, of inner loops, of strided legs, and two that fault.
pub(crate) static JOBS: [Job; 11] = [
    Job {
        text: "|v: vec[i64]| result(for(v, merger[i64,+], |b,i,x| merge(b, x * x)))\n%%\n%value\n[5,3,8,1,9,2,7,4,6,0,12,11,10]",
        wanted: "650",
        loops: 1,
        rows: 13,
        tiles: [13, 8, 5, 1],
    },
    Job {
        text: "|v: vec[i64]| result(for(v, vecbuilder[i64], |b,i,x| if(x % 2L == 0L, merge(b, x), b)))\n%%\n%value\n[5,3,8,1,9,2,7,4,6,0,12,11,10]",
        wanted: "[8,2,4,6,0,12,10]",
        loops: 1,
        rows: 13,
        tiles: [13, 8, 5, 1],
    },
    Job {
        text: "|k: vec[i64], v: vec[i64]| result(for(zip(k, v), dictmerger[i64,i64,+], |b,i,x| merge(b, x)))\n%%\n%value\n[2,1,2,3,1,2,3,3,1,2,2,1,3]\n%value\n[5,3,8,1,9,2,7,4,6,0,12,11,10]",
        wanted: "dict{1:29,2:27,3:22}",
        loops: 1,
        rows: 13,
        tiles: [13, 8, 5, 1],
    },
    Job {
        text: "|k: vec[i64]| result(for(k, vecmerger[i64,+]([10L,20L,30L,40L]), |b,i,x| merge(b, {x, i})))\n%%\n%value\n[2,1,2,3,1,2,3,3,1,2,2,1,3]",
        wanted: "[10,44,56,68]",
        loops: 1,
        rows: 13,
        tiles: [13, 8, 5, 1],
    },
    Job {
        text: "|k: vec[i64], v: vec[i64]| result(for(zip(k, v), groupbuilder[i64,i64], |b,i,x| merge(b, x)))\n%%\n%value\n[2,1,2,3,1,2,3,3,1,2,2,1,3]\n%value\n[5,3,8,1,9,2,7,4,6,0,12,11,10]",
        wanted: "dict{1:[3,9,6,11],2:[5,8,2,0,12],3:[1,7,4,10]}",
        loops: 1,
        rows: 13,
        tiles: [13, 8, 5, 1],
    },
    Job {
        text: "|v: vec[i64]| let r = for(v, {merger[i64,+], merger[i64,max], vecbuilder[i64]}, |b,i,x| {merge(b.$0, x), merge(b.$1, x), if(x > 5L, merge(b.$2, i), b.$2)}); {result(r.$0), result(r.$1), result(r.$2)}\n%%\n%value\n[5,3,8,1,9,2,7,4,6,0,12,11,10]",
        wanted: "{78,12,[2,4,6,8,10,11,12]}",
        loops: 1,
        rows: 13,
        tiles: [13, 8, 5, 1],
    },
    Job {
        text: "|v: vec[vec[i64]]| result(for(v, vecbuilder[i64], |b,i,x| merge(b, result(for(x, merger[i64,+](i), |c,j,y| merge(c, y * j))))))\n%%\n%value\n[[1,2],[],[3],[4,5,6],[7],[],[8,9],[1],[2,2],[3,3,3],[],[5],[6,7]]",
        wanted: "[2,1,2,20,4,5,15,7,10,18,10,11,19]",
        loops: 2,
        rows: 13,
        tiles: [13, 8, 5, 1],
    },
    Job {
        text: "|v: vec[i64], w: vec[i64]| result(for(v, vecbuilder[i64], |b,i,x| for(w, b, |c,j,y| if(y < x, merge(c, x * 10L + y), c))))\n%%\n%value\n[5,3,8,1,9,2,7,4,6,0,12,11,10]\n%value\n[1,4,7]",
        wanted: "[51,54,31,81,84,87,91,94,97,21,71,74,41,61,64,121,124,127,111,114,117,101,104,107]",
        loops: 2,
        rows: 13,
        tiles: [13, 8, 5, 1],
    },
    Job {
        text: "|v: vec[i64], w: vec[i64]| result(for(zip(iter(v, 1L, 13L, 2L), iter(w, 0L, 12L, 2L)), vecbuilder[i64], |b,i,x| merge(b, x.$0 * 100L + x.$1)))\n%%\n%value\n[5,3,8,1,9,2,7,4,6,0,12,11,10]\n%value\n[2,1,2,3,1,2,3,3,1,2,2,1,3]",
        wanted: "[302,102,201,403,1,1102]",
        loops: 1,
        rows: 6,
        tiles: [6, 4, 2, 1],
    },
    Job {
        text: "|v: vec[i64]| result(for(v, merger[i64,+], |b,i,x| merge(b, 10L / (x - 7L))))\n%%\n%value\n[5,3,8,1,9,2,7,4,6,0,12,11,10]",
        wanted: "fault",
        loops: 1,
        rows: 13,
        tiles: [13, 8, 5, 1],
    },
    Job {
        text: "|v: vec[i64]| result(for(v, merger[i64,+], |b,i,x| merge(b, 10L / (x - 10L))))\n%%\n%value\n[5,3,8,1,9,2,7,4,6,0,12,11,10]",
        wanted: "fault",
        loops: 1,
        rows: 13,
        tiles: [13, 8, 5, 1],
    },
];

/// A job of several loops, or of one that isn't shared, and what is counted of a run with a cut.
pub(crate) struct Counted {
    pub(crate) text: &'static str,
    pub(crate) cut: u32,
    pub(crate) loops: u64,
    pub(crate) tiles: u128,
    pub(crate) turns: u128,
}

/// Three loops in a chain, two of four that are jumped over, and one in a turn.
pub(crate) static COUNTED: [Counted; 6] = [
    Counted {
        text: "|v: vec[i64]| let a = result(for(v, vecbuilder[i64], |b,i,x| merge(b, x * 2L))); let c = result(for(a, vecbuilder[i64], |b,i,x| if(x > 4L, merge(b, x), b))); result(for(c, merger[i64,+], |b,i,x| merge(b, x)))\n%%\n%value\n[5,3,8,1,9,2,7,4,6,0,12,11,10]",
        cut: 3,
        loops: 3,
        tiles: 14,
        turns: 36,
    },
    Counted {
        text: "|v: vec[i64]| let a = result(for(v, vecbuilder[i64], |b,i,x| merge(b, x * 2L))); let c = result(for(a, vecbuilder[i64], |b,i,x| if(x > 4L, merge(b, x), b))); result(for(c, merger[i64,+], |b,i,x| merge(b, x)))\n%%\n%value\n[5,3,8,1,9,2,7,4,6,0,12,11,10]",
        cut: 4096,
        loops: 3,
        tiles: 3,
        turns: 36,
    },
    Counted {
        text: "|v: vec[i64]| {result(for(v, merger[i64,+], |b,i,x| merge(b, x))) > 100L && result(for(v, merger[i64,+], |b,i,x| merge(b, 1L / 0L))) == 0L, result(for(v, merger[i64,+], |b,i,x| merge(b, x))) < 100L || result(for(v, merger[i64,+], |b,i,x| merge(b, 1L / 0L))) == 0L}\n%%\n%value\n[5,3,8,1,9,2,7,4,6,0,12,11,10]",
        cut: 1,
        loops: 4,
        tiles: 26,
        turns: 26,
    },
    Counted {
        text: "|v: vec[i64]| {result(for(v, merger[i64,+], |b,i,x| merge(b, x))) > 100L && result(for(v, merger[i64,+], |b,i,x| merge(b, 1L / 0L))) == 0L, result(for(v, merger[i64,+], |b,i,x| merge(b, x))) < 100L || result(for(v, merger[i64,+], |b,i,x| merge(b, 1L / 0L))) == 0L}\n%%\n%value\n[5,3,8,1,9,2,7,4,6,0,12,11,10]",
        cut: 4096,
        loops: 4,
        tiles: 2,
        turns: 26,
    },
    Counted {
        text: "|v: vec[i64]| iterate(0L, |s| {s + result(for(v, merger[i64,+], |b,i,x| merge(b, x))), s < 300L})\n%%\n%value\n[5,3,8,1,9,2,7,4,6,0,12,11,10]",
        cut: 1,
        loops: 1,
        tiles: 0,
        turns: 0,
    },
    Counted {
        text: "|v: vec[i64]| iterate(0L, |s| {s + result(for(v, merger[i64,+], |b,i,x| merge(b, x))), s < 300L})\n%%\n%value\n[5,3,8,1,9,2,7,4,6,0,12,11,10]",
        cut: 4096,
        loops: 1,
        tiles: 0,
        turns: 0,
    },
];
