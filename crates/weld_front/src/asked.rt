ghost use Rattle.std.specs.Prelude.{◌<◌, ◌≤◌};

use weld_words::Options;

/// What the words ask for, in the ranges of its numbers.
#[derive(Clone, Copy, Debug)]
pub struct Asked {
    pub options: Options,
    ghost some_workers: { 1 ≤ options.workers },
    ghost few_workers: { options.workers ≤ 64 },
    ghost some_rows: { 1 ≤ options.cut },
    ghost small_seed: { options.seed < 2147483648 },
    ghost few_rows: { options.rows ≤ 1000000 },
}
