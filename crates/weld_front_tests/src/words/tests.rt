//! Words, and what they ask for.

use std::alloc::{AllocError, Global};
use std::test::Fail;
use weld_words::{Command, Options, WordsFault, read_words};

/// What `run` alone asks for.
const RUN: Options = Options {
    command: Command::Run,
    workers: 4,
    cut: 4096,
    report: false,
    seed: 1,
    rows: 1000,
};

/// Words in form, and what they ask for.
static IN_FORM: [(&[&str], Options); 24] = [
    (&["run"], RUN),
    (
        &["check"],
        Options {
            command: Command::Check,
            ..RUN
        },
    ),
    (
        &["show"],
        Options {
            command: Command::Show,
            ..RUN
        },
    ),
    (
        &["session"],
        Options {
            command: Command::Session,
            ..RUN
        },
    ),
    (
        &["soak"],
        Options {
            command: Command::Soak,
            ..RUN
        },
    ),
    (
        &["--cut", "2147483647", "--workers", "64", "run"],
        Options {
            cut: 2147483647,
            workers: 64,
            ..RUN
        },
    ),
    (
        &["run", "--cut", "1", "--workers", "4"],
        Options { cut: 1, ..RUN },
    ),
    (
        &["run", "--cut=1", "--workers=8"],
        Options {
            cut: 1,
            workers: 8,
            ..RUN
        },
    ),
    (
        &["session", "--cut", "100"],
        Options {
            command: Command::Session,
            cut: 100,
            ..RUN
        },
    ),
    (
        &["run", "--cut", "2", "--report"],
        Options {
            cut: 2,
            report: true,
            ..RUN
        },
    ),
    (
        &["--report", "session"],
        Options {
            command: Command::Session,
            report: true,
            ..RUN
        },
    ),
    (
        &["soak", "--seed", "7", "--rows", "3"],
        Options {
            command: Command::Soak,
            seed: 7,
            rows: 3,
            ..RUN
        },
    ),
    (
        &["soak", "--rows", "0"],
        Options {
            command: Command::Soak,
            rows: 0,
            ..RUN
        },
    ),
    (
        &["--rows=1000000", "--seed=0", "soak"],
        Options {
            command: Command::Soak,
            seed: 0,
            rows: 1000000,
            ..RUN
        },
    ),
    (
        &["run", "--seed=2147483647"],
        Options {
            seed: 2147483647,
            ..RUN
        },
    ),
    (&["run", "--workers", "+8"], Options { workers: 8, ..RUN }),
    (&["run", "--workers", "0008"], Options { workers: 8, ..RUN }),
    (&["run", "--seed=-0"], Options { seed: 0, ..RUN }),
    (&["run", "--seed=+0"], Options { seed: 0, ..RUN }),
    (&["run", "--workers=1"], Options { workers: 1, ..RUN }),
    (
        &["--workers", "2", "run", "--cut", "3"],
        Options {
            workers: 2,
            cut: 3,
            ..RUN
        },
    ),
    (
        &["--report", "check", "--rows", "5"],
        Options {
            command: Command::Check,
            report: true,
            rows: 5,
            ..RUN
        },
    ),
    (
        &[
            "--workers=2",
            "--cut=3",
            "--seed=4",
            "--rows=5",
            "--report",
            "show",
        ],
        Options {
            command: Command::Show,
            workers: 2,
            cut: 3,
            seed: 4,
            rows: 5,
            report: true,
        },
    ),
    (
        &["run", "--cut=+2147483647"],
        Options {
            cut: 2147483647,
            ..RUN
        },
    ),
];

/// Words not in form.
static NOT_IN_FORM: [&[&str]; 48] = [
    &[],
    &["run", "--workers", "0"],
    &["run", "run"],
    &["run", "--report", "--report"],
    &["run", "--"],
    &["--", "run"],
    &["--"],
    &["-"],
    &[""],
    &["run", ""],
    &["runs"],
    &["Run"],
    &["ru"],
    &["run", "check"],
    &["help"],
    &["--help"],
    &["run", "--help"],
    &["run", "-h"],
    &["run", "--version"],
    &["run", "-V"],
    &["duo"],
    &["--report"],
    &["--cut", "3"],
    &["run", "--workers", "65"],
    &["run", "--workers=65"],
    &["run", "--workers"],
    &["run", "--workers="],
    &["run", "--workers", "-1"],
    &["run", "--workers=-1"],
    &["run", "--seed", "-0"],
    &["run", "--cut", "0"],
    &["run", "--cut=2147483648"],
    &["run", "--cut", "9223372036854775808"],
    &["run", "--seed=2147483648"],
    &["run", "--rows", "1000001"],
    &["run", "--cut", "1", "--cut", "1"],
    &["run", "--cut=1", "--cut", "2"],
    &["--seed", "1", "run", "--seed=1"],
    &["run", "--report="],
    &["run", "--report=x"],
    &["run", "--report", "x"],
    &["run", "--cut", "1.0"],
    &["run", "--cut", "1e3"],
    &["run", "--cut", " 1"],
    &["run", "--cut", "0x10"],
    &["run", "--cut", "--report"],
    &["run", "--Cut", "1"],
    &["run", "--wor", "1"],
];

/// The words as the program has them.
fn words_of(alloc: Global, texts: &[&str]) -> Result<Vec<String>, AllocError> {
    let mut words = Vec::new(alloc);
    for text in texts {
        words.push(String::from_str(alloc, text)?)?;
    }
    Ok(words)
}

#[test]
fn words_in_form_are_read(rt: HostRuntime) -> Result<(), Fail> {
    for (texts, options) in &IN_FORM {
        let words = words_of(rt.alloc(), texts)?;
        assert_eq!(rt; read_words(rt.alloc(), &words), Ok(*options), "{texts:?}");
    }
    Ok(())
}

#[test]
fn other_words_are_refused(rt: HostRuntime) -> Result<(), Fail> {
    for texts in &NOT_IN_FORM {
        let words = words_of(rt.alloc(), texts)?;
        assert_eq!(rt;
            read_words(rt.alloc(), &words),
            Err(WordsFault::Form),
            "{texts:?}"
        );
    }
    Ok(())
}
