//! The lines that are found in files, and the limits of their number.
use crate::{Entry, FileText, Jobs, JobsFault, LineFault};
use std::process::Abort;

// `files` files: the last has `lines` lines, all of them empty, and the others have none.
fn files_of(rt: &(impl Abort + AllocGlobal), files: usize, lines: usize) -> Vec<FileText> {
    let mut texts = Vec::new(rt.alloc());
    for number in 1..=files {
        let count = if number == files { lines } else { 0 };
        let file = FileText {
            name: String::from_str(rt.alloc(), "a.txt").expect(rt, "no memory"),
            bytes: vec![in rt.alloc(); b'\n'; count].expect(rt, "no memory"),
        };
        texts.push(file).expect(rt, "no memory");
    }
    texts
}

#[test]
fn more_than_256_files_or_a_million_lines_are_too_many(rt: HostRuntime) {
    for (files, lines, fault) in [
        (257, 0, JobsFault::TooManyFiles),
        (257, 1_000_001, JobsFault::TooManyFiles),
        (1, 1_000_001, JobsFault::TooManyLines),
    ] {
        let files = files_of(&rt, files, lines);
        let jobs = Jobs::of_files(rt.alloc(), files.as_slice());
        assert!(rt; jobs.err() == Some(fault), "{fault}");
    }
}

#[test]
fn a_million_empty_lines_are_jobs(rt: HostRuntime) {
    for count in [1, 256] {
        let files = files_of(&rt, count, 1_000_000);
        let jobs = Jobs::of_files(rt.alloc(), files.as_slice()).expect(&rt, "no jobs");
        assert!(rt; jobs.total() == 1_000_000);
        for n in 0..jobs.total() {
            assert!(rt;
                jobs.get(n).entry == Entry::Bad(LineFault::Empty),
                "line {n}"
            );
        }
    }
}
