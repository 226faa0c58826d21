//! Lines that are read, and each fault.
use crate::{LineFault, read_line};
use LineFault::{Empty, Houses, Long, Seeds, Shape};
use kalah_rules::Board;
use kalah_rules::Rule::{self, Classic, EmptyCapture};
use std::process::Abort;

// What is read of the line is this.
fn assert_read(rt: &impl Abort, line: &[u8], read: Result<Board, LineFault>) {
    assert!(rt; read_line(line) == read, "{line:?}");
}

// Lines that can't be read, and why.
const FAULTS: &[(&[u8], LineFault)] = &[
    (b"", Empty),
    (b"\r", Empty),
    (b"01/0 1/0", Shape),
    (b"1/100 1/0", Shape),
    (b"100/0 1/0", Shape),
    (b"-1/0 1/0", Shape),
    (b"1/0  1/0", Shape),
    (b"1/0", Shape),
    (b"/0 /0", Shape),
    (b"1,,1/0 1/0", Shape),
    (b"1/0 1/0\r\r", Shape),
    (b"1/0 1/0 E", Shape),
    (b"1/0 1/0  e", Shape),
    (b"1/0 1/0e", Shape),
    (b"1/0 1/0 e ", Shape),
    (b"1/0 1/0 ", Shape),
    (b"1,1/0 1/0", Houses),
    (b"1,1/0 16/0", Houses),
    (b"1,0,0,0,0,0,0/0 1,0,0,0,0,0,0/0", Houses),
    (b"16/0 16/0", Seeds),
];

#[test]
fn lines_that_are_not_read(rt: HostRuntime) {
    for (line, fault) in FAULTS {
        assert_read(&rt, line, Err(*fault));
    }
}

#[test]
fn at_most_eighty_bytes(rt: HostRuntime) {
    let mut line = [b'x'; 82];
    assert_read(&rt, &line[..80], Err(Shape));
    assert_read(&rt, &line[..81], Err(Long));
    line[80] = b'\r';
    assert_read(&rt, &line[..81], Err(Shape));
    assert_read(&rt, &line, Err(Long));
}

// Lines that are read as boards of one house a side: the seeds and the store of each side, and the rule.
const READ: &[(&[u8], (u8, u8), (u8, u8), Rule)] = &[
    (b"8/0 7/0", (8, 0), (7, 0), Classic),
    (b"8/0 8/0", (8, 0), (8, 0), Classic),
    (b"16/0 15/0", (16, 0), (15, 0), Classic),
    (b"31/99 0/0", (31, 99), (0, 0), Classic),
    (b"1/0 1/0\r", (1, 0), (1, 0), Classic),
    (b"0/0 0/0 e", (0, 0), (0, 0), EmptyCapture),
    (b"3/10 3/0 e\r", (3, 10), (3, 0), EmptyCapture),
];

#[test]
fn lines_that_are_read(rt: HostRuntime) {
    for (line, own, other, rule) in READ {
        let own_row = [own.0, 0, 0, 0, 0, 0];
        let other_row = [other.0, 0, 0, 0, 0, 0];
        let board = Board::new(1, own_row, own.1, other_row, other.1, *rule);
        assert_read(&rt, line, board.ok_or(Shape));
    }
}
