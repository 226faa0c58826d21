//! Lines answered as they come, and readers and outputs that fail.
use crate::{AskFault, Question, Stream, answer_lines};
use kalah_solve::{Solver, Table};
use std::io::{BufReader, ErrorKind, Read};
use std::process::Abort;
use std::{io, str};

// What is written for the bytes of a reader, and the result.
fn answered(
    rt: &(impl Abort + AllocGlobal),
    question: Question,
    reader: impl Read + Drop,
) -> (Vec<u8>, Result<bool, AskFault>) {
    let mut solver = Solver::new(Table::new(rt.alloc(), 16).expect(rt, "no memory"));
    let mut input = BufReader::with_capacity(rt.alloc(), 7, reader).expect(rt, "no memory");
    let mut out = Stream::new(Vec::<u8>::new(rt.alloc()));
    let end = answer_lines(&mut input, question, &mut solver, &mut out);
    (out.into_inner(), end)
}

// What is asked, the bytes, what is written for them, and whether each line is read.
const LINES: &[(Question, &[u8], &str, bool)] = &[
    (Question::BestMove, b"", "", true),
    (
        Question::BestMove,
        b"1/0 1/0\n\n3/0 3/0\r\n",
        "0 house 1\nfault empty\n6 house 1\n",
        false,
    ),
    (
        Question::Values,
        b"1,1/0 1,1/0\n0/3 1/2",
        "1:-2 2:2\n0 over\n",
        true,
    ),
    (
        Question::Steps,
        b"1,1/0 1,1/0\n0,0/3 1,2/4\n3/0 1/0 e\n\n0,1/0 1,0/0",
        "1 1,1/0 0,2/0 turn; 2 1,0/1 1,1/0 again\n-4 over\n1 0/4 0/0 e over\nfault empty\n2 0,0/1 0,0/1 over\n",
        false,
    ),
];

#[test]
fn each_line_is_answered(rt: HostRuntime) {
    for (question, bytes, text, all_read) in LINES {
        let (out, end) = answered(&rt, *question, *bytes);
        let written = str::from_utf8(out.as_slice()).unwrap_or("no text");
        assert!(rt;
            written == *text && end == Ok(*all_read),
            "{written} {end:?}, not {text}"
        );
    }
}

/// A reader of its bytes one by one. It is interrupted this often before the first and once before each other, and returns an error at
/// their end.
#[derive(Drop)]
struct Halting {
    bytes: &'static [u8],
    at: usize,
    interrupts: u32,
}

impl Read for Halting {
    fn read(&mut self, buf: &mut [u8]) -> io::Result<usize> {
        if self.interrupts > 0 {
            self.interrupts -= 1;
            return Err(io::Error::from(ErrorKind::Interrupted));
        }
        if self.at >= self.bytes.len() {
            return Err(io::Error::from(ErrorKind::ConnectionReset));
        }
        if buf.is_empty() {
            return Ok(0);
        }
        buf[0] = self.bytes[self.at];
        self.at += 1;
        self.interrupts = 1;
        Ok(1)
    }
}

#[test]
fn lines_before_a_read_that_fails_are_answered(rt: HostRuntime) {
    let reader = Halting {
        bytes: b"1,1/0 1,1/0\nx\n1/0 1/0",
        at: 0,
        interrupts: 100_000,
    };
    let (out, end) = answered(&rt, Question::BestMove, reader);
    assert!(rt; out.as_slice() == "2 house 2\nfault shape\n".as_bytes());
    assert!(rt; end == Err(AskFault::Read));
}
