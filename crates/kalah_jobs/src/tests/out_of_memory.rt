//! Tests in which each request for memory is refused once. With ample memory these tests just pass. `tests/refuse` runs each of them
//! repeatedly, with the first request refused, then the second, and so on: the test must pass each time, until the request that
//! is refused is one of its own marks.
use crate::tests::mark;
use crate::{
    Answer, LineFault, Sink, Stream, Taken, answer_text, line_text, read_line, step_text,
    write_answer,
};
use std::alloc::{AllocError, Global};
use std::process::Abort;
use std::test::Fail;

// The texts of the position and of its move of house 2 are these.
fn assert_texts(rt: &(impl Abort + AllocGlobal), line: &str, want: &str) -> Result<(), AllocError> {
    let board = read_line(line.as_bytes()).expect(rt, line);
    let text = match line_text(rt.alloc(), &board) {
        Ok(text) => text,
        Err(_) => line_text(rt.alloc(), &board)?,
    };
    assert!(rt; text.as_str() == line && board.is_legal(2));
    let step = board.apply(2);
    let text = match step_text(rt.alloc(), 2, &step) {
        Ok(text) => text,
        Err(_) => step_text(rt.alloc(), 2, &step)?,
    };
    assert!(rt; text.as_str() == want);
    Ok(())
}

#[test]
fn texts_of_positions_and_moves(rt: HostRuntime) -> Result<(), Fail> {
    assert_texts(&rt, "1,1/0 1,1/0", "2 1,0/1 1,1/0 again")?;
    assert_texts(
        &rt,
        "1,2,3,4,5,0/10 0,0,0,0,0,9/88 e",
        "2 0,0,0,0,0,9/88 1,0,4,5,5,0/10 e turn",
    )?;
    mark(rt.alloc(), "after all")
}

// Answers, and the ends of their lines.
#[rattlefmt::skip]
const ANSWERS: [(Answer, &str); 3] = [
    (Answer::Best { margin: -2, house: 1 }, "-2 house 1"),
    (Answer::Over { margin: -130 }, "-130 over"),
    (Answer::Fault(LineFault::Houses), "fault houses"),
];

fn text_of(alloc: Global, answer: Answer) -> Result<String, AllocError> {
    let taken = Taken { line: 1, answer };
    match answer_text(alloc, "name of a file", &taken) {
        Ok(text) => Ok(text),
        Err(_) => answer_text(alloc, "name of a file", &taken),
    }
}

#[test]
fn texts_of_answers(rt: HostRuntime) -> Result<(), Fail> {
    for (answer, want) in ANSWERS {
        let text = text_of(rt.alloc(), answer)?;
        assert!(rt; text.as_str().strip_prefix("name of a file:2 ") == Some(want));
    }
    mark(rt.alloc(), "after all")
}

fn write_answers(rt: &impl Abort, out: &mut Stream<Vec<u8>>) {
    for (answer, _) in ANSWERS {
        assert!(rt; !out.failed());
        write_answer(out, "a", &Taken { line: 1, answer }).expect(rt, "not written");
    }
}

// The writer has all its room.
#[test]
fn answers_are_written_without_memory(rt: HostRuntime) -> Result<(), Fail> {
    let room = match Vec::<u8>::with_capacity(rt.alloc(), 100) {
        Ok(room) => room,
        Err(_) => Vec::with_capacity(rt.alloc(), 100)?,
    };
    mark(rt.alloc(), "before the calls without memory")?;
    let mut out = Stream::new(room);
    write_answers(&rt, &mut out);
    let want = b"a:2 -2 house 1\na:2 -130 over\na:2 fault houses\n".as_slice();
    assert!(rt; out.into_inner().as_slice() == want);
    mark(rt.alloc(), "after all")
}
