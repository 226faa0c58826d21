//! What is shown of a batch, by a clock that a test sets.
use super::Progress;
use crate::system::messages::Messages;
use crate::system::terminal::Terminal;
use kalah_jobs::FileText;
use kalah_run::Watch;
use std::io;
use std::process::Abort;
use std::rt::Clock;
use std::sync::atomic::AtomicU64;
use std::sync::atomic::Ordering::SeqCst;
use std::time::Duration;

/// A clock, which is not set to the time of day, and a terminal for the errors or not.
#[derive(Drop)]
struct Machine {
    seconds: AtomicU64,
    stderr_is_terminal: bool,
}

impl Machine {
    // It is 7 seconds past.
    fn new(stderr_is_terminal: bool) -> Machine {
        Machine {
            seconds: AtomicU64::new(7),
            stderr_is_terminal,
        }
    }
}

impl Clock for Machine {
    fn monotonic(&self) -> io::Result<Duration> {
        Ok(Duration::from_secs(self.seconds.load(SeqCst)))
    }

    fn since_1970(&self) -> io::Result<Duration> {
        Ok(Duration::from_secs(1 << 40))
    }
}

impl Terminal for Machine {
    fn stdin_is_terminal(&self) -> bool {
        false
    }

    fn stdout_is_terminal(&self) -> bool {
        false
    }

    fn stderr_is_terminal(&self) -> bool {
        self.stderr_is_terminal
    }
}

// What is shown of a batch with this number of lines. Some are answered after a number of seconds. Then the thread waits twice, and the
// batch ends.
fn shown(
    rt: &(impl Abort + AllocGlobal),
    machine: &Machine,
    (lines, answered): (usize, u32),
    seconds: u64,
) -> Vec<u8> {
    let file = FileText {
        name: String::new(rt.alloc()),
        bytes: vec![in rt.alloc(); b'\n'; lines].expect(rt, "no memory"),
    };
    let mut messages = Messages {
        err: Vec::<u8>::new(rt.alloc()),
        on_terminal: machine.stderr_is_terminal,
    };
    {
        let mut progress = Progress::begin(machine, &mut messages, &[file], true);
        machine.seconds.fetch_add(seconds, SeqCst);
        for _ in 0..answered {
            progress.on_accepted();
        }
        progress.on_waiting();
        progress.on_waiting();
        progress.end();
    }
    messages.err
}

// One of two lines is answered after this number of seconds, and this time is left for the other one.
const LEFT: &[(u64, &str)] = &[
    (0, ""),
    (1, ", 1 s left"),
    (119, ", 119 s left"),
    (120, ", 2 min left"),
    (7199, ", 119 min left"),
    (7200, ", 2 h left"),
];

#[test]
fn the_time_that_is_left_stands_in_its_unit(rt: HostRuntime) {
    for (seconds, left) in LEFT {
        let text = format!(in rt.alloc();
            "kalah: 0 of 2 lines, 0 %\nkalah: 1 of 2 lines, 50 %{left}\n"
        );
        let text = text.expect(&rt, "no memory");
        let machine = Machine::new(false);
        let said = shown(&rt, &machine, (2, 1), *seconds);
        assert!(rt; said.as_slice() == text.as_bytes(), "{seconds}");
    }
}

#[test]
fn the_other_lines_take_as_long_as_those_so_far(rt: HostRuntime) {
    let text =
        "kalah: 0 of 5 lines, 0 %\nkalah: 1 of 5 lines, 20 %, 40 s left\nkalah: 2 of 5 lines, 40 %, 15 s left\n";
    let said = shown(&rt, &Machine::new(false), (5, 2), 10);
    assert!(rt; said.as_slice() == text.as_bytes());
}

#[test]
fn a_terminal_shows_each_thousandth_and_what_is_answered_before_a_wait(rt: HostRuntime) {
    let text =
        "\rkalah: 0 of 2000 lines, 0 %\x1b[K\rkalah: 2 of 2000 lines, 0 %\x1b[K\rkalah: 3 of 2000 lines, 0 %\x1b[K\n";
    let said = shown(&rt, &Machine::new(true), (2000, 3), 0);
    assert!(rt; said.as_slice() == text.as_bytes());
}
