//! Files that are read within the limit of their bytes, and that are not.
use super::{ReadFault, read_limited};
use crate::exit::failure::Failure;
use std::io;
use std::io::{ErrorKind, Read};

/// A reader of three bytes, whose second call is interrupted.
#[derive(Drop)]
struct Interrupted {
    calls: u32,
}

impl Read for Interrupted {
    fn read(&mut self, buf: &mut [u8]) -> io::Result<usize> {
        self.calls = self.calls.saturating_add(1);
        match self.calls {
            1 => (&mut b"1/0".as_slice()).read(buf),
            2 => Err(io::Error::from(ErrorKind::Interrupted)),
            _ => Ok(0),
        }
    }
}

#[test]
fn an_interrupted_read_is_the_files_fault(rt: HostRuntime) {
    let mut reader = Interrupted { calls: 0 };
    let read = read_limited(rt.alloc(), &mut reader, "a", 10);
    let is_fault = matches!(
        read,
        Err(Failure::Unreadable {
            name: "a",
            fault: ReadFault::Unreadable
        })
    );
    assert!(rt; is_fault && reader.calls == 2);
}
