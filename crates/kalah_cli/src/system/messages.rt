//! The messages and tips that are written to standard error.
use std::io::Write;

/// Standard error, as messages and tips are written to it. What can't be written is dropped.
#[derive(Drop)]
pub(crate) struct Messages<E> {
    pub(crate) err: E,
    /// Whether it is a terminal.
    pub(crate) on_terminal: bool,
}

impl<E: Write> Messages<E> {
    /// Writes a text.
    pub(crate) fn write(&mut self, text: &str) {
        let _ = self.err.write_all(text.as_bytes());
    }

    /// Writes a text. On a terminal each byte of a control character but the line feed is written as a backslash and three octal digits,
    /// as `ls -b` does, so that no name can move the cursor or rename the window.
    pub(crate) fn write_escaped(&mut self, text: &str) {
        if !self.on_terminal || !text.chars().any(is_hidden) {
            self.write(text);
            return;
        }
        for shown in text.chars() {
            let mut bytes = [0u8; 4];
            let text = shown.encode_utf8(&mut bytes);
            if is_hidden(shown) {
                for byte in text.as_bytes() {
                    let _ = write!(self.err, "\\{byte:03o}");
                }
            } else {
                self.write(text);
            }
        }
    }

    /// Writes a tip, if it is a terminal. In the tip `{}` stands for an argument.
    pub(crate) fn write_tip(&mut self, tip: &str, argument: &str) {
        if self.on_terminal {
            self.write("  tip: ");
            match tip.split_once("{}") {
                Some((before, after)) => {
                    self.write(before);
                    self.write_escaped(argument);
                    self.write(after);
                }
                None => self.write(tip),
            }
            self.write("\n");
        }
    }
}

// Returns whether a character is a control character, but no line feed.
fn is_hidden(shown: char) -> bool {
    shown.is_control() && shown != '\n'
}
