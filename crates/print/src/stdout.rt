// Printing to standard output, by the kit's `io`.
ghost use Rattle.std.specs.Prelude.{◌≡◌, ◌++◌, take, IsFalse, IsOk, IsTrue};

use std::fmt::{self, Display, Write};

const STDOUT: i32 = 1;

const ROOM: usize = 128;

// What is printed and not yet written: the first `length` bytes.
#[derive(Drop)]
struct Buffer {
    bytes: [u8; ROOM],
    length: usize,
}

impl Buffer {
    fn new() -> Buffer {
        Buffer {
            bytes: [0; ROOM],
            length: 0,
        }
    }

    // Whether there was room for the text, which is then kept.
    fn keep(&mut self, text: &[u8]) -> bool
        ensures kept { IsTrue result → take self.new.length self.new.bytes ≡ take self.old.length self.old.bytes ++ text.now }
        ensures full { IsFalse result → self.new ≡ self.old }
    {
        let end = self.length.saturating_add(text.len());
        if end > ROOM {
            return false;
        }
        self.bytes[self.length..end].copy_from_slice(text);
        self.length = end;
        true
    }

    fn flush(&mut self)
        ensures { self.new.length ≡ 0 }
    {
        io::write_all(STDOUT, &self.bytes[..self.length.min(ROOM)]);
        self.length = 0;
    }

    // For a text that has no room; one longer than the buffer is written as it is. Apart, so that a text with room costs less.
    #[inline(never)]
    fn flush_before(&mut self, text: &[u8]) {
        self.flush();
        if !self.keep(text) {
            io::write_all(STDOUT, text);
        }
    }
}

impl fmt::Write for Buffer {
    fn write_str(&mut self, s: &str) -> fmt::Result
        ensures { IsOk result }
    {
        let text = s.as_bytes();
        if !self.keep(text) {
            self.flush_before(text);
        }
        Ok(())
    }
}

// Standard output, as the programs print to it: what cannot be written is dropped, and the program goes on.
#[derive(Clone, Copy)]
pub struct Output;

impl Print for Output {
    fn print<D: Display + Drop>(&self, value: D) -> std::io::Result<()>
        ensures { IsOk result }
    {
        let mut buffer = Buffer::new();
        let _ = buffer.write(value);
        buffer.flush();
        Ok(())
    }

    fn println<D: Display + Drop>(&self, value: D) -> std::io::Result<()>
        ensures { IsOk result }
    {
        let mut buffer = Buffer::new();
        let _ = buffer.writeln(value);
        buffer.flush();
        Ok(())
    }

    fn write_all(&self, bytes: &[u8]) -> std::io::Result<()>
        ensures { IsOk result }
    {
        io::write_all(STDOUT, bytes);
        Ok(())
    }
}
