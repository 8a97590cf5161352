//! Text on a device.
ghost use Rattle.std.specs.Prelude.{◌≡◌, ◌++◌, ◌⊎◌, ℕ, true, List, Some, IfErr, OnOk};
ghost use Rattle.std.specs.Io.KnownBytes.{Appends};
ghost use Rattle.std.specs.Fmt.{WritesText};
ghost use Rattle.sp_command.specs.Lines.{IsPlain, MayAppend, MayShow, is_plain};
ghost use Rattle.sp_command.specs.declared.faults.Fault.TheVariants.{Memory, WriteFailed};

use crate::faults::Fault;
use crate::names::is_unprintable;
use sp_device::{Block, Write, WriteFault, write_all};
use std::fmt;
use std::fmt::Write as _;

/// A device as a writer of text.
#[derive(Drop)]
struct TextWriter<'a, W> {
    device: &'a mut W,
}

impl<W: Write> fmt::Write for TextWriter<'_, W> {
    ghost write_str_gives = { λ old text new.
        (new.device.ghost_name ≡ old.device.ghost_name)
        × Appends (W.written old.device.now) (W.written new.device.now) text };

    fn write_str(&mut self, text: &str) -> fmt::Result {
        match write_all(self.device, text.as_bytes()) {
            Ok(()) => Ok(()),
            Err(WriteFault) => Err(fmt::Error),
        }
    }
}

/// A block as a writer of text. Text that doesn't fit is refused.
#[derive(Drop)]
struct BlockWriter {
    block: Block,
}

impl fmt::Write for BlockWriter {
    ghost write_str_gives = { λ old text new. new.block ≡ old.block ++ text };

    fn write_str(&mut self, text: &str) -> fmt::Result {
        if self.block.room_left() < text.len() {
            return Err(fmt::Error);
        }
        self.block.push(text.as_bytes());
        Ok(())
    }
}

/// A writer of lines that writes `?` for each character that a terminal can't show.
#[derive(Drop)]
struct LineWriter<T> {
    inner: T,
}

impl<T: fmt::Write> fmt::Write for LineWriter<T> {
    ghost write_str_gives = { λ old text new.
        IsPlain text → T.write_str_gives old.inner text new.inner };

    fn write_str(&mut self, text: &str) -> fmt::Result {
        if text.as_bytes().iter().all(|byte| is_plain(*byte)) || !text.chars().any(is_hidden) {
            return self.inner.write_str(text);
        }
        for c in text.chars() {
            self.inner.write_char(if is_hidden(c) { '?' } else { c })?;
        }
        Ok(())
    }
}

// Returns whether a byte is a line end or a character that a terminal can show.
fn is_plain(byte: u8) -> bool
    ensures { result ≡ is_plain byte }
{
    matches!(byte, b'\n' | b' '..=b'~')
}

// Returns whether a character of a line is hidden because a terminal can't show it.
fn is_hidden(c: char) -> bool {
    c != '\n' && is_unprintable(c)
}

// Writes the display form of a value. Returns the writer, and whether everything was written.
fn display_on<T: fmt::Write, D: fmt::Display>(writer: T, shown: &D) -> (T, fmt::Result)
    ensures { OnOk result.1
        (WritesText T.write_str_gives writer (D.output shown.now) result.0) }
{
    let mut formatter = fmt::Formatter::new(writer);
    let ended = formatter.write(shown);
    (formatter.into_inner(), ended)
}

/// Writes the display form of a value, with `?` for each character that a terminal can't show. It allocates no memory.
/// If the value refuses to be displayed, the fault is `Memory`.
pub fn print<W: Write, D: fmt::Display>(out: &mut W, shown: &D) -> Result<(), Fault>
    ensures shown { (text : List ℕ) → D.output shown.now ≡ Some text → IsPlain text
        → OnOk result (Appends (W.written out.old) (W.written out.new) text) }
    ensures refused { IfErr result (λ fault. (fault ≡ Memory)
        ⊎ ((fault ≡ WriteFailed) × (W.has_failed out.new ≡ true))) }
{
    let inner = TextWriter { device: out };
    let (writer, ended) = display_on(LineWriter { inner }, shown);
    let LineWriter {
        inner: TextWriter { device },
    } = writer;
    // This has no effect at run time. It lets the proof read what `out` holds.
    let _ = &*device;
    match ended {
        Ok(()) => Ok(()),
        // A device that has failed once fails again.
        Err(fmt::Error) => match out.write(b"") {
            Ok(_) => Err(Fault::Memory),
            Err(_) => Err(Fault::WriteFailed),
        },
    }
}

/// Writes the display form of a value, with `?` for each character that a terminal can't show, if it has at most 8,192
/// bytes. A failure of the device is ignored. It allocates no memory.
pub fn print_short<W: Write, D: fmt::Display>(out: &mut W, shown: &D)
    ensures kept { MayAppend W.Write out.old out.new }
    ensures shown { (text : List ℕ) → D.output shown.now ≡ Some text → IsPlain text
        → MayShow W.Write text out.old out.new }
{
    let inner = BlockWriter {
        block: Block::new(),
    };
    let (writer, ended) = display_on(LineWriter { inner }, shown);
    if ended.is_ok() {
        let _ = write_all(out, writer.inner.block.bytes());
    }
}
