//! The lines that report faults on standard error.
ghost use Rattle.std.specs.Prelude.{◌≡◌};
ghost use Rattle.sp_command.specs.Lines.{IsLineWritten, IsWritten, input_line, joined, letter_of, name_of, packed_letter_of, packed_line, packed_name_of, word_of};

use crate::faults::{Fault, FileKind};
use crate::text::print;
use crate::usage::Untipped;
use itoa::Buffer;
use sp_device::{Write, WriteFault, write_all};
use sp_packed::{PackedFault, PackedField, PackedKind};
use sp_text::{DimacsError, Kind};
use std::slice;

impl Fault {
    /// Writes the fault's line, with its end. It allocates no memory.
    pub fn write_line<W: Write>(&self, out: &mut W) -> Result<(), WriteFault>
        ensures { IsLineWritten W.Write self.now out.old result out.new }
    {
        match self {
            Fault::Usage(error) => match print(out, &Untipped(error)) {
                Ok(()) => Ok(()),
                Err(_) => Err(WriteFault),
            },
            Fault::DeltaOutOfRange => write_all(out, b"spt: delta out of range\n"),
            Fault::LimitOutOfRange => write_all(out, b"spt: limit out of range\n"),
            Fault::InputTwice => write_all(out, b"spt: standard input twice\n"),
            Fault::OutputIsInput(_) => write_all(out, b"spt: output is an input\n"),
            Fault::NoPlaces => write_all(out, b"spt: sources are not A-B\n"),
            Fault::CannotOpen(file) => {
                write_texts(
                    out,
                    &[b"spt: ", file.word().as_bytes(), b": cannot open", b"\n"],
                )
            }
            Fault::Input { file, error } => write_input_line(out, *file, *error),
            Fault::Packed(error) => write_packed_line(out, *error),
            Fault::NoSuchVertex(vertex, _) => {
                let mut digits = Buffer::new();
                let number = digits.format(*vertex).as_bytes();
                write_texts(out, &[b"spt: source ", number, b": no such vertex", b"\n"])
            }
            Fault::TooManySteps => write_all(out, b"spt: replay: more than 60 steps\n"),
            Fault::ToTerminal => write_all(out, b"spt: output is a terminal\n"),
            Fault::Memory => write_all(out, b"spt: memory\n"),
            Fault::WriteFailed => write_all(out, b"spt: write failed\n"),
            Fault::CannotWrite => write_all(out, b"spt: output: cannot write\n"),
        }
    }
}

// Writes the line for an error in a file's text.
fn write_input_line<W: Write>(
    out: &mut W,
    file: FileKind,
    error: DimacsError,
) -> Result<(), WriteFault>
    ensures { IsWritten W.Write (input_line file error) out.old result out.new }
{
    let mut digits = Buffer::new();
    let number = digits.format(error.line).as_bytes();
    let name = name_of(&error.kind).as_bytes();
    let texts = [
        b"spt: ",
        file.word().as_bytes(),
        b": line ",
        number,
        b": ",
        name,
        letter_of(&error.kind),
        b"\n",
    ];
    write_texts(out, &texts)
}

// Returns the number and the name of an error in a text.
fn name_of(kind: &Kind) -> &'static str
    ensures { result.now ≡ name_of kind.now }
{
    match kind {
        Kind::LongLine => "1 LongLine",
        Kind::BadLine => "2 BadLine",
        Kind::NoProblem => "3 NoProblem",
        Kind::SecondProblem => "4 SecondProblem",
        Kind::OutOfRange(_) => "5 OutOfRange ",
        Kind::TooMany => "6 TooMany",
        Kind::TooFew => "7 TooFew",
        Kind::Memory => "8 Memory",
        Kind::Read => "9 Read",
    }
}

// Returns the letter of the field that is out of range, if the error has one.
fn letter_of(kind: &Kind) -> &[u8]
    ensures { result.now ≡ letter_of kind.now }
{
    match kind {
        Kind::OutOfRange(letter) => slice::from_ref(letter),
        _ => &[],
    }
}

// Writes the line for an error in a packed graph.
fn write_packed_line<W: Write>(out: &mut W, error: PackedFault) -> Result<(), WriteFault>
    ensures { IsWritten W.Write (packed_line error) out.old result out.new }
{
    let mut digits = Buffer::new();
    let number = digits.format(error.at).as_bytes();
    let name = packed_name_of(&error.kind).as_bytes();
    let letter = packed_letter_of(&error.kind).as_bytes();
    write_texts(
        out,
        &[b"spt: gr: byte ", number, b": ", name, letter, b"\n"],
    )
}

// Returns the number and the name of an error in a packed graph.
fn packed_name_of(kind: &PackedKind) -> &'static str
    ensures { result.now ≡ packed_name_of kind.now }
{
    match kind {
        PackedKind::OtherForm => "10 OtherForm",
        PackedKind::OutOfRange(_) => "5 OutOfRange ",
        PackedKind::OtherSum => "11 OtherSum",
        PackedKind::TooMany => "6 TooMany",
        PackedKind::TooFew => "7 TooFew",
        PackedKind::Memory => "8 Memory",
        PackedKind::Read => "9 Read",
    }
}

// Returns the letter of the word that is out of range, if the error has one.
fn packed_letter_of(kind: &PackedKind) -> &'static str
    ensures { result.now ≡ packed_letter_of kind.now }
{
    match kind {
        PackedKind::OutOfRange(PackedField::Vertices) => "N",
        PackedKind::OutOfRange(PackedField::Arcs) => "M",
        PackedKind::OutOfRange(PackedField::End) => "E",
        PackedKind::OutOfRange(PackedField::Head) => "V",
        PackedKind::OutOfRange(PackedField::Length) => "W",
        _ => "",
    }
}

// Writes these texts one after another.
fn write_texts<W: Write>(out: &mut W, texts: &[&[u8]]) -> Result<(), WriteFault>
    ensures { IsWritten W.Write (joined texts.now) out.old result out.new }
{
    for text in texts {
        write_all(out, text)?;
    }
    Ok(())
}
