//! The faults that stop a command, and the exit statuses.
ghost use Rattle.std.specs.Prelude.{◌≡◌, ◌≤◌, ◌⊎◌, false, IfOk, IfErr, OnOk, codes};
ghost use Rattle.sp_command.specs.Faults.{code_of, is_done, status_of};
ghost use Rattle.sp_command.specs.Causes.{StaysClosed, StaysClosedAfter};
ghost use Rattle.sp_command.specs.Lines.{place_of, word_of};
ghost use Rattle.sp_command.specs.Scene.{IsOpened};
ghost use Rattle.sp_command.specs.declared.faults.Fault.TheVariants.{CannotOpen, Input, InputTwice, Memory, WriteFailed};

use crate::inputs::Inputs;
use sp_device::WriteFault;
use sp_packed::{PackedFault, PackedKind};
use sp_text::{DimacsError, Kind};
use std::alloc::AllocError;
use std::fmt;

/// How a run of the program ended. Its number is the exit status.
#[derive(Clone, Copy, Debug, PartialEq, Eq)]
pub enum Status {
    /// The command was carried out.
    Done = 0,
    /// The words name no valid command.
    Usage = 1,
    /// An input was refused.
    Refused = 2,
    /// The tree is not the shortest-path tree of its source.
    CheckedNo = 3,
    /// For some source, or some pair, a vertex is too far.
    TooFar = 4,
    /// An allocation failed.
    Memory = 5,
    /// A file could not be opened or read, or the output could not be written.
    Failed = 6,
}

impl Status {
    /// Returns the exit status.
    pub fn code(self) -> u8
        ensures exact { result ≡ code_of self }
        ensures range { result ≤ 6 }
    {
        self as u8
    }
}

/// The role of a file in a command.
#[derive(Clone, Copy, Debug, PartialEq, Eq)]
pub enum FileKind {
    Graph,
    Sources,
    Targets,
    Pairs,
    Tree,
    Replay,
    Offers,
}

impl FileKind {
    /// Opens the file at its start.
    pub fn open<F: Inputs>(self, files: &F, path: &str) -> Result<F::File, Fault>
        ensures opened { IfOk result (IsOpened F.File.Read (F.files files.now) path.now) }
        ensures closed { IfErr result (StaysClosed (F.files files.now) self path.now) }
        ensures present { OnOk result ((F.files files.now).absent path.now ≡ false) }
    {
        match files.open_input(path) {
            Some(file) => Ok(file),
            None => Err(Fault::CannotOpen(self)),
        }
    }

    /// Opens a graph and then a file of this kind, each at its start. Standard input can be one of them.
    pub fn open_with_graph<F: Inputs>(
        self,
        files: &F,
        graph: &str,
        path: &str,
    ) -> Result<(F::File, F::File), Fault>
        ensures graph { IfOk result
            (λ both. IsOpened F.File.Read (F.files files.now) graph.now both.0) }
        ensures file { IfOk result
            (λ both. IsOpened F.File.Read (F.files files.now) path.now both.1) }
        ensures twice { graph.now ≡ codes "-" → path.now ≡ codes "-" → result ≡ Err InputTwice }
        ensures once { IfErr result
            (λ fault. fault ≡ InputTwice → (graph.now ≡ codes "-") × (path.now ≡ codes "-")) }
        ensures closed { IfErr result (λ fault. (fault ≡ InputTwice)
            ⊎ (StaysClosed (F.files files.now) FileKind.Graph graph.now fault
            ⊎ StaysClosedAfter (F.files files.now) graph.now self path.now fault)) }
        ensures present { OnOk result (((F.files files.now).absent graph.now ≡ false)
            × ((F.files files.now).absent path.now ≡ false)) }
    {
        if graph == "-" && path == "-" {
            return Err(Fault::InputTwice);
        }
        let gr = FileKind::Graph.open(files, graph)?;
        Ok((gr, self.open(files, path)?))
    }

    /// Returns the word for a file of this kind.
    pub fn word(self) -> &'static str
        ensures { result.now ≡ word_of self }
    {
        match self {
            FileKind::Graph => "gr",
            FileKind::Sources => "ss",
            FileKind::Targets => "targets",
            FileKind::Pairs => "pairs",
            FileKind::Tree => "tree",
            FileKind::Replay => "replay",
            FileKind::Offers => "offers",
        }
    }

    /// Returns where standard input appears in a command's words if it is this file and no list of targets follows it.
    pub fn place(self) -> &'static str
        ensures { result.now ≡ place_of self }
    {
        match self {
            FileKind::Graph => "- ..",
            FileKind::Sources | FileKind::Targets | FileKind::Pairs | FileKind::Tree => ".. -",
            FileKind::Replay | FileKind::Offers => "-",
        }
    }

    /// Returns the fault of a command if its file has this error.
    pub fn fault(self, error: DimacsError) -> Fault
        ensures { result ≡ Input self error }
    {
        Fault::Input { file: self, error }
    }
}

impl fmt::Display for FileKind {
    fn fmt<W: fmt::Write>(&self, f: &mut fmt::Formatter<W>) -> fmt::Result {
        f.write_str(self.word())
    }
}

/// Why a command failed.
#[derive(Debug, Drop)]
pub enum Fault {
    /// The words name no valid command.
    Usage(clap::Error),
    /// The delta is greater than the greatest distance of the layout.
    DeltaOutOfRange,
    /// The limit on distances is greater than the greatest distance of the layout.
    LimitOutOfRange,
    /// Standard input was named for two files.
    InputTwice,
    /// The output would replace this input file.
    OutputIsInput(FileKind),
    /// The places of sources aren't spelled as two numbers.
    NoPlaces,
    /// A file could not be opened.
    CannotOpen(FileKind),
    /// A file's text has an error, reading it failed, or there was no memory for its values.
    Input { file: FileKind, error: DimacsError },
    /// A packed graph has an error, reading it failed, or there was no memory for its words.
    Packed(PackedFault),
    /// A source or a target isn't a vertex of the graph.
    NoSuchVertex(u32, FileKind),
    /// A run has more steps than a picture can show.
    TooManySteps,
    /// The output isn't text, and would go to a terminal.
    ToTerminal,
    /// An allocation failed.
    Memory,
    /// Writing the output failed.
    WriteFailed,
    /// The output file could not be created, or could not be given its name.
    CannotWrite,
}

impl Fault {
    /// Returns the exit status.
    pub fn status(&self) -> Status
        ensures exact { result ≡ status_of self.now }
        ensures fails { is_done result ≡ false }
    {
        match self {
            Fault::Usage(_) => Status::Usage,
            Fault::DeltaOutOfRange | Fault::LimitOutOfRange => Status::Usage,
            Fault::InputTwice | Fault::NoPlaces | Fault::ToTerminal => Status::Usage,
            Fault::OutputIsInput(_) => Status::Usage,
            Fault::CannotOpen(_) | Fault::WriteFailed | Fault::CannotWrite => Status::Failed,
            Fault::Input { error, .. } => match error.kind {
                Kind::Memory => Status::Memory,
                Kind::Read => Status::Failed,
                _ => Status::Refused,
            },
            Fault::Packed(fault) => match fault.kind {
                PackedKind::Memory => Status::Memory,
                PackedKind::Read => Status::Failed,
                _ => Status::Refused,
            },
            Fault::NoSuchVertex(_, _) => Status::Refused,
            Fault::TooManySteps => Status::Refused,
            Fault::Memory => Status::Memory,
        }
    }
}

impl From<AllocError> for Fault {
    ghost from_gives = { λ _ fault. fault ≡ Memory };

    fn from(_error: AllocError) -> Self {
        Self::Memory
    }
}

impl From<WriteFault> for Fault {
    ghost from_gives = { λ _ fault. fault ≡ WriteFailed };

    fn from(_error: WriteFault) -> Self {
        Self::WriteFailed
    }
}
