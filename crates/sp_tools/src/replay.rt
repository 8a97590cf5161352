//! `spt replay`: runs a replay file, and writes its report or its picture.
ghost use Rattle.std.specs.Prelude.{◌≡◌, ◌≢◌, ◌<◌, ◌≤◌, ◌⊎◌, ◌↔◌, length, All, IfOk, IfErr, codes};
ghost use Rattle.sp_command.specs.declared.faults.Fault.TheVariants.{Memory, TooManySteps, WriteFailed};
ghost use Rattle.sp_machine.specs.Programme.{IsNumber};
ghost use Rattle.sp_tools.specs.ReplayAnswers.{IsPictureOf, ReplayAnswers, replay_paths, replay_faults};
ghost use Rattle.sp_tools.specs.Words.{IsReplay, LacksFile, replay_rules};

use clap::{ArgMatches, Error};
use sp_command::{
    BuiltCommand, Command, Fault, FileKind, Inputs, Runnable, Status, after_help, file, flag,
};
use sp_device::Write;
use sp_picture::{NoPicture, Picture, picture_of, write_picture};
use sp_replay::{ReplayFile, read_replay, write_report};
use std::alloc::Global;
use std::sync::Wait;
use std::thread::Threads;

/// The arguments of `replay`: the path of its file, and whether a picture is written instead of the report.
#[derive(Drop)]
pub struct ReplayCommand<'a> {
    /// The path of the file.
    pub file: &'a str,
    /// Whether a picture is written.
    pub svg: bool,
}

impl<'a> Command<'a> for ReplayCommand<'a> {
    ghost spelled = { codes "replay" };

    ghost rules = { replay_rules };

    ghost reads = { IsReplay };

    ghost lacks = { LacksFile };

    ghost paths = { replay_paths };

    const ABOUT: &'static str = "Run the steps of several actors in a given order and report them";

    const LONG_ABOUT: &'static str = "\
Run the steps of several actors in a given order and report them

The actors share one table of words. A word of the table is unreached, or holds
a distance and a predecessor. A call by an actor reads a word, or offers a pair
to a word, which keeps the lesser of the two, or relaxes an arc: it reads the
tail's word, and offers the sum to the head. A step is one load of a word or one
exchange. An exchange is lost if another actor has changed the word since it was
loaded.";

    const AFTER_HELP: &'static str = after_help!(
        "\
The file has lines of these forms, with their fields separated by blanks:
  p rep N K    there are N words, 1 to 65536, and K actors, 1 to 64; it comes
               first, and only once
  i V D P      word V, 1 to N, starts with distance D and predecessor P; the
               others start unreached
  o A V D P    a call: actor A, 1 to K, offers distance D and predecessor P to
               word V
  r A V        a call: actor A reads word V
  a A U V L    a call: actor A relaxes an arc from U to V of length L, 1 to
               4294967295
  s A          a step of actor A
  c ...        a comment; so is a blank line
Each actor makes its calls in the order of the file. The steps are made in the
order of the s lines, whatever lines are between them. There are at most 1048576
calls and 16777216 steps.

The report has a line for each call that ended, where F and L are the numbers of
its first and last step, and then the words at the end. The read and the offer
of a relaxation have a line each.
  o A V D P REPLY F L    shorter: the distance decreased; smaller: only the
                         predecessor decreased; kept: the word was no greater
                         than the offer
  r A V D P F L          the read found distance D and predecessor P
  r A V none F L         the read found unreached
  w V D P                word V at the end, unless it is unreached
  t WINS LOSSES          how many exchanges were won and how many were lost
  closed yes             each arc of an a line whose tail is reached was relaxed
                         from the tail's last distance; otherwise closed no

Example: if the file lost_exchange.rep has the lines
  p rep 1 2
  o 1 1 5 3
  o 2 1 5 2
  s 1
  s 2
  s 1
  s 2
  s 2
both actors load the word, actor 1 wins its exchange, and actor 2 loses one and
then wins one. The report of `spt replay lost_exchange.rep` is
  o 1 1 5 3 shorter 1 3
  o 2 1 5 2 smaller 2 5
  w 1 5 2
  t 2 1
  closed yes

With --svg an SVG picture of the run is written instead of the report: a lane
for each word that a step looks at and for each actor, a bar for each call that
ended, and a mark for each step. A lost exchange is tied to the store that beat
it, and to the load whose word it expected. A picture shows at most 60 steps.

An error in the file is reported with its line, as in
`spt: replay: line 2: 5 OutOfRange V`:
",
        faults: "  6 TooMany        there are too many calls or steps\n",
        others: "\
Other errors are
  spt: replay: cannot open           (exit status 6)
  spt: output is an input            -o names the file (exit status 1)
  spt: replay: more than 60 steps    with --svg; nothing is written
                                     (exit status 2)
",
        statuses:
            0 "done"
            1 "the command line is wrong"
            2 "the file is refused";
            "the file" "the output"
    );

    fn word() -> &'static str
        ensures { result.now ≡ codes "replay" }
    {
        "replay"
    }

    fn add_arguments(command: clap::Command<'a>, alloc: Global) -> BuiltCommand<'a> {
        let svg = "Write an SVG picture of the run instead of the report";
        command
            .arg(file(alloc, "FILE", "The replay file"))?
            .arg(flag(alloc, "svg", svg))
    }

    fn read(_alloc: Global, given: &ArgMatches<'a>) -> Result<Option<Self>, Error> {
        let Some(file) = given.get_str("FILE") else {
            return Ok(None);
        };
        let svg = given.get_flag("svg");
        Ok(Some(ReplayCommand { file, svg }))
    }

    fn path_of(&self, file: FileKind) -> Option<&'a str> {
        match file {
            FileKind::Replay => Some(self.file),
            _ => None,
        }
    }
}

impl<const P: u32> Runnable<P> for ReplayCommand<'_> {
    ghost answers = { ReplayAnswers P };

    ghost paths = { replay_paths };

    ghost own_faults = { replay_faults };

    fn run<R: Threads + Wait + Sync, F: Inputs, W: Write>(
        &self,
        _rt: &R,
        alloc: Global,
        files: &F,
        out: &mut W,
    ) -> Result<Status, Fault> {
        let mut reader = FileKind::Replay.open(files, self.file)?;
        let file = match read_replay::<P, _>(alloc, &mut reader) {
            Ok(file) => file,
            Err(error) => return Err(FileKind::Replay.fault(error)),
        };
        if self.svg {
            let picture = picture_in::<P>(alloc, &file)?;
            write_picture::<P, W>(&picture, out)?;
            return Ok(Status::Done);
        }
        let report = sp_machine::replay::<P>(alloc, &file.programme, &file.steps)?;
        write_report::<P, W>(&report, out)?;
        Ok(Status::Done)
    }
}

// Returns the fault of a command whose run has no picture.
fn fault_of(error: NoPicture) -> Fault
    ensures steps { (result ≡ TooManySteps) ↔ (error ≡ NoPicture.TooManySteps) }
    ensures memory { (result ≡ Memory) ↔ (error ≡ NoPicture.Memory) }
    ensures unwritten { result ≢ WriteFailed }
{
    match error {
        NoPicture::TooManySteps => Fault::TooManySteps,
        NoPicture::Memory => Fault::Memory,
    }
}

// Returns the picture of the run of a file's steps.
fn picture_in<const P: u32>(alloc: Global, file: &ReplayFile<P>) -> Result<Picture<P>, Fault>
    requires { All (IsNumber file.now.programme.actors) file.now.steps.items }
    ensures picture { IfOk result (IsPictureOf file.now.programme file.now.steps.items) }
    ensures few { IfOk result (λ _. length file.now.steps.items ≤ 60) }
    ensures many { IfErr result (λ fault. (fault ≡ Memory)
        ⊎ ((fault ≡ TooManySteps) × (60 < length file.now.steps.items))) }
{
    match picture_of::<P>(alloc, &file.programme, &file.steps) {
        Ok(picture) => Ok(picture),
        Err(error) => Err(fault_of(error)),
    }
}
