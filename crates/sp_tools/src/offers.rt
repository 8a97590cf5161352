//! `spt offers`: makes the offers of several actors on threads.
ghost use Rattle.std.specs.Prelude.{◌≡◌, codes};
ghost use Rattle.sp_tools.specs.OffersAnswers.{OffersAnswers, offers_paths};
ghost use Rattle.sp_tools.specs.Early.{no_faults};
ghost use Rattle.sp_tools.specs.Words.{IsOffers, LacksFile, offers_rules};

use clap::{ArgMatches, Error};
use sp_command::{
    BuiltCommand, Command, Fault, FileKind, Inputs, Runnable, Status, after_help, file,
};
use sp_device::Write;
use sp_replay::{final_words, read_offers, write_words};
use std::alloc::Global;
use std::sync::Wait;
use std::thread::Threads;

/// The arguments of `offers`, with the path of its file.
#[derive(Drop)]
pub struct OffersCommand<'a> {
    /// The path of the file.
    pub file: &'a str,
}

impl<'a> Command<'a> for OffersCommand<'a> {
    ghost spelled = { codes "offers" };

    ghost rules = { offers_rules };

    ghost reads = { IsOffers };

    ghost lacks = { LacksFile };

    ghost paths = { offers_paths };

    const ABOUT: &'static str =
        "Make the offers of several actors at once and write the final words";

    const LONG_ABOUT: &'static str = "\
Make the offers of several actors at once and write the final words

A word of the table is unreached, or holds a distance and a predecessor. An
offer of a pair leaves the lesser of the two, by distance, then by predecessor.
Each actor has its own thread, and no thread waits for another's offers. The
final words are the same whatever the order of the offers.";

    const AFTER_HELP: &'static str = after_help!(
        "\
The file has lines of these forms, with their fields separated by blanks:
  p off N K    there are N words, 1 to 65536, and K actors, 1 to 64; it comes
               first, and only once
  o A V D P    actor A, 1 to K, offers distance D and predecessor P to word V, 1
               to N
  c ...        a comment; so is a blank line
Each actor makes its offers in the order of the file. There are at most 1048576
offers. All words start unreached.

The output has a line for each word that is reached, in ascending order of V,
and then their number:
  w V D P      word V holds distance D and predecessor P
  e R          the number of w lines is R

Example: if the file offers.off has the lines
  p off 1 2
  o 1 1 9 1
  o 1 1 7 4
  o 2 1 7 2
  o 2 1 8 3
the output of `spt offers offers.off` is
  w 1 7 2
  e 1

An error in the file is reported with its line, as in
`spt: offers: line 2: 5 OutOfRange A`:
",
        faults: "  6 TooMany        there are too many offers\n",
        others: "\
`spt: output is an input` means that -o names the file (exit status 1).
",
        statuses:
            0 "done"
            1 "the command line is wrong"
            2 "the file is refused";
            "the file" "the output"
    );

    fn word() -> &'static str
        ensures { result.now ≡ codes "offers" }
    {
        "offers"
    }

    fn add_arguments(command: clap::Command<'a>, alloc: Global) -> BuiltCommand<'a> {
        command.arg(file(alloc, "FILE", "The offers file"))
    }

    fn read(_alloc: Global, given: &ArgMatches<'a>) -> Result<Option<Self>, Error> {
        let Some(file) = given.get_str("FILE") else {
            return Ok(None);
        };
        Ok(Some(OffersCommand { file }))
    }

    fn path_of(&self, file: FileKind) -> Option<&'a str> {
        match file {
            FileKind::Offers => Some(self.file),
            _ => None,
        }
    }
}

impl<const P: u32> Runnable<P> for OffersCommand<'_> {
    ghost answers = { OffersAnswers P };

    ghost paths = { offers_paths };

    ghost own_faults = { λ _. no_faults };

    fn run<R: Threads + Wait + Sync, F: Inputs, W: Write>(
        &self,
        rt: &R,
        alloc: Global,
        files: &F,
        out: &mut W,
    ) -> Result<Status, Fault> {
        let mut reader = FileKind::Offers.open(files, self.file)?;
        let programme = match read_offers::<P, _>(alloc, &mut reader) {
            Ok(programme) => programme,
            Err(error) => return Err(FileKind::Offers.fault(error)),
        };
        let words = final_words::<P, R>(rt, alloc, &programme)?;
        write_words::<P, W>(&words, out)?;
        Ok(Status::Done)
    }
}
