//! The program `spt`, on the system that it was started by.
#![tactic(auto)]

use sp_disk::{Disk, FileNotes, Host};
use sp_program::run_program;
use std::fs;
use std::process::ExitCode;

fn main(rt: HostRuntime) -> ExitCode {
    // The number of a closed stream would be that of the next file that is opened, so that messages would go into an output. Folders
    // take such numbers instead: nothing can be read from a folder or written to it.
    let _held = [fs::open(&rt, "/"), fs::open(&rt, "/"), fs::open(&rt, "/")];
    let notes = FileNotes::new();
    let host = Host {
        rt: &rt,
        stdin: rt.stdin(),
        stdout: rt.stdout(),
        stderr: rt.stderr(),
    };
    let mut disk = Disk::new(&rt, host, rt.process(), &notes);
    ExitCode::from(run_program(&mut disk).status)
}
