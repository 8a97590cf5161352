//! The path for an output file, and the temporary file that is written until it is complete.
ghost use Rattle.std.specs.Prelude.{◌≡◌, IfOk, OnErr, OnOk};
ghost use Rattle.sp_command.specs.Outputs.{IsBlank};
ghost use Rattle.sp_disk.specs.Made.{one_more};

use crate::sink::UnfinishedFile;
use crate::status::FileStatus;
use crate::system::{Part, System};
use std::alloc::{AllocError, Global};
use std::io;
use std::io::ErrorKind;
use std::path::PathBuf;
use std::process::{self, Process};
use std::random::RandomSource;
use std::rt::Clock;

// The system follows at most this many links.
const MOST_LINKS: usize = 40;

// The greatest number of names that are tried.
const MOST_NAMES: usize = 16;

// The bits of a mode for the rights to read, write and run a file. A new file gets all of them except the rights to run
// it, as far as the user's mask allows.
const RIGHTS: u32 = 0o777;

const NEW_RIGHTS: u32 = 0o666;

const OWN_RIGHTS: u32 = 0o700;

/// Where a file goes, and what that path holds now.
#[derive(Drop)]
pub struct Destination {
    path: String,
    replaced: Option<FileStatus>,
}

impl Destination {
    /// Returns where a path leads. The result is `None` if something other than a regular file is there, or if no file
    /// can be there.
    pub fn of<S: System>(
        system: &S,
        alloc: Global,
        path: &str,
    ) -> Result<Option<Self>, AllocError> {
        match system.status(path) {
            Ok(Some(found)) => Self::of_file(system, alloc, path, found),
            Err(error) if error.kind() == ErrorKind::NotFound => Self::missing(system, alloc, path),
            _ => Ok(None),
        }
    }

    // Returns where an existing file is, after all links.
    fn of_file<S: System>(
        system: &S,
        alloc: Global,
        path: &str,
        found: FileStatus,
    ) -> Result<Option<Self>, AllocError> {
        let path = match system.canonicalize(path) {
            Ok(path) => path.into_string(),
            Err(error) if error.kind() == ErrorKind::OutOfMemory => return Err(AllocError),
            Err(_) if system.is_link(path) => return Ok(None),
            Err(_) => String::from_str(alloc, path)?,
        };
        let replaced = Some(found);
        Ok(Some(Destination { path, replaced }))
    }

    // Returns where a missing file goes. If the path is a link to a missing file, the file goes where the link leads,
    // so that the link stays.
    fn missing<S: System>(
        system: &S,
        alloc: Global,
        path: &str,
    ) -> Result<Option<Self>, AllocError> {
        let mut place = PathBuf::from_str(alloc, path)?;
        for _ in 0..MOST_LINKS {
            match system.read_link(place.as_str()) {
                Ok(next) => {
                    place.pop();
                    place.push(next)?;
                }
                Err(error) if error.kind() == ErrorKind::OutOfMemory => return Err(AllocError),
                Err(_) => break,
            }
        }
        let path = place.into_string();
        if path.is_empty() || path.ends_with('/') || system.is_link(&path) {
            return Ok(None);
        }
        let replaced = None;
        Ok(Some(Destination { path, replaced }))
    }

    /// Makes a file in the folder of the destination, with a name that isn't in use. Only users who may read the file
    /// that it replaces may read it.
    pub fn begin<R: RandomSource + Clock, S: System>(
        self,
        rt: &R,
        system: &mut S,
        alloc: Global,
        process: Process,
    ) -> io::Result<UnfinishedFile<S::Part>>
        ensures place { IfOk result (λ file. file.place ≡ self.path) }
        ensures blank { IfOk result (λ file. IsBlank (S.Part.written file.part)) }
        ensures begun { OnOk result (S.made system.new ≡ one_more (S.made system.old)) }
        ensures none { OnErr result (S.made system.new ≡ S.made system.old) }
        ensures found { S.found system.new ≡ S.found system.old }
    {
        let mode = match &self.replaced {
            Some(replaced) => replaced.mode & OWN_RIGHTS,
            None => NEW_RIGHTS,
        };
        for _ in 0..MOST_NAMES {
            let path = part_name(rt, alloc, process, &self.path)?;
            match system.make(path, mode) {
                Ok(part) => {
                    if let Some(replaced) = &self.replaced {
                        take_after(system, &part, replaced);
                    }
                    let place = self.path;
                    return Ok(UnfinishedFile { part, place });
                }
                Err(error) if error.kind() == ErrorKind::AlreadyExists => {}
                Err(error) => return Err(error),
            }
        }
        Err(ErrorKind::AlreadyExists.into())
    }
}

// Returns a name in the folder of a place. It contains the number of the process, which distinguishes it from the names
// of other processes.
fn part_name<R: RandomSource + Clock>(
    rt: &R,
    alloc: Global,
    process: Process,
    place: &str,
) -> io::Result<String> {
    let (folder, slash) = match place.rsplit_once('/') {
        Some((folder, _)) => (folder, "/"),
        None => ("", ""),
    };
    let id = process::id(process);
    let digits = digits(rt)?;
    Ok(format!(in alloc; "{folder}{slash}.spt-{id}-{digits:016x}.part")?)
}

// Returns a number that another run has only by chance.
fn digits<R: RandomSource + Clock>(rt: &R) -> io::Result<u64> {
    let mut bytes = [0u8; 8];
    if rt.fill_bytes(&mut bytes).is_ok() {
        return Ok(u64::from_le_bytes(bytes));
    }
    let time = rt.since_1970()?;
    Ok(time.as_secs() ^ u64::from(time.subsec_nanos()) << 32)
}

// Gives a new file the owner, the group and the rights of the file that it replaces, as far as the user may do so, and
// no further rights.
fn take_after<S: System>(system: &S, part: &S::Part, replaced: &FileStatus) {
    let mut rights = replaced.mode & RIGHTS;
    if !has_group_of(system, part, replaced) {
        // Members of the old group now count as others, and members of the new group counted as others before.
        let shared = rights >> 3 & rights & 0o007;
        rights = rights & OWN_RIGHTS | shared << 3 | shared;
    }
    let _ = part.set_mode(rights);
}

// Gives a new file the owner and the group of another, as far as the user may do so, and returns whether it has that
// group.
fn has_group_of<S: System>(system: &S, part: &S::Part, replaced: &FileStatus) -> bool {
    let (owner, group) = (Some(replaced.owner), Some(replaced.group));
    if system.chown(part, owner, group).is_err() {
        let _ = system.chown(part, None, group);
    }
    match part.status() {
        Ok(own) => own.group == replaced.group,
        Err(_) => false,
    }
}
