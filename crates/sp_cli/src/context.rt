//! The environment of a command's job: the files that its words name, and the listener for its progress.
ghost use Rattle.std.specs.Prelude.{◌≡◌, ℕ, true, false, List, Some, IfOk, IfErr, OnOk, codes};
ghost use Rattle.sp_command.specs.Causes.{StaysClosed};
ghost use Rattle.sp_command.specs.Scene.{IsOpened};
ghost use Rattle.sp_command.specs.declared.faults.Fault.TheVariants.{CannotOpen};
ghost use Rattle.sp_options.specs.Sources.{path_of};
ghost use Rattle.sp_cli.specs.Told.{IsOpenedList, LackPlaces};

use sp_command::{Fault, FileKind, Inputs};
use sp_device::{Peeked, Read};
use sp_jobs::{BucketWidth, Listing, Settings};
use sp_network::Direction;
use sp_options::{ProgressReporter, Sources, Watched};
use sp_word::Workers;

/// Returns what a job answers with the handle that its settings ask for. If there is one worker, this is the calling
/// thread alone, which waits for no other thread; otherwise it is the runtime, whose threads may wait for one another.
#[macro_export]
macro_rules! by_handle {
    ($rt:ident, $settings:ident, $handle:ident => $answer:expr) => {{
        if $settings.workers.get() == 1 {
            let $handle = &sp_word::Alone::new($rt);
            return $answer;
        }
        let $handle = &$rt;
        $answer
    }};
}

/// The files of a command line, the path of the graph and the direction of its arcs, the greatest distance to report
/// (if there is a limit), the greatest number of threads, and the reporter for the progress.
pub struct CommandContext<'a, F> {
    pub graph: &'a str,
    pub direction: Direction,
    pub files: &'a F,
    pub reporter: &'a ProgressReporter<'a, F>,
    pub limit: Option<u64>,
    pub workers: Workers,
}

impl<F> Drop for CommandContext<'_, F> {
    fn drop(self) {
        let CommandContext {
            graph: _,
            direction: _,
            files: _,
            reporter: _,
            limit: _,
            workers: _,
        } = self;
    }
}

impl<'a, F: Inputs> CommandContext<'a, F> {
    /// Returns the settings of a job whose buckets have this width.
    pub fn settings<const P: u32>(
        &self,
        width: BucketWidth<P>,
    ) -> Settings<'a, P, ProgressReporter<'a, F>>
        ensures { result.direction ≡ self.now.direction }
    {
        Settings {
            direction: self.direction,
            width,
            workers: self.workers,
            listener: self.reporter,
        }
    }

    /// Opens a file at its start, as a device that reports how much of it has been read.
    pub fn open(&self, kind: FileKind, path: &str) -> Result<Watched<'a, 'a, F::File, F>, Fault>
        ensures opened { IfOk result
            (IsOpened ⟦<Watched<'static, 'static, F::File, F> as Read>⟧
            (F.files self.now.files.now) path.now) }
        ensures closed { IfErr result (StaysClosed (F.files self.now.files.now) kind path.now) }
        ensures present { OnOk result ((F.files self.now.files.now).absent path.now ≡ false) }
    {
        let file = kind.open(self.files, path)?;
        Ok(Watched::new(file, kind, self.reporter))
    }

    /// Opens the graph at its start, as such a device, so that its first byte can show the form of the file.
    pub fn open_graph(&self) -> Result<Peeked<Watched<'a, 'a, F::File, F>>, Fault>
        ensures opened { IfOk result
            (IsOpened ⟦<Peeked<Watched<'static, 'static, F::File, F>> as Read>⟧
            (F.files self.now.files.now) self.now.graph.now) }
        ensures closed { IfErr result
            (StaysClosed (F.files self.now.files.now) FileKind.Graph self.now.graph.now) }
        ensures present { OnOk result
            ((F.files self.now.files.now).absent self.now.graph.now ≡ false) }
    {
        Ok(Peeked::new(self.open(FileKind::Graph, self.graph)?))
    }

    /// Opens a list at its start, if it is in a file.
    pub fn open_list<'l>(
        &self,
        kind: FileKind,
        list: &'l Sources<'_>,
    ) -> Result<Listing<'l, Watched<'a, 'a, F::File, F>>, Fault>
        ensures opened { IfOk result
            (IsOpenedList ⟦<Watched<'static, 'static, F::File, F> as Read>⟧
            (F.files self.now.files.now) list.now) }
        ensures closed { IfErr result (λ fault. (fault ≡ CannotOpen kind) × ((path : List ℕ)
            × (path_of list.now ≡ Some path)
            × ((F.files self.now.files.now).opens path ≡ false))) }
        ensures present { OnOk result ((path : List ℕ) → path_of list.now ≡ Some path
            → (F.files self.now.files.now).absent path ≡ false) }
    {
        match list {
            Sources::File(path) => Ok(Listing::InText(self.open(kind, path)?, None)),
            Sources::Part(path, places) => Ok(Listing::InText(self.open(kind, path)?, *places)),
            Sources::Given(given) => Ok(Listing::These(&given.list)),
        }
    }
}

/// Returns whether the word for the places of a list is invalid.
pub fn lacks_places(list: &Sources<'_>) -> bool
    ensures lacking { result ≡ true → LackPlaces list.now }
    ensures none { result ≡ false → ¬ (LackPlaces list.now) }
{
    match list {
        Sources::Part(_, places) => places.is_none(),
        Sources::File(_) | Sources::Given(_) => false,
    }
}

/// Returns whether a list is read from standard input.
pub fn is_input(list: &Sources<'_>) -> bool
    ensures { result ≡ true → path_of list.now ≡ Some (codes "-") }
{
    match list {
        Sources::File(path) | Sources::Part(path, _) => *path == "-",
        Sources::Given(_) => false,
    }
}
