//! Readers of texts that come in pieces.
ghost use Rattle.std.specs.Prelude.{◌≡◌, ◌≤◌, ◌^◌, ◌++◌, ℕ, List, [], length, Err, Some};
ghost use Rattle.sp_text.specs.First.{fault_at_failure};
ghost use Rattle.sp_text.specs.Feeding.{IsBehind};
ghost use Rattle.sp_dimacs.specs.Reading.{IsBehindText, IsSpent, FedText, FinishedText};

use sp_text::{DimacsError, Feeder, LineTaker};

/// A reader of a text that comes in pieces. It reports the first fault of the text as soon as the bytes so far show it, and
/// returns the same fault from then on.
#[derive(Drop)]
pub struct TextReader<T> {
    feeder: Feeder<T>,
}

impl<T: LineTaker> TextReader<T> {
    /// Returns a reader that has read no text.
    pub(crate) fn of_taker(taker: T) -> Self
        requires { T.After taker [] }
        ensures { IsBehindText T.rules T.After [] result }
    {
        TextReader {
            feeder: Feeder::new(taker),
        }
    }

    /// Returns the part of the reader that is fed from a device.
    pub(crate) fn into_feeder(self) -> Feeder<T>
        ensures { (text : List ℕ) → IsBehindText T.rules T.After text self
            → IsBehind T.rules T.After text result }
    {
        let TextReader { feeder } = self;
        feeder
    }

    /// Takes the next piece of the text.
    pub fn feed(&mut self, piece: &[u8]) -> Result<(), DimacsError>
        ensures again { (e : DimacsError) → IsSpent e self.old
            → (result ≡ Err e) × (self.new ≡ self.old) }
        ensures fed { (text : List ℕ) → length (text ++ piece.now) ≤ 2 ^ 62
            → IsBehindText T.rules T.After text self.old
            → FedText T.rules T.After text piece.now result self.new }
    {
        self.feeder.feed(piece)
    }

    /// Ends the text. A reader that returns its value then starts a new text.
    pub fn finish(&mut self) -> Result<T::Value, DimacsError>
        ensures again { (e : DimacsError) → IsSpent e self.old
            → (result ≡ Err e) × (self.new ≡ self.old) }
        ensures finished { (text : List ℕ) → length text ≤ 2 ^ 62
            → IsBehindText T.rules T.After text self.old
            → FinishedText T.rules T.After T.Spelled text result self.new }
    {
        self.feeder.finish()
    }

    /// Reports a failure of the device to the reader. Returns the fault found earlier, or Read at the line being read.
    pub fn fail(&mut self) -> DimacsError
        ensures again { (e : DimacsError) → IsSpent e self.old
            → (result ≡ e) × (self.new ≡ self.old) }
        ensures failed { (text : List ℕ) → length text ≤ 2 ^ 62
            → IsBehindText T.rules T.After text self.old
            → (fault_at_failure T.rules text ≡ Some result) × IsSpent result self.new }
    {
        self.feeder.fail()
    }
}
