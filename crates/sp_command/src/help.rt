//! Help texts that several commands share.

/// Builds the end of a help text: an introduction, the kinds of errors in a file's lines (including the command's own),
/// further information, and the exit statuses (including the command's own). The exit statuses name what the command
/// reads and writes.
#[macro_export]
macro_rules! after_help {
    (
        $text:literal,
        $(faults: $fault:literal,)?
        $(others: $others:literal,)?
        statuses: $($status:literal $meaning:literal)*; $read:literal $written:literal
        $(, example: $example:literal)?
    ) => {
        concat!(
            $text,
            $("  1 LongLine       a line has more than 1024 bytes
  2 BadLine        a line has none of the forms above
  3 NoProblem      a line comes before the p line, or there is no p line
  4 SecondProblem  a second p line
  5 OutOfRange V   a field is out of range; the letter names the field
", $fault, "  8 Memory         there is not enough memory for a line (exit status 5)
  9 Read           reading failed (exit status 6)
",)?
            $($others,)?
            "\nExit status:\n",
            $("  ", $status, "  ", $meaning, "\n",)*
            "  5  there is not enough memory\n",
            "  6  ", $read, " could not be opened or read, or ", $written, " could not be written"
            $(, $example)?
        )
    };
}
