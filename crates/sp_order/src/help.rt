//! The help texts of the program.
use sp_command::after_help;

/// What the program is.
pub const PROGRAM: &str = "A shortest-path tree engine";

/// The exit statuses of the program, how to start, and where the documentation is.
pub const PROGRAM_MORE: &str = after_help!(
    "\
A command reads its files and writes its result to standard output. One of the
files may be `-` for standard input. If a command fails, it reports the error on
standard error, in a line that scripts can parse. A second line may add more,
such as the system's reason or how to decompress a file.
`spt COMMAND --help` prints the full help of a command.
",
    statuses:
        0 "done"
        1 "the command line is wrong"
        2 "a file is refused"
        3 "check: the tree is not the shortest-path tree of its source"
        4 "tree, pairs, matrix, nearest: a vertex is too far (without --far-ok);\n     all else is written";
        "a file" "the output",
    example: "

Example:
  spt tree diamond.gr diamond.ss --delta 3 > diamond.tree
  spt check diamond.gr diamond.tree

Documentation: README.md and docs/ in the sources; the Debian package has the
pages for users in /usr/share/doc/spt. Python: `import spt`. The Python package
is in python/ in the sources; ./install and the Debian package install it
(docs/PYTHON.md)."
);
