//! The commands of the program.
//!
//! Each command is a type in a file of its own, in this crate or in one below it, with its arguments, its help and what
//! it does. To add a command, write such a file, and add its type to `AnyCommand`. A command that runs a job in a graph
//! is written as its own part of `GraphCommand`.
use crate::graph_command::GraphCommand;
use crate::matrix::MatrixCommand;
use crate::nearest::NearestCommand;
use crate::pairs::PairsCommand;
use crate::tree::TreeCommand;
use sp_command::OneOf;
use sp_tools::{CheckCommand, OffersCommand, PackCommand, ReplayCommand};

/// A command of the program, with its options and the paths of its files. The commands are in the order of the help.
pub type AnyCommand<'a> = OneOf<
    GraphCommand<'a, TreeCommand<'a>>,
    OneOf<
        GraphCommand<'a, PairsCommand<'a>>,
        OneOf<
            GraphCommand<'a, MatrixCommand<'a>>,
            OneOf<
                GraphCommand<'a, NearestCommand<'a>>,
                OneOf<
                    CheckCommand<'a>,
                    OneOf<PackCommand<'a>, OneOf<ReplayCommand<'a>, OffersCommand<'a>>>,
                >,
            >,
        >,
    >,
>;
