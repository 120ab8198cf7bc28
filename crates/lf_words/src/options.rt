//! What the words of a command line ask for.

use lf_base::{Seq, Text};

/// What the words of a command line ask for.
#[derive(Drop)]
pub enum Options {
    /// A report on the named files, one or more.
    Lint {
        /// The number of workers, from 1 to 64.
        workers: u32,
        /// Whether the report is JSON, and not text.
        json: bool,
        /// Whether the report has the verdicts of labels.
        labels: bool,
        /// The names of the files, in their order.
        files: Seq<Text>,
    },
    /// The last lines of the report on a generated file.
    Gen {
        /// The size of the file, from 1 to 4000.
        n: u32,
    },
}
