use crate::histories::Histories;
use std::fmt;

/// How a run of the program ended. Lines count from 1.
#[derive(Clone, Copy, Debug, Drop)]
pub enum Status {
    /// The script was read to its `end`, and all was written.
    Ok,
    /// The words of the command line are none that the program has.
    BadWords,
    /// The first refused line is outside the grammar, or may not stand there.
    BadLine {
        /// Its number.
        line: u32,
    },
    /// The input failed.
    ReadFault,
    /// The output failed. What was written before is a front of the text.
    WriteFault,
    /// A number is over its limit: line 0 is the length of the input.
    Limit {
        /// The number of the line.
        line: u32,
    },
    /// Memory ran out.
    Memory,
}

impl Status {
    ghost use Rattle.std.specs.Prelude.{◌≡◌};
    ghost use Rattle.pgs_top.specs.Ends.{status_number};

    /// The exit status of the process.
    pub fn number(self) -> u8
        ensures { result ≡ status_number self }
    {
        match self {
            Status::Ok => 0,
            Status::BadWords => 2,
            Status::BadLine { .. } => 3,
            Status::ReadFault => 4,
            Status::WriteFault => 5,
            Status::Limit { .. } => 6,
            Status::Memory => 7,
        }
    }
}

impl fmt::Display for Status {
    ghost use Rattle.std.specs.Prelude.{Some};
    ghost use Rattle.pgs_top.specs.Ends.{status_text};

    ghost output = { λ status. Some (status_text status) };

    fn fmt<W: fmt::Write>(&self, f: &mut fmt::Formatter<W>) -> fmt::Result {
        match self {
            Status::Ok => write!(f, "Ok"),
            Status::BadWords => write!(f, "BadWords"),
            Status::BadLine { line } => write!(f, "BadLine {line}"),
            Status::ReadFault => write!(f, "ReadFault"),
            Status::WriteFault => write!(f, "WriteFault"),
            Status::Limit { line } => write!(f, "Limit {line}"),
            Status::Memory => write!(f, "Memory"),
        }
    }
}

/// How a run ended, and what happened in it.
#[derive(Drop)]
pub struct Ended {
    /// How it ended.
    pub status: Status,
    /// What happened. Nothing, where nothing ran.
    pub kept: Histories,
}
