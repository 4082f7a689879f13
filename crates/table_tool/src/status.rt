//! How a run ended, and the exit status of the program.
ghost use Rattle.std.specs.Prelude.{◌≡◌};
ghost use Rattle.table_tool.specs.Numbers.{status_number};

use bti_nodes::Damage;
use data_walk::Mismatch;
use script_text::LineCause;

/// How a run ended.
#[derive(Clone, Copy, Debug, PartialEq, Eq)]
pub enum Status {
    Ok,
    /// The words are no command, or a text in them isn't accepted.
    Usage,
    /// `key` can't show its list or string.
    Key,
    /// The first line of the script that isn't accepted, counted from 1, and its cause.
    BadLine(u32, LineCause),
    /// A shard had no room for the put of this line, the least of its batch for which one had none.
    Full(u32),
    /// The source failed.
    SourceFault,
    /// The sink failed.
    SinkFault,
    /// The store failed.
    StoreFault,
    /// A file of the table is not sound at a place that was read.
    Damaged(Damage),
    /// Schema.txt isn't there or isn't whole, so no load has ended here.
    Unfinished,
    /// A file of the table is there already.
    Exists,
    /// The script has over 67,108,864 bytes or 1,000,000 lines.
    TooLarge,
    /// The files of the table clash at a place.
    Unsound(Mismatch),
    NoMemory,
}

impl Status {
    /// The exit status of the program.
    pub fn number(&self) -> u8
        ensures { result ≡ status_number self.now }
    {
        match self {
            Status::Ok => 0,
            Status::Usage => 1,
            Status::Key => 1,
            Status::BadLine(_, _) => 2,
            Status::Full(_) => 3,
            Status::SourceFault => 4,
            Status::SinkFault => 5,
            Status::StoreFault => 6,
            Status::Damaged(_) => 7,
            Status::Unfinished => 8,
            Status::Exists => 9,
            Status::TooLarge => 10,
            Status::Unsound(_) => 11,
            Status::NoMemory => 12,
        }
    }
}
