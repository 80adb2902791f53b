//! Why a command ends without its whole output.

ghost use Rattle.std.specs.Prelude.{◌≡◌};
ghost use Rattle.gm_commands.specs.declared.failure.Failure.TheVariants.{OutOfMemory};

use gm_base::Memory;
use gm_edges::EdgeListRefusal;
use gm_grid::GridError;
use gm_jobs::JobsRefusal;
use gm_outside::Trouble;
use std::alloc::AllocError;

/// A file that a command names, by its word in the usage line.
#[derive(Clone, Copy, Debug, PartialEq, Eq)]
pub enum Operand {
    Edges,
    Grid,
    Jobs,
}

/// Why a file of a command is refused.
#[derive(Clone, Copy, Debug, PartialEq, Eq)]
pub enum Refusal {
    /// There is no such file.
    Missing(Operand),
    /// The grid's file is no grid.
    Grid(GridError),
    /// The file of edges is no edge list.
    EdgeList(EdgeListRefusal),
    /// The jobs' file is no job text.
    JobText(JobsRefusal),
}

impl Refusal {
    ghost use Rattle.std.specs.Prelude.{◌≡◌};
    ghost use Rattle.gm_commands.specs.Failures.{refused_operand, refusal_status};

    /// The program's status after it.
    pub fn status(self) -> u8
        ensures { result ≡ refusal_status self }
    {
        match self {
            Refusal::Missing(_) => 3,
            Refusal::Grid(_) | Refusal::EdgeList(_) => 4,
            Refusal::JobText(_) => 5,
        }
    }

    /// The file that is refused.
    pub fn operand(self) -> Operand
        ensures { result ≡ refused_operand self }
    {
        match self {
            Refusal::Missing(operand) => operand,
            Refusal::Grid(_) => Operand::Grid,
            Refusal::EdgeList(_) => Operand::Edges,
            Refusal::JobText(_) => Operand::Jobs,
        }
    }
}

/// Why a command ends without its whole output.
#[derive(Clone, Copy, Debug, PartialEq, Eq)]
pub enum Failure {
    /// A file is refused.
    Refused(Refusal),
    /// The depot failed at a file that is read.
    ReadFailed(Operand),
    /// The depot failed at a file that is written.
    WriteFailed(Operand),
    /// Standard output failed.
    OutputFailed,
    /// There was no memory.
    OutOfMemory,
}

impl Failure {
    ghost use Rattle.std.specs.Prelude.{◌≡◌};
    ghost use Rattle.gm_commands.specs.Failures.{status_of, operand_of, failed_by};

    /// The program's status after it.
    pub fn status(self) -> u8
        ensures { result ≡ status_of self }
    {
        match self {
            Failure::Refused(refusal) => refusal.status(),
            Failure::ReadFailed(_) | Failure::WriteFailed(_) => 6,
            Failure::OutputFailed => 7,
            Failure::OutOfMemory => 8,
        }
    }

    /// The file that its line names, if it names one.
    pub fn operand(self) -> Option<Operand>
        ensures { result ≡ operand_of self }
    {
        match self {
            Failure::Refused(refusal) => Some(refusal.operand()),
            Failure::ReadFailed(operand) | Failure::WriteFailed(operand) => Some(operand),
            Failure::OutputFailed | Failure::OutOfMemory => None,
        }
    }

    /// What it is that a call gave up: itself, or want of memory.
    pub fn by(self, trouble: Trouble) -> Failure
        ensures { result ≡ failed_by self trouble }
    {
        match trouble {
            Trouble::Failed => self,
            Trouble::Memory => Failure::OutOfMemory,
        }
    }
}

impl From<AllocError> for Failure {
    ghost from_gives = { λ _ failure. failure ≡ OutOfMemory };

    fn from(_error: AllocError) -> Failure {
        Failure::OutOfMemory
    }
}

impl From<Memory> for Failure {
    ghost from_gives = { λ _ failure. failure ≡ OutOfMemory };

    fn from(_error: Memory) -> Failure {
        Failure::OutOfMemory
    }
}
