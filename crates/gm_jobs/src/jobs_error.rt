//! Why a text is refused.

ghost use Rattle.std.specs.Prelude.{◌≡◌, ◌≤◌, length};

/// Why a line of a job text is refused.
#[derive(Clone, Copy, Debug, PartialEq, Eq)]
pub enum Why {
    /// Its first word begins no line, or another one is none of those that may stand there.
    UnknownWord,
    /// There is no job, or no update, above it that the line could belong to.
    OutOfPlace,
    /// It ends where a word is wanted.
    Short,
    /// A word stands where it should end.
    Extra,
    /// The word isn't a [`gm_base::Name`].
    BadName,
    /// A job above it has the name.
    NameTwice,
    /// The word is no number, or none of those that may stand there.
    BadNumber,
    /// The number is no vertex.
    NoVertex,
}

impl Why {
    /// The reason as people read it.
    pub fn text(self) -> &'static str
        ensures value { result.now ≡ text_of self }
        ensures short { length result.now ≤ 20 }
    {
        match self {
            Why::UnknownWord => "unknown word",
            Why::OutOfPlace => "out of place",
            Why::Short => "line too short",
            Why::Extra => "line too long",
            Why::BadName => "bad name",
            Why::NameTwice => "name used twice",
            Why::BadNumber => "bad number",
            Why::NoVertex => "no such vertex",
        }
    }

    ghost use Rattle.gm_jobs.specs.JobsErrors.{text_of};
}

/// Why a text is no job text: it's too long, or its first refused line. Lines are counted from 1.
#[derive(Clone, Copy, Debug, PartialEq, Eq)]
pub enum JobsRefusal {
    /// The text has so many bytes, more than [`crate::MAX_TEXT_BYTES`]. No line was looked at.
    TooLong { bytes: u64 },
    /// The line is none of those that may stand there.
    BadLine { line: u32, why: Why },
    /// The line's job is one more than [`crate::MAX_JOBS`].
    TooManyJobs { line: u32 },
    /// The line is one more than [`gm_base::MAX_CHANGES`] that update or change a graph.
    TooManyChanges { line: u32 },
}

/// Why a reader gives no script: the text's refusal, or want of memory.
#[derive(Clone, Copy, Debug, PartialEq, Eq)]
pub enum JobsError {
    /// As [`JobsRefusal::TooLong`].
    TooLong { bytes: u64 },
    /// As [`JobsRefusal::BadLine`].
    BadLine { line: u32, why: Why },
    /// As [`JobsRefusal::TooManyJobs`].
    TooManyJobs { line: u32 },
    /// As [`JobsRefusal::TooManyChanges`].
    TooManyChanges { line: u32 },
    /// There was no memory for the script.
    Memory,
}

impl JobsError {
    ghost use Rattle.gm_jobs.specs.JobsErrors.{refusal_of};

    /// The text's refusal. `None` exactly where memory ran out.
    pub fn refusal(self) -> Option<JobsRefusal>
        ensures { result ≡ refusal_of self }
    {
        match self {
            JobsError::TooLong { bytes } => Some(JobsRefusal::TooLong { bytes }),
            JobsError::BadLine { line, why } => Some(JobsRefusal::BadLine { line, why }),
            JobsError::TooManyJobs { line } => Some(JobsRefusal::TooManyJobs { line }),
            JobsError::TooManyChanges { line } => Some(JobsRefusal::TooManyChanges { line }),
            JobsError::Memory => None,
        }
    }
}
