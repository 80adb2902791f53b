//! Laws of what the jobs of a script see of a grid.

ghost use Rattle.std.specs.Prelude.{◌≡◌, ◌<◌, ◌≤◌, ℕ, List, ◌++◌, length, drop, flat_map, All};
ghost use Rattle.gm_base.specs.declared.edge.Edge.{Edge};
ghost use Rattle.gm_base.specs.Graph.{IsSameGraph};
ghost use Rattle.gm_label.specs.Catalogues.{Catalogue, chunk_numbers};
ghost use Rattle.gm_versions.specs.Snapshots.{IsSnapshotOver, content_of, edges_of};
ghost use Rattle.gm_versions.specs.Keys.{IsTakenFrom};
ghost use Rattle.gm_jobs.specs.JobBounds.{IsScriptOver, MakesSomeRound};
ghost use Rattle.gm_jobs.specs.StatedJobs.{StatedJob, jobs_of, updates_of};
ghost use Rattle.gm_scripts.specs.ScriptJobs.{IsScriptOverGrid, job_at, snapshot_of, snapshot_at, job_key, content_in_script};

use gm_jobs::Line;

/// A law: the number of a job is its place in the script, counted from 0.
pub fn jobs_are_numbered()
    ensures { (entries : List Line) (n : ℕ) → n < length (jobs_of entries) → (job_at entries n).number ≡ n }
{}

/// A law: the jobs of a script over n vertices see changes of these vertices alone, and no more than a script may have. Each makes a
/// round.
pub fn jobs_see_vertices()
    ensures vertices { (n : ℕ) (entries : List Line) → IsScriptOver n entries
        → All (λ (job : StatedJob). IsSnapshotOver n (snapshot_of job)) (jobs_of entries) }
    ensures rounds { (n : ℕ) (entries : List Line) → IsScriptOver n entries
        → All (λ (job : StatedJob). MakesSomeRound job.spec) (jobs_of entries) }
{}

/// A law: of all updates of a script a job sees those above its line. The updates are these and then others.
pub fn updates_above_suffice()
    ensures parts { (entries : List Line) (n : ℕ)
        → let above = (job_at entries n).above in updates_of entries
        ≡ above ++ drop (length above) (updates_of entries) }
    ensures taken { (entries : List Line) (n : ℕ) → n < length (jobs_of entries)
        → IsTakenFrom (updates_of entries) (snapshot_at entries) (snapshot_at entries n) }
{}

/// A law: the contents of a job's keys over all chunks, joined, are the same graph as its view: the grid after the updates above its line
/// and then its own changes. Chunk by chunk they are what the job sees. So two jobs that have one key of a chunk see the same edges of it.
pub fn contents_of_scripts()
    ensures joined { (cat : Catalogue) (edges : List Edge) (entries : List Line) (n : ℕ)
        → IsScriptOverGrid cat edges entries → n < length (jobs_of entries)
        → let content = content_in_script cat edges entries in
        IsSameGraph (flat_map (λ c. content (job_key cat entries n c)) (chunk_numbers cat))
        (edges_of edges (snapshot_at entries n)) }
    ensures content { (cat : Catalogue) (edges : List Edge) (entries : List Line) (n c : ℕ)
        → n < length (jobs_of entries)
        → content_in_script cat edges entries (job_key cat entries n c)
        ≡ content_of cat edges (snapshot_at entries n) c }
    ensures shared { (cat : Catalogue) (edges : List Edge) (entries : List Line) (n m c : ℕ)
        → n < length (jobs_of entries) → m < length (jobs_of entries)
        → job_key cat entries n c ≡ job_key cat entries m c
        → content_of cat edges (snapshot_at entries n) c ≡ content_of cat edges (snapshot_at entries m) c }
{}
