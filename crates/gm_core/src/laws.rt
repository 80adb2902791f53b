//! Laws of the work of a script's jobs over a grid.

ghost use Rattle.std.specs.Prelude.{ℕ, ◌<◌, ◌≤◌, List, length};
ghost use Rattle.gm_base.specs.declared.edge.Edge.{Edge};
ghost use Rattle.gm_base.specs.declared.job.Spec.{Spec};
ghost use Rattle.gm_base.specs.declared.limits.TheConstants.{MAX_EDGES};
ghost use Rattle.gm_base.specs.Dimensions.{AreDimensions};
ghost use Rattle.gm_base.specs.Graph.{IsGraph};
ghost use Rattle.gm_label.specs.Catalogues.{Catalogue, IsOver};
ghost use Rattle.gm_versions.specs.Snapshots.{Snapshot, IsSnapshotOver};
ghost use Rattle.gm_jobs.specs.StatedJobs.{jobs_of};
ghost use Rattle.gm_scripts.specs.ScriptJobs.{IsScriptOverGrid};
ghost use Rattle.gm_work.specs.Views.{IsCutIntoChunks};
ghost use Rattle.gm_core.specs.SnapshotViews.{snapshot_view, job_view};
ghost use Rattle.gm_core.specs.ScriptWorks.{IsJobMidRound, works_of};
ghost use Rattle.gm_machine.specs.JobWorks.{Laws};

use gm_jobs::Line;
use gm_work::laws::{
    begins, determined, owed_chunks, passes, turns, turns_lead_on, weight_is_left,
};

/// A law: what a job sees of a grid's chunks is its view of the graph, cut into them. So it is for each job of a script.
pub fn views_are_cut()
    ensures view { (spec : Spec) (cat : Catalogue) (edges : List Edge) (s : Snapshot)
        → AreDimensions cat.dimensions.n cat.dimensions.parts → IsGraph cat.dimensions.n edges
        → length edges ≤ MAX_EDGES → IsOver cat edges → IsSnapshotOver cat.dimensions.n s
        → IsCutIntoChunks (snapshot_view spec cat edges s) }
    ensures job { (cat : Catalogue) (edges : List Edge) (entries : List Line) (n : ℕ)
        → IsScriptOverGrid cat edges entries → n < length (jobs_of entries)
        → IsCutIntoChunks (job_view cat edges entries n) }
{}

/// A law: all jobs of a script over a grid keep the laws by which they can be run in lockstep.
pub fn works_are_lawful()
    ensures { (cat : Catalogue) (edges : List Edge) (entries : List Line) → IsScriptOverGrid cat edges entries
        → Laws (works_of cat edges entries) (IsJobMidRound cat edges entries) }
{
    begins();
    passes();
    turns();
    turns_lead_on();
    determined();
    owed_chunks();
    weight_is_left();
}
