//! What one job sees of a grid's file.

use gm_private::Own;
use gm_versions::Versions;

/// A grid's file with the updates so far, and with what a job sees of them and changes itself.
#[derive(Drop)]
pub(crate) struct View<'a> {
    pub name: &'a str,
    pub versions: &'a Versions,
    /// The job's number, how many of the updates it sees, and its own changes.
    pub own: &'a Own,
}
