//! A buffer may be handed from thread to thread, and read by several at once.

use crate::Buffer;
use gm_base::ChunkCopy;
use std::sync::Arc;

fn crosses<T: Send + Sync + Drop>(_value: T) {}

/// The buffer may, and a share of a copy.
pub fn buffers_cross(buffer: Buffer, share: Arc<ChunkCopy>) {
    crosses(buffer);
    crosses(share);
}
