//! Marks of the requests for memory that `checks/allocations` refuses.

use std::alloc::{AllocError, Global};

/// More bytes than any system grants.
const MARK: usize = 1 << 62;

/// Marks where the requests that may be refused begin or end, by a request that always is.
pub fn mark(alloc: Global) {
    let granted: Result<Vec<u8>, AllocError> = Vec::with_capacity(alloc, MARK);
    let _ = granted;
}
