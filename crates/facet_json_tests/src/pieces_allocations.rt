//! Failed allocations. With ample memory these tests pass as any other does. `checks/allocations` runs them once more for each
//! of their requests for memory, which is refused alone, and they have to pass in every such run.

use crate::pieces::{MANY_READS, is_read};
use crate::rows::ROWS;

#[test]
fn a_growth_is_refused_in_a_scan(rt: HostRuntime) {
    for row in &ROWS {
        let is_right = is_read(rt.alloc(), row, 1, MANY_READS) != Some(false);
        assert!(rt; is_right && is_read(rt.alloc(), row, 16, MANY_READS) != Some(false));
    }
}
