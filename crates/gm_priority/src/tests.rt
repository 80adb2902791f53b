//! Rows and what is picked of them, by real calls with ample memory.

use crate::{JobNeeds, pick};
use std::test::Fail;

#[test]
fn a_row_of_its_own_comes_first(rt: HostRuntime) -> Result<(), Fail> {
    let mut one = JobNeeds::new(rt.alloc(), 4)?;
    one.mark(0);
    let mut two = JobNeeds::new(rt.alloc(), 4)?;
    two.mark(1);
    two.mark(3);
    two.mark(3);
    assert!(rt; two.has(3));
    assert!(rt; two.count() == 2);
    assert!(rt; pick(4, &[one, two]) == Some(0));
    Ok(())
}

#[test]
fn nothing_is_picked_where_nothing_is_needed(rt: HostRuntime) -> Result<(), Fail> {
    let mut row = JobNeeds::new(rt.alloc(), 70)?;
    row.mark(69);
    row.clear();
    assert!(rt; !row.has(69));
    assert!(rt; pick(70, &[row]) == None);
    Ok(())
}
