//! Where formulas and terms stand on a branch.

use crate::entered::found_of;
use std::test::Fail;

#[test]
fn entries_are_found(rt: HostRuntime) -> Result<(), Fail> {
    let alloc = rt.alloc();
    // How many entries are kept, a variable, the first entry that says that it holds, and its generation: the least of the
    // entries in which it stands.
    for (kept, variable, position, generation) in [
        (3, 0, Some(0), Some(1)),
        (3, 1, Some(1), Some(3)),
        (3, 2, None, None),
        (2, 0, Some(0), Some(2)),
        (1, 0, Some(0), Some(2)),
        (1, 1, None, None),
        (0, 0, None, None),
    ] {
        let found = found_of(&rt, alloc, kept, variable);
        assert_eq!(rt; found, (position, generation), "at {kept}, {variable}");
    }
    Ok(())
}
