//! Tables made beside each other share endings.
use super::*;
use crate::tests::table_of;
use std::process::Abort;

// A table beside this one.
fn beside(rt: &(impl Abort + AllocGlobal), table: &Table) -> Table {
    let endings = Arc::try_clone(&table.endings).expect(rt, "no memory");
    Table::with_endings(rt.alloc(), 1, endings).expect(rt, "no memory")
}

#[test]
fn tables_beside_each_other_share_endings(rt: HostRuntime) {
    let first = table_of(&rt, 1);
    let second = beside(&rt, &first);
    let third = beside(&rt, &second);
    for table in [&first, &second, &third] {
        assert!(rt; Arc::strong_count(&table.endings) == 3);
    }
}
