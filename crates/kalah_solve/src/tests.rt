//! Tests over several modules, and what they share.
ghost use Rattle.std.specs.Prelude.{◌≡◌, false};
ghost use Rattle.kalah_rules.specs.{Cells.{houses_from}, Position.{is_over, storeless}, declared.rule.Rule.TheVariants.{Classic}};

pub(crate) mod out_of_memory;
pub(crate) mod plain;

use crate::Table;
use crate::table::MOST_ENTRIES;
use kalah_rules::{Houses, Rule};
use std::process::Abort;

/// Returns houses under the classic rule. The game must go on.
pub(crate) fn houses_of(rt: &impl Abort, m: u8, own: [u8; 6], other: [u8; 6]) -> Houses
    ensures value { result ≡ houses_from m own other Classic }
    ensures going { is_over (storeless result) ≡ false }
{
    let houses = Houses::new(m, own, other, Rule::Classic).expect(rt, "beyond the limits");
    assert!(rt; !houses.is_over());
    houses
}

/// Makes a table with room for `capacity` entries.
pub(crate) fn table_of(rt: &(impl Abort + AllocGlobal), capacity: u32) -> Table {
    assert!(rt; 1 <= capacity && capacity <= MOST_ENTRIES);
    Table::new(rt.alloc(), capacity).expect(rt, "no memory for a table")
}
