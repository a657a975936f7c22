//! After a legal log the blocks of a table show its rows.
#![tactic(auto)]

ghost use Rattle.row_redo.specs.Shown.{BlocksShowVersions};

/// After a legal log the blocks of each described table show its versions.
pub fn blocks_show_versions()
    ensures { BlocksShowVersions }
{
    heap_page::tuples_keep_their_rule();
    heap_page::zeros_have_no_items();
}
