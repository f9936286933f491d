//! The worked table.

ghost use Rattle.viewer.specs.WorkedTable.{ColumnsAgree};

/// Every number of the worked table is the one that the contracts' definitions compute.
#[tactic(auto, using(crate::proofs::WorkedTableLaws::columns_agree))]
pub fn worked_table_agrees()
    ensures { ColumnsAgree }
{}
