//! The rows of a region: in what order they are written, and the offsets that are carried along
//! each.

ghost use Rattle.viewer.specs.Rows.{OffsetsCarried, RunOfRows};

/// The offset that is carried along a row is at every column the one worked out afresh, and in an
/// accepted conversion of a source with lanes no addition passes 64 bits.
#[tactic(auto, using(crate::proofs::RowsLaws::offsets_carried))]
pub fn carried_offsets_are_those_worked_out()
    ensures { OffsetsCarried }
{}

/// A conversion writes its region row by row, all slices through: the first of them, and then the
/// others, wherever it is divided.
#[tactic(auto, using(crate::proofs::RowsLaws::run_of_rows))]
pub fn a_conversion_is_a_run_of_rows()
    ensures { RunOfRows }
{}
