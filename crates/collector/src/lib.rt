//! Which blocks may be collected, since they hold no surface, and the jobs that look at them.
#![tactic(auto)]

ghost use Rattle.std.specs.Prelude.{◌≡◌, ◌≤ℤ◌, ◌↔◌, pos, IsTrue, List};
ghost use Rattle.voxel_block.specs.Summaries.{summary_of};
ghost use Rattle.voxel_block.specs.declared.voxel.Voxel.{Voxel};
ghost use Rattle.collector.specs.Empty.{is_empty_block};

mod checks;
pub mod laws;

pub use checks::{check_jobs, empty_cells};
use voxel_block::Summary;

/// Whether a block with this summary holds no surface: no known voxel of it has a distance of a size below
/// `empty_f`.
pub fn is_empty(summary: Summary, empty_f: i16) -> bool
    ensures block { (voxels : List Voxel) → summary ≡ summary_of voxels
        → result ≡ is_empty_block empty_f voxels }
    ensures least { IsTrue result ↔ empty_f ≤ℤ pos summary.least }
{
    i32::from(summary.least) >= i32::from(empty_f)
}

#[cfg(test)]
mod tests;
