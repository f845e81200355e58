ghost use Rattle.std.specs.Prelude.{◌≡◌, ◌^◌, ◌<◌, ◌++◌, int_le, pos, IfOk, OnOk, length};
ghost use Rattle.collector.specs.Checks.{check_of, checks_of, empty_cell, empty_cells_of};

use crate::is_empty;
use block_heap::Cell;
use fusion_core::{Done, Job};
use std::alloc::{AllocError, Global};
use voxel_block::NoMemory;

/// A job for each owned cell that looks at its block, in the order of the cells.
///
/// # Errors
///
/// Out of memory.
pub fn check_jobs(alloc: Global, cells: &[Cell]) -> Result<Vec<Job>, NoMemory>
    requires { length cells.now < 2 ^ 32 }
    ensures { IfOk result (λ jobs. jobs.items ≡ checks_of cells.now) }
{
    let mut jobs = Vec::new(alloc);
    for n in 0..cells.len() {
        let cell = &cells[n];
        push_check(&mut jobs, n as u32, cell)?;
    }
    Ok(jobs)
}

/// Appends a job that looks at a cell, where it is owned.
fn push_check(jobs: &mut Vec<Job>, number: u32, cell: &Cell) -> Result<(), AllocError>
    ensures { OnOk result (jobs.new.items ≡ jobs.old.items ++ check_of number cell.now) }
{
    match cell {
        Cell::Free(_) => {}
        Cell::Owned(..) => jobs.push(Job::Check { cell: number })?,
    }
    Ok(())
}

/// The cells whose blocks are empty, by the answers to jobs that looked at them, in the order of the jobs.
///
/// # Errors
///
/// Out of memory.
pub fn empty_cells(
    alloc: Global,
    jobs: &[Job],
    done: &[Done],
    empty_f: i16,
) -> Result<Vec<u32>, NoMemory>
    requires { length jobs.now ≡ length done.now }
    ensures { IfOk result (λ cells. cells.items ≡ empty_cells_of empty_f jobs.now done.now) }
{
    let mut cells = Vec::new(alloc);
    for j in 0..jobs.len() {
        let job = jobs[j];
        let answer = done[j];
        push_empty(&mut cells, job, answer, empty_f)?;
    }
    Ok(cells)
}

/// Appends the cell of a job, where its block is empty by the answer.
fn push_empty(cells: &mut Vec<u32>, job: Job, done: Done, empty_f: i16) -> Result<(), AllocError>
    ensures { OnOk result (cells.new.items ≡ cells.old.items ++ empty_cell empty_f job done) }
{
    match (job, done) {
        (Job::Check { cell }, Done::Looked(summary)) if is_empty(summary, empty_f) => cells.push(
            cell,
        )?,
        _ => {}
    }
    Ok(())
}
