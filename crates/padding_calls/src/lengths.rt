// A part against the file's length, and a report against the part's.
ghost use Rattle.std.specs.Prelude.{◌≡◌, ◌&&◌, ◌++◌, ◌+◌, leb};
ghost use Rattle.refusal.specs.Checks.{in_order};
ghost use Rattle.padding.specs.Calls.{part_checks, report_checks};

use refusal::{Answer, Fault, Refusal};

// A part of n bytes ends within the file; by a difference, so that nothing wraps.
fn part_inside(first: u64, length: u64, n: usize) -> bool
    ensures { result ≡ leb (first + n) length }
{
    if length < first {
        return false;
    }
    n as u64 <= length - first
}

// Both lists of a report have a place for each byte of the part.
fn report_roomy(n: usize, positions: usize, olds: usize) -> bool
    ensures { result ≡ (leb n positions && leb n olds) }
{
    if positions < n {
        return false;
    }
    n <= olds
}

// Check 5 of the part, then 18.
pub(crate) fn check(first: u64, length: u64, n: usize, positions: usize, olds: usize) -> Answer
    ensures { result ≡ in_order (part_checks first length n ++ report_checks n positions olds) }
{
    if !part_inside(first, length, n) {
        return Err(Fault(Refusal::BufferLength, 0));
    }
    if !report_roomy(n, positions, olds) {
        return Err(Fault(Refusal::OutputLength, 0));
    }
    Ok(())
}
