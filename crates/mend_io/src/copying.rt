// The first file copied to the second part by part, its padding mended, and the report printed.
ghost use Rattle.std.specs.Prelude.{◌≡◌, true, ◌+◌, ◌≤◌, length};
ghost use Rattle.padding.specs.Mending.{reported};
ghost use Rattle.mend_io.specs.Steps.{Shown, Stepped, Copied};

use crate::files::{read_part, write_part};
use crate::printing::{Printed, print_header, print_report};
use layout::CubeLayout;
use std::fs::File;

// One part more: the position after it and the checksum; the end of the file; or a read or a write failed, and the checksum.
#[derive(Clone, Copy)]
enum Step {
    More(u64, u64),
    End,
    Failed(u64),
}

// Mends a part of the file from `first` on, writes it to the second file, and prints its report. A part past the length read is a file that has grown.
fn give_part(
    layout: CubeLayout,
    first: u64,
    size: u64,
    to: &File,
    sum: u64,
    part: &mut [u8],
    positions: &mut [u64],
    olds: &mut [u8],
    text: &mut [u8],
) -> Printed
    requires { 25 ≤ length text.old }
    ensures shown { Shown sum (reported layout first part.old) result }
    ensures part_bound { result.whole ≡ true → first + length part.old ≤ size }
{
    let mended = padding_calls::mend(layout, first, size, part, positions, olds);
    let Ok(count) = mended else {
        return Printed { whole: false, sum };
    };
    if !write_part(to, part) {
        return Printed { whole: false, sum };
    }
    let n = count as usize;
    print_report(sum, &positions[..n], &olds[..n], text)
}

// One part from position `at` on: read, mended, written, its report printed.
fn copy_part(
    layout: CubeLayout,
    size: u64,
    from: &File,
    to: &File,
    at: u64,
    sum: u64,
    part: &mut [u8],
    positions: &mut [u64],
    olds: &mut [u8],
    text: &mut [u8],
) -> Step
    requires { 25 ≤ length text.old }
    ensures { Stepped layout size at sum result }
{
    let Some(n) = read_part(from, part) else {
        return Step::Failed(sum);
    };
    if n == 0 {
        return Step::End;
    }
    let given = give_part(
        layout,
        at,
        size,
        to,
        sum,
        &mut part[..n],
        positions,
        olds,
        text,
    );
    if !given.whole {
        return Step::Failed(given.sum);
    }
    Step::More(at + n as u64, given.sum)
}

// The header, then all parts.
fn copy(
    layout: CubeLayout,
    size: u64,
    from: &File,
    to: &File,
    part: &mut [u8],
    positions: &mut [u64],
    olds: &mut [u8],
    text: &mut [u8],
) -> Printed
    requires { 25 ≤ length text.old }
    ensures { Copied layout size result }
{
    let begun = print_header();
    if !begun.whole {
        return begun;
    }
    let mut sum = begun.sum;
    let mut at: u64 = 0;
    // A loop: it ends by what a step gives.
    loop {
        let step = copy_part(layout, size, from, to, at, sum, part, positions, olds, text);
        match step {
            Step::More(next, after) => {
                at = next;
                sum = after;
            }
            Step::End => {
                return Printed {
                    whole: at == size,
                    sum,
                };
            }
            Step::Failed(after) => {
                return Printed {
                    whole: false,
                    sum: after,
                };
            }
        }
    }
}

// 65,536 zeros, one place of a report for each byte of a part. The `ensures` gives only the length.
fn places() -> [u64; 65536]
    ensures { 65536 ≡ length result }
{
    [0; 65536]
}

// The copying, with its buffers: a part, a report's positions and old values, and a text of lines.
pub(crate) fn copy_all(layout: CubeLayout, size: u64, from: &File, to: &File) -> Printed
    ensures { Copied layout size result }
{
    let mut part = io::large_buffer();
    let mut positions = places();
    let mut olds = io::large_buffer();
    let mut text = io::large_buffer();
    copy(
        layout,
        size,
        from,
        to,
        &mut part,
        &mut positions,
        &mut olds,
        &mut text,
    )
}
