// The walk over the runs of a weight tensor: by group, in it by block, in it by kernel. A run is one kernel's channels of one block at all
// pixels, or, where there is one block, all kernels of a group; it is written and read as one block of columns.
ghost use Rattle.std.specs.Prelude.{◌≡◌, cond, ◌-◌, ◌*◌, ◌<◌, ◌≤◌, min, leb};
ghost use Rattle.weights.specs.Geometry.{group_size, group_of};
ghost use Rattle.weights_calls.specs.Steps.{AtRun, NextRun, run_columns};

use crate::measure::Tensor;
use columns::ColumnBlock;
use weights::WeightLayout;

// Channels of a full block.
pub(crate) const BLOCK: u32 = 64;

// The first kernel of a group, the channel block, and the run's first kernel in the group.
#[derive(Clone, Copy)]
pub(crate) struct Run {
    pub(crate) first: u32,
    pub(crate) block: u32,
    pub(crate) kernel: u32,
}

// Kernels of a full group.
pub(crate) fn group_size(precision: u32) -> u32
    ensures { result ≡ group_size precision }
{
    if precision == 0 { 32 } else { 16 }
}

// Kernels of the group that begins with kernel `first`.
pub(crate) fn group_kernels(layout: WeightLayout, first: u32) -> u32
    requires { first < layout.kernels }
    ensures { result ≡ min (group_of layout) (layout.kernels - first) }
{
    general::least(group_size(layout.precision), layout.kernels - first)
}

// Channels of a run: those of one kernel, or where there is one block, of all kernels of the group.
fn run_width(layout: WeightLayout, kernels: u32, channels: u32) -> u32
    requires { kernels * channels ≤ 2048 }
    ensures { result ≡ cond (leb layout.channels 64) (kernels * channels) channels }
{
    if layout.channels <= 64 {
        return kernels * channels;
    }
    channels
}

// The columns of a run.
pub(crate) fn run_columns(tensor: Tensor, run: Run) -> ColumnBlock
    requires { AtRun tensor.layout run }
    ensures { result ≡ run_columns tensor.layout run }
{
    let layout = tensor.layout;
    let size = elements::element_bytes(layout.precision);
    let pixels = layout.rows * layout.columns;
    let plane = pixels as usize;
    let kernels = group_kernels(layout, run.first);
    let channel = run.block * 64;
    let channels = general::least(BLOCK, layout.channels - channel);
    let width = run_width(layout, kernels, channels);
    let from = ((run.first + run.kernel) * layout.channels + channel) as usize * plane;
    let number = (run.first * layout.channels + channel * kernels) as usize * plane
        + (run.kernel * channels) as usize;
    let at = number * size as usize;
    if pixels == 1 {
        return ColumnBlock {
            size,
            rows: 1,
            count: width,
            from,
            plane: width,
            at,
            stride: size,
        };
    }
    ColumnBlock {
        size,
        rows: width,
        count: pixels,
        from,
        plane: pixels,
        at,
        stride: kernels * channels * size,
    }
}

// The run behind a run; behind the last one its group has no kernels.
pub(crate) fn next(tensor: Tensor, run: Run) -> Run
    requires { AtRun tensor.layout run }
    ensures { NextRun tensor.layout run result }
{
    let layout = tensor.layout;
    let behind = Run {
        first: run.first + group_size(layout.precision),
        block: 0,
        kernel: 0,
    };
    if layout.channels <= 64 {
        return behind;
    }
    if run.kernel + 1 < group_kernels(layout, run.first) {
        return Run {
            first: run.first,
            block: run.block,
            kernel: run.kernel + 1,
        };
    }
    if (run.block + 1) * 64 < layout.channels {
        return Run {
            first: run.first,
            block: run.block + 1,
            kernel: 0,
        };
    }
    behind
}
