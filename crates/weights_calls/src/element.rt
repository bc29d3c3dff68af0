// The position of one element.
ghost use Rattle.std.specs.Prelude.{◌≡◌};
ghost use Rattle.weights.specs.Geometry.{element_number, element_position};
ghost use Rattle.weights.specs.Places.{Element};

use crate::measure::Tensor;
use crate::runs;

// An element by its kernel, channel, row and column.
#[derive(Clone, Copy)]
pub(crate) struct Index {
    pub(crate) kernel: u32,
    pub(crate) channel: u32,
    pub(crate) row: u32,
    pub(crate) column: u32,
}

// The number of an element: the elements of the groups before its own and of the blocks before its own there, then those before it in the block.
fn number_of(tensor: Tensor, index: Index) -> u64
    requires { Element tensor.layout index.kernel index.channel index.row index.column }
    ensures { result ≡ element_number tensor.layout index.kernel index.channel index.row index.column }
{
    let layout = tensor.layout;
    let Index {
        kernel,
        channel,
        row,
        column,
    } = index;
    let group = runs::group_size(layout.precision);
    let first = kernel / group * group;
    let kernels = runs::group_kernels(layout, first);
    let begin = channel / 64 * 64;
    let channels = general::least(runs::BLOCK, layout.channels - begin);
    let pixel = row * layout.columns + column;
    let before = first * layout.channels + begin * kernels;
    let within = (pixel * kernels + kernel % group) * channels + channel % 64;
    before as u64 * (layout.rows * layout.columns) as u64 + within as u64
}

// The byte at which an element begins.
pub(crate) fn position_of(tensor: Tensor, index: Index) -> u64
    requires { Element tensor.layout index.kernel index.channel index.row index.column }
    ensures { result ≡ element_position tensor.layout index.kernel index.channel index.row index.column }
{
    number_of(tensor, index) * elements::element_bytes(tensor.layout.precision) as u64
}
