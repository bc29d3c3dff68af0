// The sizes that check 1 takes, and the elements that check 9 takes.
ghost use Rattle.std.specs.Prelude.{◌≡◌};
ghost use Rattle.weights.specs.Rules.{sizes_valid, element_inside};

use crate::element::Index;
use weights::WeightLayout;

// Kernels, channels, rows and columns.
pub(crate) fn sizes_valid(layout: WeightLayout) -> bool
    ensures { result ≡ sizes_valid layout }
{
    refusal::size_valid(8192, layout.kernels)
        & refusal::size_valid(8192, layout.channels)
        & refusal::size_valid(32, layout.rows)
        & refusal::size_valid(32, layout.columns)
}

// Whether the tensor has an element.
pub(crate) fn element_inside(layout: WeightLayout, index: Index) -> bool
    ensures { result ≡ element_inside layout index.kernel index.channel index.row index.column }
{
    (index.kernel < layout.kernels)
        & (index.channel < layout.channels)
        & (index.row < layout.rows)
        & (index.column < layout.columns)
}
