// A tensor of valid sizes, and the counts of its elements and bytes; the largest is 8192 * 8192 * 32 * 32 elements, in 64 bits.
ghost use Rattle.std.specs.Prelude.{◌≡◌, true, ◌*◌};
ghost use Rattle.weights.specs.Geometry.{size_of, element_count, surface_bytes};
ghost use Rattle.weights.specs.Rules.{sizes_valid};

use weights::WeightLayout;

// A layout that check 1 accepts.
#[derive(Clone, Copy)]
pub(crate) struct Tensor {
    pub(crate) layout: WeightLayout,
    ghost sizes: { sizes_valid layout ≡ true },
}

impl Tensor {
    // Elements of all kernels.
    pub(crate) fn element_count(self) -> u64
        ensures { result ≡ element_count self.layout }
    {
        let layout = self.layout;
        (layout.kernels * layout.channels) as u64 * (layout.rows * layout.columns) as u64
    }

    // Bytes of all elements.
    pub(crate) fn weight_bytes(self) -> u64
        ensures { result ≡ element_count self.layout * size_of self.layout }
    {
        self.element_count() * elements::element_bytes(self.layout.precision) as u64
    }

    // Bytes of the packed surface, a multiple of 128.
    pub(crate) fn surface_bytes(self) -> u64
        ensures { result ≡ surface_bytes self.layout }
    {
        (self.weight_bytes() + 127) / 128 * 128
    }
}
