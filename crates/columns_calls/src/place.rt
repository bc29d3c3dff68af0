// Where rows of elements lie, and the columns of bytes that they become.
ghost use Rattle.std.specs.Prelude.{◌≤◌};

// The bytes of an element: one or two.
#[derive(Clone, Copy)]
pub(crate) struct ElementSize {
    pub(crate) bytes: u32,
    ghost one_or_two: { (1 ≤ bytes) × (bytes ≤ 2) },
}

// Rows of elements of one size, `plane` apart from element `from` on; columns of bytes, `stride` apart from byte `at` on.
#[derive(Clone, Copy)]
pub(crate) struct Place {
    pub(crate) size: ElementSize,
    pub(crate) from: usize,
    pub(crate) plane: usize,
    pub(crate) at: usize,
    pub(crate) stride: usize,
}
