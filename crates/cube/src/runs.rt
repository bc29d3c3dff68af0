// Where an element begins, and the channels of a box that lie in one atom, as columns.
ghost use Rattle.std.specs.Prelude.{◌≡◌, ◌+◌, ◌*◌, ◌^◌, ◌<◌, ◌≤◌};
ghost use Rattle.refusal.specs.Checks.{in_order, Accepted};
ghost use Rattle.layout.specs.Geometry.{element_position};
ghost use Rattle.layout.specs.Rules.{layout_checks, box_checks};
ghost use Rattle.cube.specs.Steps.{run_position, raw_spacing, run_from, AtomEnd, row_block};

use columns::ColumnBlock;
use layout::{CubeLayout, ElementBox};

// start + floor(c·e/32)·surface + h·line + w·32 + (c·e mod 32).
pub(crate) fn position_of(layout: CubeLayout, channel: u32, row: u32, column: u32) -> u64
    requires layout_value { in_order (layout_checks layout) ≡ Accepted }
    requires channel_lt_channels { (channel < layout.channels) × (row < layout.height) × (column < layout.width) }
    ensures { result ≡ element_position layout channel row column }
{
    let bytes = channel * elements::element_bytes(layout.precision);
    let surface = (bytes / 32) as u64 * layout.surface as u64;
    let line = row as u64 * layout.line as u64;
    layout.start as u64 + surface + line + (column * 32) as u64 + (bytes % 32) as u64
}

// Where channel n of the box's row r begins in the buffer.
fn run_position(layout: CubeLayout, b: ElementBox, n: u32, r: u32) -> usize
    requires b_value { in_order (box_checks layout b) ≡ Accepted }
    requires n_lt_channels { (n < b.channels) × (r < b.rows) }
    ensures { result ≡ run_position layout b n r }
{
    let channel = b.channel + n;
    let row = b.row + r;
    position_of(layout, channel, row, b.column) as usize
}

// How far apart elements of a box lie in a list: channels `plane`, rows `line`, columns one.
#[derive(Clone, Copy)]
pub(crate) struct Spacing {
    pub(crate) plane: u32,
    pub(crate) line: u32,
}

impl Spacing {
    // In raw order over a box.
    pub(crate) fn raw(b: ElementBox) -> Spacing
        requires { b.rows * b.columns < 2 ^ 32 }
        ensures { result ≡ raw_spacing b }
    {
        Spacing {
            plane: b.rows * b.columns,
            line: b.columns,
        }
    }

    // Where channel n of row r begins in the list.
    fn run_from(self, n: u32, r: u32) -> usize
        requires { (n < 8192) × (r < 8192) }
        ensures { result ≡ run_from self.plane self.line n r }
    {
        n as usize * self.plane as usize + r as usize * self.line as usize
    }
}

// The channel behind those that lie in one atom with channel n of a box: the first of the next atom, or the end.
pub(crate) fn atom_end(e: u32, channel: u32, channels: u32, n: u32) -> u32
    requires { (1 ≤ e) × (e ≤ 2) × (n < channels) × (channel + channels ≤ 8192) }
    ensures { AtomEnd e channel channels n result }
{
    let per = 32 / e;
    let next = n + per - (channel + n) % per;
    next.min(channels)
}

// Channels n to m of the box's row r as columns, one in each atom.
pub(crate) fn row(
    layout: CubeLayout,
    b: ElementBox,
    spacing: Spacing,
    n: u32,
    m: u32,
    r: u32,
) -> ColumnBlock
    requires b_value { in_order (box_checks layout b) ≡ Accepted }
    requires n_lt_m { (n < m) × (m ≤ b.channels) × (r < b.rows) }
    ensures { result ≡ row_block layout b spacing.plane spacing.line n m r }
{
    ColumnBlock {
        size: elements::element_bytes(layout.precision),
        rows: m - n,
        count: b.columns,
        from: spacing.run_from(n, r),
        plane: spacing.plane,
        at: run_position(layout, b, n, r),
        stride: 32,
    }
}
