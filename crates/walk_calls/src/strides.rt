// From an atom to the next one, by sums.
ghost use Rattle.std.specs.Prelude.{◌≡◌};
ghost use Rattle.refusal.specs.Checks.{in_order, Accepted};
ghost use Rattle.layout.specs.Rules.{layout_checks};
ghost use Rattle.walk.specs.Walks.{first_walk, stride_of};
ghost use Rattle.walk_calls.specs.Steps.{moved_on, walk_behind};

use crate::atoms;
use layout::CubeLayout;
use walk::{Stride, Walk};

// The walk before the first atom of a valid layout: the strides of all steps.
pub(crate) fn first(layout: CubeLayout) -> Walk
    requires { in_order (layout_checks layout) ≡ Accepted }
    ensures { result ≡ first_walk layout }
{
    let precision = layout.precision as u64;
    let width = layout.width as u64;
    let height = layout.height as u64;
    let line = layout.line as u64;
    let plane = height * width;
    let across = 32 * (width - 1);
    let down = (height - 1) * line;
    Walk {
        position: layout.start as u64,
        index: 0,
        columns: width,
        rows: height,
        channels: layout.channels as u64,
        precision,
        width,
        height,
        plane,
        line: line - across,
        surface: layout.surface as u64 - down - across,
        group: (atoms::full(precision) - 1) * plane + 1,
    }
}

// In its line; in the next line of its surface; in the next surface; behind the last atom nothing is left.
fn next(walk: Walk) -> Stride
    ensures { result ≡ stride_of walk }
{
    if 1 < walk.columns {
        return Stride {
            columns: walk.columns - 1,
            rows: walk.rows,
            channels: walk.channels,
            bytes: 32,
            elements: 1,
        };
    }
    if 1 < walk.rows {
        return Stride {
            columns: walk.width,
            rows: walk.rows - 1,
            channels: walk.channels,
            bytes: walk.line,
            elements: 1,
        };
    }
    let full = atoms::full(walk.precision);
    if full < walk.channels {
        return Stride {
            columns: walk.width,
            rows: walk.height,
            channels: walk.channels - full,
            bytes: walk.surface,
            elements: walk.group,
        };
    }
    Stride {
        columns: 0,
        rows: 0,
        channels: 0,
        bytes: 0,
        elements: 0,
    }
}

// The walk a stride further on; none where a sum passes 64 bits.
fn moved(walk: Walk, stride: Stride) -> Option<Walk>
    ensures { result ≡ moved_on walk stride }
{
    let position = walk.position.checked_add(stride.bytes)?;
    let index = walk.index.checked_add(stride.elements)?;
    Some(Walk {
        position,
        index,
        columns: stride.columns,
        rows: stride.rows,
        channels: stride.channels,
        ..walk
    })
}

// The walk behind the next atom, or that none is left.
pub(crate) fn behind(walk: Walk) -> Option<Walk>
    ensures { result ≡ walk_behind walk }
{
    if walk.channels == 0 {
        return None;
    }
    moved(walk, next(walk))
}
