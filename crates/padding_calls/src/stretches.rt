// Where padding lies: in the rows of the last surface, behind the elements of each atom.
ghost use Rattle.std.specs.Prelude.{◌≡◌, ◌-◌, ◌≤◌, ◌<◌};
ghost use Rattle.refusal.specs.Checks.{in_order, Accepted};
ghost use Rattle.layout.specs.Geometry.{surfaces};
ghost use Rattle.layout.specs.Rules.{layout_checks};
ghost use Rattle.padding_calls.specs.Steps.{last_surface, elements_end, IsStretch};

use layout::CubeLayout;

// Positions of a file up to an end: all in the atoms of one row of the last surface, or none of them padding.
#[derive(Clone, Copy)]
pub struct Stretch {
    pub end: u64,
    pub atoms: bool,
}

// That a layout keeps the rules stands in each contract here: a type that says it would be one of `layout_calls`, and its callers hold a plain CubeLayout.
// Surfaces before the last one, S − 1.
fn surfaces_before(layout: CubeLayout) -> u32
    requires { in_order (layout_checks layout) ≡ Accepted }
    ensures { result ≡ surfaces layout - 1 }
{
    (layout.channels * elements::element_bytes(layout.precision) - 1) / 32
}

// Bytes of an atom of the last surface that are elements'.
pub(crate) fn elements_end(layout: CubeLayout) -> u64
    requires { in_order (layout_checks layout) ≡ Accepted }
    ensures { result ≡ elements_end layout }
{
    let bytes = layout.channels * elements::element_bytes(layout.precision);
    (bytes - 32 * surfaces_before(layout)) as u64
}

// Where the last surface begins.
fn last_surface(layout: CubeLayout) -> u64
    requires { in_order (layout_checks layout) ≡ Accepted }
    ensures { result ≡ last_surface layout }
{
    layout.start as u64 + surfaces_before(layout) as u64 * layout.surface as u64
}

// The stretch from a position behind the last surface's start on.
fn in_rows(layout: CubeLayout, base: u64, position: u64) -> Stretch
    requires { (in_order (layout_checks layout) ≡ Accepted) × (base ≡ last_surface layout) × (base ≤ position) × (position < 18446744073709551615) }
    ensures { IsStretch layout position result }
{
    let line = layout.line as u64;
    let row = (position - base) / line;
    if layout.height as u64 <= row {
        return Stretch {
            end: 18446744073709551615,
            atoms: false,
        };
    }
    let start = position - (position - base) % line;
    let end = start + 32 * layout.width as u64;
    if position < end {
        return Stretch { end, atoms: true };
    }
    Stretch {
        end: start + line,
        atoms: false,
    }
}

// The stretch from a position on.
pub(crate) fn next(layout: CubeLayout, position: u64) -> Stretch
    requires { (in_order (layout_checks layout) ≡ Accepted) × (position < 18446744073709551615) }
    ensures { IsStretch layout position result }
{
    let base = last_surface(layout);
    if position < base {
        return Stretch {
            end: base,
            atoms: false,
        };
    }
    in_rows(layout, base, position)
}
