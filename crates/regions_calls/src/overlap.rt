// The overlap test: a rectangle against each placed one.
ghost use Rattle.std.specs.Prelude.{◌≡◌, map};
ghost use Rattle.regions.specs.Slots.{slot_of, overlaps};
ghost use Rattle.regions_calls.specs.Steps.{spans_meet, slot_meets};

use regions::{Rectangle, Region};

// The n numbers from a on and the m numbers from b on have one in common.
#[tactic(auto, unfolding(crate::specs::Steps::spans_meet))]
fn spans_meet(a: u32, n: u32, b: u32, m: u32) -> bool
    ensures { result ≡ spans_meet a n b m }
{
    1 <= n && 1 <= m && (b as u64) < a as u64 + n as u64 && (a as u64) < b as u64 + m as u64
}

// The region is placed and has a position in common with a rectangle.
#[tactic(auto, unfolding(crate::specs::Steps::slot_meets, regions::specs::Slots::slot_of))]
fn meets(other: &Region, g: Rectangle) -> bool
    ensures { result ≡ slot_meets (slot_of other.now) g }
{
    let f = other.rectangle;
    other.placed
        && spans_meet(f.column, f.columns, g.column, g.columns)
        && spans_meet(f.row, f.rows, g.row, g.rows)
}

// Some position of a rectangle is in a placed region.
pub(crate) fn any_meets(slots: &[Region], g: Rectangle) -> bool
    ensures { result ≡ overlaps (map slot_of slots.now) g }
{
    slots.iter().any(|other| meets(other, g))
}
