// The checks of a slot, a placing and a box in a region, each in its order, and the box of the cube that a box of a region is.
// Table, slot and id stay parameters: a struct of the three is no plainer, since each public call has them apart and would make it for one call.
ghost use Rattle.std.specs.Prelude.{◌≡◌, ◌&&◌, eqb, ◌<◌, ◌≤◌, get_or, MatchOption};
ghost use Rattle.refusal.specs.Checks.{Accepted, in_order, given};
ghost use Rattle.layout.specs.Rules.{layout_checks};
ghost use Rattle.regions.specs.Slots.{rectangle_inside};
ghost use Rattle.regions.specs.Rules.{id_valid, box_in_rectangle, access_of, slot_checks};
ghost use Rattle.regions_calls.specs.Steps.{box_in, part_box, found_part};
ghost use Rattle.regions.specs.Calls.{no_region, place_answer};

use crate::overlap;
use layout::{CubeLayout, ElementBox};
use refusal::{Answer, Fault, Refusal};
use regions::{Rectangle, Region, RegionTable};

// The part of a region that a call is on: a box, counted from its corner, or all of it.
#[derive(Clone, Copy)]
pub(crate) enum Part {
    Within(ElementBox),
    Whole,
}

// What a slot holds; there is none past the last.
fn region_at(table: RegionTable, slot: u32) -> Option<Region>
    ensures { MatchOption result (16 ≤ slot) (λ region. (slot < 16) × (region ≡ get_or table.slots slot no_region)) }
{
    table.slots.get(slot as usize).copied()
}

// The rectangle has positions, and all of them are in the cube.
#[tactic(auto, unfolding(regions::specs::Slots::rectangle_inside))]
fn rectangle_inside(layout: CubeLayout, g: Rectangle) -> bool
    ensures { result ≡ rectangle_inside layout g }
{
    layout_calls::span_inside(g.column, g.columns, layout.width)
        && layout_calls::span_inside(g.row, g.rows, layout.height)
}

// The box has elements, all of them in the rectangle.
#[tactic(auto, unfolding(regions::specs::Rules::box_in_rectangle))]
fn box_inside(layout: CubeLayout, g: Rectangle, b: ElementBox) -> bool
    ensures { result ≡ box_in_rectangle layout g b }
{
    layout_calls::span_inside(b.channel, b.channels, layout.channels)
        && layout_calls::span_inside(b.row, b.rows, g.rows)
        && layout_calls::span_inside(b.column, b.columns, g.columns)
}

// An owner's id: 1 to 65535.
fn id_valid(id: u32) -> bool
    ensures { result ≡ id_valid id }
{
    refusal::size_valid(65535, id)
}

// The id given is an owner's, and the region is that owner's.
fn owned_by(region: Region, given: u32) -> bool
    ensures { result ≡ (id_valid given && eqb given region.owner) }
{
    id_valid(given) && given == region.owner
}

// Checks 1 to 4, 25, 8, 9, 10 of a placing.
#[tactic(auto, using(crate::proofs::StepLaws::slots_checked), unfolding(regions::specs::Calls::place_answer, regions::specs::Rules::place_checks, refusal::specs::Checks::in_order, refusal::specs::Checks::require_at))]
pub(crate) fn check_place(table: RegionTable, slot: u32, id: u32, g: Rectangle) -> Answer
    ensures { result ≡ place_answer table slot id g }
{
    layout_calls::check(table.layout)?;
    if !id_valid(id) {
        return Err(Fault(Refusal::OwnerId, 0));
    }
    let Some(old) = region_at(table, slot) else {
        return Err(Fault(Refusal::Slot, 0));
    };
    if old.placed {
        return Err(Fault(Refusal::Slot, 0));
    }
    if !rectangle_inside(table.layout, g) {
        return Err(Fault(Refusal::Bounds, 0));
    }
    if overlap::any_meets(&table.slots, g) {
        return Err(Fault(Refusal::Overlap, 0));
    }
    Ok(())
}

// The region in a slot that a call goes through. Checks 1 to 4, 8, 25.
#[tactic(auto, using(crate::proofs::StepLaws::slots_checked), unfolding(regions::specs::Rules::slot_checks, refusal::specs::Checks::in_order, refusal::specs::Checks::require_at, refusal::specs::Checks::given))]
fn region_named(table: RegionTable, slot: u32, id: u32) -> Result<Region, Fault>
    ensures { result ≡ given (in_order (slot_checks (access_of table slot id))) (get_or table.slots slot no_region) }
{
    layout_calls::check(table.layout)?;
    let Some(region) = region_at(table, slot) else {
        return Err(Fault(Refusal::Slot, 0));
    };
    if !region.placed {
        return Err(Fault(Refusal::Slot, 0));
    }
    if !owned_by(region, id) {
        return Err(Fault(Refusal::OwnerId, 0));
    }
    Ok(region)
}

// The box of the cube that a box of a rectangle is. Check 9.
#[tactic(auto, unfolding(crate::specs::Steps::box_in, refusal::specs::Checks::in_order, refusal::specs::Checks::require_at, refusal::specs::Checks::given))]
fn box_in(layout: CubeLayout, g: Rectangle, b: ElementBox) -> Result<ElementBox, Fault>
    requires { in_order (layout_checks layout) ≡ Accepted }
    ensures { result ≡ box_in layout g b }
{
    if !rectangle_inside(layout, g) || !box_inside(layout, g, b) {
        return Err(Fault(Refusal::Bounds, 0));
    }
    Ok(ElementBox {
        channel: b.channel,
        row: g.row + b.row,
        column: g.column + b.column,
        channels: b.channels,
        rows: b.rows,
        columns: b.columns,
    })
}

// The box that a part of a rectangle is, counted from its corner.
fn part_box(layout: CubeLayout, g: Rectangle, part: Part) -> ElementBox
    ensures { result ≡ part_box layout g part }
{
    match part {
        Part::Within(b) => b,
        Part::Whole => ElementBox {
            channel: 0,
            row: 0,
            column: 0,
            channels: layout.channels,
            rows: g.rows,
            columns: g.columns,
        },
    }
}

// The box of the cube that a part of a region is. Checks 1 to 4, 8, 25, 9.
pub(crate) fn find_box(
    table: RegionTable,
    slot: u32,
    id: u32,
    part: Part,
) -> Result<ElementBox, Fault>
    ensures { result ≡ found_part (access_of table slot id) part }
{
    let region = region_named(table, slot, id)?;
    let b = part_box(table.layout, region.rectangle, part);
    box_in(table.layout, region.rectangle, b)
}
