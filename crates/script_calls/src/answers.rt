// What each record answers, its value, and the desk after it: whether a frame was accepted, and its region table (scope paper, "The sheet program";
// change request K1).
ghost use Rattle.std.specs.Prelude.{◌*◌, ◌<◌, ◌≡◌, Some};
ghost use Rattle.refusal.specs.Checks.{Accepted};
ghost use Rattle.records.specs.declared.Record.TheVariants.{Frame, Stall, Cell, Leave};
ghost use Rattle.regions.specs.Slots.{rectangle};
ghost use Rattle.regions.specs.Calls.{no_region, with_slot, place_answer};
ghost use Rattle.script.specs.Rows.{framed_or};
ghost use Rattle.script_calls.specs.Steps.{recorded};

use layout::CubeLayout;
use records::Record;
use refusal::{Answer, Fault, Refusal};
use regions::{Rectangle, RegionTable};
use script::Desk;

// What an accepted record gives: its value, and the desk after it.
#[derive(Clone, Copy)]
pub(crate) struct Done {
    pub value: u64,
    pub desk: Desk,
}

// Before an accepted frame any record but a frame is refused.
#[tactic(auto, unfolding(script::specs::Rows::framed_or))]
fn check_framed(desk: Desk) -> Answer
    ensures { result ≡ framed_or desk Accepted }
{
    if !desk.framed {
        return Err(Fault(Refusal::Size, 0));
    }
    Ok(())
}

// A frame: its extent. Accepted, it empties the slots.
fn frame(desk: Desk, layout: CubeLayout) -> Result<Done, Fault>
    ensures { result ≡ recorded desk (Some (Frame layout)) }
{
    let value = layout_calls::extent(layout)?;
    let desk = Desk {
        framed: true,
        table: regions_calls::empty(layout),
    };
    Ok(Done { value, desk })
}

// The elements of a region that was placed: columns, rows and channels.
fn region_count(table: RegionTable, slot: u32, id: u32, rectangle: Rectangle) -> u64
    requires { place_answer table slot id rectangle ≡ Accepted }
    ensures { result ≡ rectangle.columns * rectangle.rows * table.layout.channels }
{
    rectangle.columns as u64 * rectangle.rows as u64 * table.layout.channels as u64
}

// A stall: its cell count. Accepted, it is placed.
fn stall(desk: Desk, slot: u32, id: u32, rectangle: Rectangle) -> Result<Done, Fault>
    ensures { result ≡ recorded desk (Some (Stall slot rectangle.column rectangle.row rectangle.columns rectangle.rows id)) }
{
    check_framed(desk)?;
    let placed = regions_calls::place(desk.table, slot, id, rectangle);
    placed.answer?;
    Ok(Done {
        value: region_count(desk.table, slot, id, rectangle),
        desk: Desk {
            table: placed.table,
            ..desk
        },
    })
}

// A cell of a stall: its byte position.
fn cell(desk: Desk, slot: u32, channel: u32, row: u32, column: u32, id: u32) -> Result<Done, Fault>
    ensures { result ≡ recorded desk (Some (Cell slot channel row column id)) }
{
    check_framed(desk)?;
    let value = regions_calls::position(desk.table, slot, id, channel, row, column)?;
    Ok(Done { value, desk })
}

// The table with one slot emptied: the sheet has no buffer, so that no cell is cleared.
fn emptied(mut table: RegionTable, slot: u32) -> RegionTable
    requires { slot < 16 }
    ensures { result ≡ with_slot table slot no_region }
{
    table.slots[slot as usize] = regions_calls::none();
    table
}

// A stall that is left: how many cells it had. Accepted, its slot is emptied.
fn leave(desk: Desk, slot: u32, id: u32) -> Result<Done, Fault>
    ensures { result ≡ recorded desk (Some (Leave slot id)) }
{
    check_framed(desk)?;
    let value = regions_calls::count(desk.table, slot, id)?;
    let table = emptied(desk.table, slot);
    Ok(Done {
        value,
        desk: Desk { table, ..desk },
    })
}

// Any record, or a line that is none.
pub(crate) fn after_record(desk: Desk, item: Option<Record>) -> Result<Done, Fault>
    ensures { result ≡ recorded desk item }
{
    match item {
        Some(Record::Frame(layout)) => frame(desk, layout),
        Some(
            Record::Stall {
                slot,
                column,
                row,
                columns,
                rows,
                id,
            },
        ) => {
            let rectangle = Rectangle {
                column,
                row,
                columns,
                rows,
            };
            stall(desk, slot, id, rectangle)
        }
        Some(
            Record::Cell {
                slot,
                channel,
                row,
                column,
                id,
            },
        ) => cell(desk, slot, channel, row, column, id),
        Some(Record::Leave { slot, id }) => leave(desk, slot, id),
        None => Err(Fault(Refusal::ScriptLine, 0)),
    }
}
