// The ready-made lookup settings of the camera curve (scope paper, "Two tables"). The curve's definitions are here too; its entries are
// given by `curve_stored` and by `curve_computed`.
#![tactic(auto)]

ghost use Rattle.std.specs.Prelude.{◌≡◌, true, ◌≤◌, pos};
ghost use Rattle.lut.specs.Numbers.{between, scaled};
ghost use Rattle.camera.specs.Ready.{ready_settings, ready_answer};

use lut::{LutSettings, Slope, Table, XMode, XSettings, YSettings};
use refusal::{Fault, Refusal};

// The end of a table that starts at 0, by its last entry and its select.
fn end_of(last: u32, select: i32) -> i32
    requires { (last ≤ 256) × (between (pos 0) (pos 22) select ≡ true) }
    ensures { result ≡ pos (scaled last select) }
{
    (last << (select as u32)) as i32
}

// The settings for a select that is valid.
fn settings(
    select: i32,
    priority: Option<Table>,
    overflow: Option<Table>,
    underflow: Option<Table>,
) -> LutSettings
    requires { between (pos 2) (pos 22) select ≡ true }
    ensures { result ≡ ready_settings select priority overflow underflow }
{
    let flat = Slope { scale: 0, shift: 0 };
    let x_select = select - 2;
    let x = XSettings {
        mode: XMode::Linear(x_select),
        start: 0,
        end: end_of(64, x_select),
        below: flat,
        above: flat,
    };
    let y = YSettings {
        select,
        start: 0,
        end: end_of(256, select),
        below: flat,
        above: flat,
    };
    LutSettings {
        x,
        y,
        priority: priority.unwrap_or(Table::X),
        overflow: overflow.unwrap_or(Table::X),
        underflow: underflow.unwrap_or(Table::X),
    }
}

// The settings for the camera curve: Y select `select`, X select two less, no slopes. A priority bit names its table; where it is left unnamed, it is the X table.
pub fn ready_made(
    select: i32,
    priority: Option<Table>,
    overflow: Option<Table>,
    underflow: Option<Table>,
) -> Result<LutSettings, Fault>
    ensures { result ≡ ready_answer select priority overflow underflow }
{
    if !(2..=22).contains(&select) {
        return Err(Fault(Refusal::YSelect, 0));
    }
    Ok(settings(select, priority, overflow, underflow))
}
