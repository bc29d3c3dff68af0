// Lookup settings and counters as words.
ghost use Rattle.std.specs.Prelude.{◌≡◌, ◌<◌};
ghost use Rattle.refusal.specs.Checks.{leaves};
ghost use Rattle.olsketina.specs.Lookups.{table_named, slope_at, settings_from, counters_from, counter_words};
ghost use Rattle.olsketina.specs.Ready.{mode_number, table_word, x_words, y_words, scale_words, shift_words, priority_words};

use crate::words::{COUNTERS, PRIORITIES, SETTINGS_WORDS, SLOPES};
use lut::{Counters, LutSettings, Slope, Table, XMode, XSettings, YSettings};
use refusal::Answer;

// The table that a priority bit names.
fn table_named(y: bool) -> Table
    ensures { result ≡ table_named y }
{
    if y { Table::Y } else { Table::X }
}

// The slope at an index.
fn slope_at(scales: &[i16; SLOPES], shifts: &[i32; SLOPES], i: usize) -> Slope
    requires { i < 4 }
    ensures { result ≡ slope_at scales.now shifts.now i }
{
    Slope {
        scale: scales[i],
        shift: shifts[i],
    }
}

// The settings of both tables, with X in a mode.
#[tactic(auto, unfolding(crate::specs::Lookups::settings_from))]
pub(crate) fn settings_of(
    mode: XMode,
    x: &[i32; SETTINGS_WORDS],
    y: &[i32; SETTINGS_WORDS],
    scales: &[i16; SLOPES],
    shifts: &[i32; SLOPES],
    priority: bool,
    overflow: bool,
    underflow: bool,
) -> LutSettings
    ensures { result ≡ settings_from mode x.now y.now scales.now shifts.now priority overflow underflow }
{
    let x_settings = XSettings {
        mode,
        start: x[1],
        end: x[2],
        below: slope_at(scales, shifts, 0),
        above: slope_at(scales, shifts, 1),
    };
    let y_settings = YSettings {
        select: y[0],
        start: y[1],
        end: y[2],
        below: slope_at(scales, shifts, 2),
        above: slope_at(scales, shifts, 3),
    };
    LutSettings {
        x: x_settings,
        y: y_settings,
        priority: table_named(priority),
        overflow: table_named(overflow),
        underflow: table_named(underflow),
    }
}

// The counters.
pub(crate) fn counters_of(words: &[u32; COUNTERS]) -> Counters
    ensures { result ≡ counters_from words.now }
{
    Counters {
        x: words[0],
        y: words[1],
        underflow: words[2],
        overflow: words[3],
        priority: words[4],
    }
}

// Writes the counters where a run was accepted.
#[tactic(auto, unfolding(refusal::specs::Checks::leaves))]
pub(crate) fn leave_counters(words: &mut [u32; COUNTERS], answer: Answer, counters: Counters)
    ensures { words.new ≡ leaves answer (counter_words counters) words.old }
{
    if answer.is_ok() {
        *words = [
            counters.x,
            counters.y,
            counters.underflow,
            counters.overflow,
            counters.priority,
        ];
    }
}

// The number of an X table's mode: its select or its offset.
#[tactic(auto, unfolding(crate::specs::Ready::mode_number))]
fn mode_number(mode: XMode) -> i32
    ensures { result ≡ mode_number mode }
{
    match mode {
        XMode::Linear(select) => select,
        XMode::Exponential(offset) => offset,
    }
}

// The word that names a table.
fn table_word(table: Table) -> u32
    ensures { result ≡ table_word table }
{
    match table {
        Table::X => 0,
        Table::Y => 1,
    }
}

// The X table's number, start and end.
pub(crate) fn x_words(s: LutSettings) -> [i32; SETTINGS_WORDS]
    ensures { result ≡ x_words s }
{
    [mode_number(s.x.mode), s.x.start, s.x.end]
}

// The Y table's select, start and end.
pub(crate) fn y_words(s: LutSettings) -> [i32; SETTINGS_WORDS]
    ensures { result ≡ y_words s }
{
    [s.y.select, s.y.start, s.y.end]
}

// The scales of the four slopes.
pub(crate) fn scale_words(s: LutSettings) -> [i16; SLOPES]
    ensures { result ≡ scale_words s }
{
    [
        s.x.below.scale,
        s.x.above.scale,
        s.y.below.scale,
        s.y.above.scale,
    ]
}

// The shifts of the four slopes.
pub(crate) fn shift_words(s: LutSettings) -> [i32; SLOPES]
    ensures { result ≡ shift_words s }
{
    [
        s.x.below.shift,
        s.x.above.shift,
        s.y.below.shift,
        s.y.above.shift,
    ]
}

// Which table answers.
pub(crate) fn priority_words(s: LutSettings) -> [u32; PRIORITIES]
    ensures { result ≡ priority_words s }
{
    [
        table_word(s.priority),
        table_word(s.overflow),
        table_word(s.underflow),
    ]
}
