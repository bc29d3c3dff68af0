// The region table as words: a layout's, then those of each slot.
ghost use Rattle.std.specs.Prelude.{◌≡◌, ◌+◌, ◌*◌, ◌<◌, ◌≤◌, length};
ghost use Rattle.refusal.specs.Checks.{leaves};
ghost use Rattle.olsketina.specs.Sizes.{slot_size, slot_count, table_size};
ghost use Rattle.olsketina.specs.Tables.{region_at, slots_at, table_at, flag_word, layout_words, region_words, table_word, with_table};

use crate::words;
use crate::words::{LAYOUT_WORDS, SLOT_WORDS, SLOTS, TABLE_WORDS};
use layout::CubeLayout;
use refusal::Answer;
use regions::{Rectangle, Region, RegionTable};

// The slot whose words stand from `at` on: any word but 0 is placed.
fn region_at(words: &[u32], at: usize) -> Region
    requires { at + slot_size ≤ length words.now }
    ensures { result ≡ region_at words.now at }
{
    Region {
        placed: words[at] != 0,
        owner: words[at + 1],
        rectangle: Rectangle {
            column: words[at + 2],
            row: words[at + 3],
            columns: words[at + 4],
            rows: words[at + 5],
        },
    }
}

// The slots whose words stand from `at` on.
fn slots_at(words: &[u32], at: usize) -> [Region; SLOTS]
    requires { at + slot_size * slot_count ≤ length words.now }
    ensures { result ≡ slots_at words.now at }
{
    // A for, and no array::from_fn: there it was left to prove that what the closure captures stays from call to call.
    let mut slots = [regions_calls::none(); SLOTS];
    for i in 0..SLOTS {
        slots[i] = region_at(words, at + SLOT_WORDS * i);
    }
    slots
}

// The table whose words stand from `at` on.
#[tactic(auto, unfolding(crate::specs::Tables::table_at))]
pub(crate) fn table_at(words: &[u32], at: usize) -> RegionTable
    requires { at + table_size ≤ length words.now }
    ensures { result ≡ table_at words.now at }
{
    RegionTable {
        layout: words::layout_at(words, at),
        slots: slots_at(words, at + LAYOUT_WORDS),
    }
}

// The word that says yes or no: a word that says so already stays.
#[tactic(auto, unfolding(crate::specs::Tables::flag_word))]
pub(crate) fn flag_word(yes: bool, old: u32) -> u32
    ensures { result ≡ flag_word yes old }
{
    if !yes {
        return 0;
    }
    if old == 0 { 1 } else { old }
}

// A layout's words.
fn layout_words(layout: CubeLayout) -> [u32; LAYOUT_WORDS]
    ensures { result ≡ layout_words layout }
{
    [
        layout.width,
        layout.height,
        layout.channels,
        layout.precision,
        layout.line,
        layout.surface,
        layout.start,
    ]
}

// A slot's words, the first over an old one.
fn region_words(region: Region, old: u32) -> [u32; SLOT_WORDS]
    ensures { result ≡ region_words region old }
{
    let placed = flag_word(region.placed, old);
    [
        placed,
        region.owner,
        region.rectangle.column,
        region.rectangle.row,
        region.rectangle.columns,
        region.rectangle.rows,
    ]
}

// Word i of a table, over an old one.
fn table_word(table: RegionTable, i: usize, old: u32) -> u32
    requires { i < table_size }
    ensures { result ≡ table_word table i old }
{
    if i < LAYOUT_WORDS {
        let first = layout_words(table.layout);
        return first[i];
    }
    let slots = table.slots;
    let later = region_words(slots[(i - LAYOUT_WORDS) / SLOT_WORDS], old);
    later[(i - LAYOUT_WORDS) % SLOT_WORDS]
}

// Writes a table's words from `at` on: word by word, as the definition does, since a word that says yes already stays.
pub(crate) fn write_table(words: &mut [u32], at: usize, table: RegionTable)
    requires { at + table_size ≤ length words.old }
    ensures { words.new ≡ with_table table at words.old }
{
    for i in 0..TABLE_WORDS {
        words[at + i] = table_word(table, i, words[at + i]);
    }
}

// Writes a table's words where a call was accepted.
#[tactic(auto, unfolding(refusal::specs::Checks::leaves))]
pub(crate) fn leave_table(words: &mut [u32; TABLE_WORDS], answer: Answer, table: RegionTable)
    ensures { words.new ≡ leaves answer (with_table table 0 words.old) words.old }
{
    if answer.is_ok() {
        write_table(words, 0, table);
    }
}
