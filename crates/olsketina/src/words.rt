// Settings as words: how many each has, and what they say. Functions, and no From: settings and arrays are types of other crates.
ghost use Rattle.std.specs.Prelude.{◌≡◌, ◌+◌, ◌≤◌, length};
ghost use Rattle.olsketina.specs.Sizes.{layout_size};
ghost use Rattle.olsketina.specs.Words.{layout_at, box_from, weights_from, image_from};

use layout::{CubeLayout, ElementBox};
use pixels::PixelSetting;
use weights::WeightLayout;

// The header's macros of the same names.
pub(crate) const VERSION: u32 = 9;

pub(crate) const LAYOUT_WORDS: usize = 7;

pub(crate) const BOX_WORDS: usize = 6;

pub(crate) const SLOT_WORDS: usize = 6;

pub(crate) const SLOTS: usize = 16;

pub(crate) const TABLE_WORDS: usize = LAYOUT_WORDS + SLOT_WORDS * SLOTS;

pub(crate) const WEIGHTS_WORDS: usize = 5;

pub(crate) const IMAGE_WORDS: usize = 8;

pub(crate) const SETTINGS_WORDS: usize = 3;

pub(crate) const SLOPES: usize = 4;

pub(crate) const COUNTERS: usize = 5;

pub(crate) const PRIORITIES: usize = 3;

pub(crate) const STATE_TABLE: usize = 4;

pub(crate) const STATE_WORDS: usize = STATE_TABLE + TABLE_WORDS;

pub(crate) const TEXT_BYTES: usize = 120;

pub(crate) const ROW_WORDS: usize = 5;

pub(crate) const WALK_WORDS: usize = 12;

pub(crate) const ATOM_BYTES: usize = 32;

// The layout whose words stand from `at` on.
pub(crate) fn layout_at(words: &[u32], at: usize) -> CubeLayout
    requires { at + layout_size ≤ length words.now }
    ensures { result ≡ layout_at words.now at }
{
    CubeLayout {
        width: words[at],
        height: words[at + 1],
        channels: words[at + 2],
        precision: words[at + 3],
        line: words[at + 4],
        surface: words[at + 5],
        start: words[at + 6],
    }
}

// A box of elements.
pub(crate) fn box_of(words: &[u32; BOX_WORDS]) -> ElementBox
    ensures { result ≡ box_from words.now }
{
    ElementBox {
        channel: words[0],
        row: words[1],
        column: words[2],
        channels: words[3],
        rows: words[4],
        columns: words[5],
    }
}

// A weight tensor's layout.
pub(crate) fn weights_of(words: &[u32; WEIGHTS_WORDS]) -> WeightLayout
    ensures { result ≡ weights_from words.now }
{
    WeightLayout {
        kernels: words[0],
        channels: words[1],
        rows: words[2],
        columns: words[3],
        precision: words[4],
    }
}

// A pixel image's setting.
pub(crate) fn image_of(words: &[u32; IMAGE_WORDS]) -> PixelSetting
    ensures { result ≡ image_from words.now }
{
    PixelSetting {
        format: words[0],
        width: words[1],
        height: words[2],
        channels: words[3],
        precision: words[4],
        offset: words[5],
        start: words[6],
        line: words[7],
    }
}
