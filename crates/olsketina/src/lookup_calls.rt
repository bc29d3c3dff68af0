// The two-table lookup, one call for each mode of the X table: twins, since the C interface names each.
ghost use Rattle.std.specs.Prelude.{◌≡◌, length};
ghost use Rattle.lut.specs.Calls.{run_answer, run_outputs};
ghost use Rattle.olsketina.specs.Answers.{Answered};
ghost use Rattle.olsketina.specs.Lookups.{linear_from, exponential_from, counters_from, run_counter_words};

use crate::words::{COUNTERS, SETTINGS_WORDS, SLOPES};
use crate::{answers, lut_words};
use lut::{LutSettings, XMode};

// A run on settings.
#[tactic(auto, unfolding(crate::specs::Lookups::run_counter_words))]
fn run(
    s: LutSettings,
    x_entries: &[i16],
    y_entries: &[i16],
    samples: &[i32],
    outputs: &mut [i32],
    counters: &mut [u32; COUNTERS],
    fault: &mut usize,
) -> u32
    ensures answered { Answered (run_answer s x_entries.now y_entries.now samples.now (length outputs.old) (counters_from counters.old)) result fault.new }
    ensures left { outputs.new ≡ run_outputs s x_entries.now y_entries.now samples.now (counters_from counters.old) outputs.old }
    ensures counted { counters.new ≡ run_counter_words s x_entries.now y_entries.now samples.now (length outputs.old) counters.old }
{
    let before = lut_words::counters_of(counters);
    let o = lut_calls::run(s, x_entries, y_entries, samples, outputs, before);
    lut_words::leave_counters(counters, o.answer, o.counters);
    answers::give(o.answer, fault)
}

// lut_calls::run, X linear
#[unsafe(no_mangle)]
pub extern "C" fn olsketina_lut_run_linear(
    x_settings: &[i32; SETTINGS_WORDS],
    y_settings: &[i32; SETTINGS_WORDS],
    scales: &[i16; SLOPES],
    shifts: &[i32; SLOPES],
    priority: bool,
    overflow: bool,
    underflow: bool,
    x_entries: &[i16],
    y_entries: &[i16],
    samples: &[i32],
    outputs: &mut [i32],
    counters: &mut [u32; COUNTERS],
    fault: &mut usize,
) -> u32
    ensures answered { Answered (run_answer (linear_from x_settings.now y_settings.now scales.now shifts.now priority overflow underflow) x_entries.now y_entries.now samples.now (length outputs.old) (counters_from counters.old)) result fault.new }
    ensures left { outputs.new ≡ run_outputs (linear_from x_settings.now y_settings.now scales.now shifts.now priority overflow underflow) x_entries.now y_entries.now samples.now (counters_from counters.old) outputs.old }
    ensures counted { counters.new ≡ run_counter_words (linear_from x_settings.now y_settings.now scales.now shifts.now priority overflow underflow) x_entries.now y_entries.now samples.now (length outputs.old) counters.old }
{
    let select = x_settings[0];
    let mode = XMode::Linear(select);
    let s = lut_words::settings_of(
        mode, x_settings, y_settings, scales, shifts, priority, overflow, underflow,
    );
    run(s, x_entries, y_entries, samples, outputs, counters, fault)
}

// lut_calls::run, X exponential
#[unsafe(no_mangle)]
pub extern "C" fn olsketina_lut_run_exponential(
    x_settings: &[i32; SETTINGS_WORDS],
    y_settings: &[i32; SETTINGS_WORDS],
    scales: &[i16; SLOPES],
    shifts: &[i32; SLOPES],
    priority: bool,
    overflow: bool,
    underflow: bool,
    x_entries: &[i16],
    y_entries: &[i16],
    samples: &[i32],
    outputs: &mut [i32],
    counters: &mut [u32; COUNTERS],
    fault: &mut usize,
) -> u32
    ensures answered { Answered (run_answer (exponential_from x_settings.now y_settings.now scales.now shifts.now priority overflow underflow) x_entries.now y_entries.now samples.now (length outputs.old) (counters_from counters.old)) result fault.new }
    ensures left { outputs.new ≡ run_outputs (exponential_from x_settings.now y_settings.now scales.now shifts.now priority overflow underflow) x_entries.now y_entries.now samples.now (counters_from counters.old) outputs.old }
    ensures counted { counters.new ≡ run_counter_words (exponential_from x_settings.now y_settings.now scales.now shifts.now priority overflow underflow) x_entries.now y_entries.now samples.now (length outputs.old) counters.old }
{
    let offset = x_settings[0];
    let mode = XMode::Exponential(offset);
    let s = lut_words::settings_of(
        mode, x_settings, y_settings, scales, shifts, priority, overflow, underflow,
    );
    run(s, x_entries, y_entries, samples, outputs, counters, fault)
}
