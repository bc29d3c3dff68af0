// The ready-made lookup settings of the camera curve.
ghost use Rattle.std.specs.Prelude.{◌≡◌};
ghost use Rattle.refusal.specs.Codes.{answer_of};
ghost use Rattle.camera.specs.Ready.{ready_answer};
ghost use Rattle.olsketina.specs.Answers.{Answered};
ghost use Rattle.olsketina.specs.Ready.{choice_named, ReadyStored};

use crate::words::{PRIORITIES, SETTINGS_WORDS, SLOPES};
use crate::{answers, lut_words};
use lut::{LutSettings, Table};
use refusal::Fault;

// The bit that a word names: 0 is X, 1 is Y, any other leaves it unnamed.
#[tactic(auto, unfolding(crate::specs::Ready::choice_named))]
fn choice_named(word: u32) -> Option<Table>
    ensures { result ≡ choice_named word }
{
    match word {
        0 => Some(Table::X),
        1 => Some(Table::Y),
        _ => None,
    }
}

// Writes the settings where there are any; gives the number of the answer, and writes its index at fault.
fn write_ready(
    ready: Result<LutSettings, Fault>,
    x_settings: &mut [i32; SETTINGS_WORDS],
    y_settings: &mut [i32; SETTINGS_WORDS],
    scales: &mut [i16; SLOPES],
    shifts: &mut [i32; SLOPES],
    priorities: &mut [u32; PRIORITIES],
    fault: &mut usize,
) -> u32
    ensures answered { Answered (answer_of ready) result fault.new }
    ensures stored { ReadyStored ready x_settings.old y_settings.old scales.old shifts.old priorities.old x_settings.new y_settings.new scales.new shifts.new priorities.new }
{
    match ready {
        Err(refused) => answers::give(Err(refused), fault),
        Ok(s) => {
            *x_settings = lut_words::x_words(s);
            *y_settings = lut_words::y_words(s);
            *scales = lut_words::scale_words(s);
            *shifts = lut_words::shift_words(s);
            *priorities = lut_words::priority_words(s);
            answers::give(Ok(()), fault)
        }
    }
}

// camera::ready_made
#[unsafe(no_mangle)]
pub extern "C" fn olsketina_camera_ready_made(
    select: i32,
    priority: u32,
    overflow: u32,
    underflow: u32,
    x_settings: &mut [i32; SETTINGS_WORDS],
    y_settings: &mut [i32; SETTINGS_WORDS],
    scales: &mut [i16; SLOPES],
    shifts: &mut [i32; SLOPES],
    priorities: &mut [u32; PRIORITIES],
    fault: &mut usize,
) -> u32
    ensures answered { Answered (answer_of (ready_answer select (choice_named priority) (choice_named overflow) (choice_named underflow))) result fault.new }
    ensures stored { ReadyStored (ready_answer select (choice_named priority) (choice_named overflow) (choice_named underflow)) x_settings.old y_settings.old scales.old shifts.old priorities.old x_settings.new y_settings.new scales.new shifts.new priorities.new }
{
    let ready = camera::ready_made(
        select,
        choice_named(priority),
        choice_named(overflow),
        choice_named(underflow),
    );
    write_ready(
        ready, x_settings, y_settings, scales, shifts, priorities, fault,
    )
}
