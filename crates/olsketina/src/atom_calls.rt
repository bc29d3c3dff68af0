// The atoms of a cube in scan order: a walk as words, its start and its steps.
ghost use Rattle.std.specs.Prelude.{◌≡◌};
ghost use Rattle.refusal.specs.Codes.{answer_of};
ghost use Rattle.walk.specs.Walks.{walk_start, walk_step};
ghost use Rattle.olsketina.specs.Answers.{Answered};
ghost use Rattle.olsketina.specs.Words.{layout_from};
ghost use Rattle.olsketina.specs.Walks.{walk_from, walk_words, start_words, StepGiven};

use crate::words::{ATOM_BYTES, LAYOUT_WORDS, WALK_WORDS};
use crate::{answers, words};
use refusal::Fault;
use walk::{Step, Walk};

// The walk that words say.
fn walk_of(words: &[u64; WALK_WORDS]) -> Walk
    ensures { result ≡ walk_from words.now }
{
    Walk {
        position: words[0],
        index: words[1],
        columns: words[2],
        rows: words[3],
        channels: words[4],
        precision: words[5],
        width: words[6],
        height: words[7],
        plane: words[8],
        line: words[9],
        surface: words[10],
        group: words[11],
    }
}

// The words of a walk.
fn walk_words(walk: Walk) -> [u64; WALK_WORDS]
    ensures { result ≡ walk_words walk }
{
    [
        walk.position,
        walk.index,
        walk.columns,
        walk.rows,
        walk.channels,
        walk.precision,
        walk.width,
        walk.height,
        walk.plane,
        walk.line,
        walk.surface,
        walk.group,
    ]
}

// Writes the words of a walk that was started; gives the number of the answer, and writes its index at fault.
fn write_start(started: Result<Walk, Fault>, walk: &mut [u64; WALK_WORDS], fault: &mut usize) -> u32
    ensures answered { Answered (answer_of started) result fault.new }
    ensures stored { walk.new ≡ start_words started walk.old }
{
    answers::give_value(started.map(walk_words), walk, fault)
}

// Writes an atom that a step gives, and the walk behind it; gives 1 where there is one, else 0.
fn write_step(
    step: Step,
    walk: &mut [u64; WALK_WORDS],
    position: &mut u64,
    bytes: &mut [u8; ATOM_BYTES],
) -> u32
    ensures { StepGiven step walk.old position.old bytes.old result walk.new position.new bytes.new }
{
    match step.atom {
        None => 0,
        Some(at) => {
            *walk = walk_words(step.walk);
            *position = at;
            // A variable: an array out of a field is not proved where it is stored straight.
            let atom = step.bytes;
            *bytes = atom;
            1
        }
    }
}

// walk_calls::start
#[unsafe(no_mangle)]
pub extern "C" fn olsketina_walk_start(
    layout: &[u32; LAYOUT_WORDS],
    elements: &[i16],
    buffer_len: usize,
    walk: &mut [u64; WALK_WORDS],
    fault: &mut usize,
) -> u32
    ensures answered { Answered (answer_of (walk_start (layout_from layout.now) elements.now buffer_len)) result fault.new }
    ensures stored { walk.new ≡ start_words (walk_start (layout_from layout.now) elements.now buffer_len) walk.old }
{
    let started = walk_calls::start(words::layout_at(layout, 0), elements, buffer_len);
    write_start(started, walk, fault)
}

// walk_calls::step
#[unsafe(no_mangle)]
pub extern "C" fn olsketina_walk_step(
    walk: &mut [u64; WALK_WORDS],
    elements: &[i16],
    position: &mut u64,
    bytes: &mut [u8; ATOM_BYTES],
) -> u32
    ensures { StepGiven (walk_step (walk_from walk.old) elements.now) walk.old position.old bytes.old result walk.new position.new bytes.new }
{
    let step = walk_calls::step(walk_of(walk), elements);
    write_step(step, walk, position, bytes)
}
