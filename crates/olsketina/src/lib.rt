// The library for C (include/olsketina.h): the paper's calls on numbers, slices and arrays of words.
#![tactic(auto)]

ghost use Rattle.std.specs.Prelude.{◌≡◌};
ghost use Rattle.olsketina.specs.Sizes.{version};

mod answers;
pub mod atom_calls;
pub mod cube_calls;
pub mod lookup_calls;
mod lut_words;
pub mod mend_calls;
pub mod paint_calls;
pub mod pixel_calls;
pub mod ready_calls;
pub mod region_calls;
pub mod sheet_calls;
mod sheet_words;
mod tables;
pub mod weight_calls;
mod words;

// The header's OLSKETINA_VERSION.
#[unsafe(no_mangle)]
pub extern "C" fn olsketina_version() -> u32
    ensures { result ≡ version }
{
    words::VERSION
}
