// The camera curve for C, computed (include/olsketina.h; change request K4): an archive in place of olsketina_curve, with no entries in it.
// A twin of olsketina_curve: the C interface has two archives with the same names, and an archive is a crate.
#![tactic(auto)]

ghost use Rattle.std.specs.Prelude.{◌≡◌};
ghost use Rattle.camera.specs.Curve.{curve_y, curve_x, y_table, x_table};

// The header's macros of the same names.
const Y_ENTRIES: usize = 257;

const X_ENTRIES: usize = 65;

// curve_computed::y_entry
#[unsafe(no_mangle)]
pub extern "C" fn olsketina_camera_y_entry(i: u32) -> i16
    ensures { result ≡ curve_y i }
{
    curve_computed::y_entry(i)
}

// curve_computed::x_entry
#[unsafe(no_mangle)]
pub extern "C" fn olsketina_camera_x_entry(j: u32) -> i16
    ensures { result ≡ curve_x j }
{
    curve_computed::x_entry(j)
}

// curve_computed::y_table
#[unsafe(no_mangle)]
pub extern "C" fn olsketina_camera_y_table(entries: &mut [i16; Y_ENTRIES])
    ensures { entries.new ≡ y_table }
{
    *entries = curve_computed::y_table();
}

// curve_computed::x_table
#[unsafe(no_mangle)]
pub extern "C" fn olsketina_camera_x_table(entries: &mut [i16; X_ENTRIES])
    ensures { entries.new ≡ x_table }
{
    *entries = curve_computed::x_table();
}
