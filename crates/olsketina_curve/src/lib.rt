// The camera curve for C from stored entries (include/olsketina.h), an archive of its own; olsketina_curve_computed can take its place.
// A twin of olsketina_curve_computed: the C interface has two archives with the same names, and an archive is a crate.
#![tactic(auto)]

ghost use Rattle.std.specs.Prelude.{◌≡◌};
ghost use Rattle.camera.specs.Curve.{curve_y, curve_x, y_table, x_table};

// The header's macros of the same names.
const Y_ENTRIES: usize = 257;

const X_ENTRIES: usize = 65;

// curve_stored::y_entry
#[unsafe(no_mangle)]
pub extern "C" fn olsketina_camera_y_entry(i: u32) -> i16
    ensures { result ≡ curve_y i }
{
    curve_stored::y_entry(i)
}

// curve_stored::x_entry
#[unsafe(no_mangle)]
pub extern "C" fn olsketina_camera_x_entry(j: u32) -> i16
    ensures { result ≡ curve_x j }
{
    curve_stored::x_entry(j)
}

// curve_stored::y_table
#[unsafe(no_mangle)]
pub extern "C" fn olsketina_camera_y_table(entries: &mut [i16; Y_ENTRIES])
    ensures { entries.new ≡ y_table }
{
    *entries = curve_stored::y_table();
}

// curve_stored::x_table
#[unsafe(no_mangle)]
pub extern "C" fn olsketina_camera_x_table(entries: &mut [i16; X_ENTRIES])
    ensures { entries.new ≡ x_table }
{
    *entries = curve_stored::x_table();
}
