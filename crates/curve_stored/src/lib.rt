// The camera curve from stored entries (scope paper, "Two tables"). `curve_computed` has the same calls with the same promises, and no entries.
#![tactic(auto)]

ghost use Rattle.std.specs.Prelude.{◌≡◌};
ghost use Rattle.camera.specs.Curve.{curve_y, curve_x, y_table, x_table};

mod tables;

// The entries of the Y curve.
pub fn y_table() -> [i16; 257]
    ensures { result ≡ y_table }
{
    tables::Y_CURVE
}

// The entries of the X curve.
pub fn x_table() -> [i16; 65]
    ensures { result ≡ x_table }
{
    tables::X_CURVE
}

// Entry i of the Y curve; past the last entry, the last.
pub fn y_entry(i: u32) -> i16
    ensures { result ≡ curve_y i }
{
    y_table()[general::least(i, 256) as usize]
}

// Entry j of the X curve; past the last entry, the last.
pub fn x_entry(j: u32) -> i16
    ensures { result ≡ curve_x j }
{
    x_table()[general::least(j, 64) as usize]
}
