// The elements of a box.
ghost use Rattle.std.specs.Prelude.{◌≡◌, ◌≤◌};
ghost use Rattle.layout.specs.Boxes.{box_count};

use layout::ElementBox;

// The elements of a box.
pub(crate) fn box_count(b: ElementBox) -> u64
    requires { (b.channels ≤ 8192) × (b.rows ≤ 8192) × (b.columns ≤ 8192) }
    ensures { result ≡ box_count b }
{
    b.channels as u64 * b.rows as u64 * b.columns as u64
}
