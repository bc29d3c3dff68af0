// A layout that was checked: its extent, and whose its bytes are, by division.
ghost use Rattle.std.specs.Prelude.{◌≡◌, true, ◌+◌, ◌≤◌, ◌<◌};
ghost use Rattle.refusal.specs.Checks.{in_order, Accepted};
ghost use Rattle.layout.specs.Geometry.{surfaces, cube_extent};
ghost use Rattle.layout.specs.Owners.{atom_owner, owner};
ghost use Rattle.layout.specs.Rules.{layout_checks};
ghost use Rattle.layout.specs.Whose.{in_extent, byte_owner};

use layout::{ByteOwner, CubeLayout};

// A layout that checks 1 to 4 accept.
#[derive(Clone, Copy)]
pub struct ValidLayout {
    pub layout: CubeLayout,
    ghost accepted: { in_order (layout_checks layout) ≡ Accepted },
}

impl ValidLayout {
    // S = ceil(C·e/32).
    fn surfaces(self) -> u32
        ensures { result ≡ surfaces self.layout }
    {
        let layout = self.layout;
        let bytes = layout.channels * elements::element_bytes(layout.precision);
        (bytes + 31) / 32
    }

    // Bytes from the start to the end of the last atom.
    pub fn extent(self) -> u64
        ensures { result ≡ cube_extent self.layout }
    {
        let layout = self.layout;
        let surfaces = self.surfaces() as u64;
        let lines = (layout.height as u64 - 1) * layout.line as u64;
        (surfaces - 1) * layout.surface as u64 + lines + 32 * layout.width as u64
    }

    // The byte after the last atom.
    pub fn end(self) -> u64
        ensures { result ≡ self.layout.start + cube_extent self.layout }
    {
        self.layout.start as u64 + self.extent()
    }

    // The owner of a byte of the atom at a surface, row and column.
    fn atom_owner(self, surface: u32, row: u32, column: u32, byte: u32) -> ByteOwner
        requires { (surface < surfaces self.layout) × (byte < 32) }
        ensures { result ≡ byte_owner true (atom_owner self.layout surface row column byte) }
    {
        let layout = self.layout;
        let size = elements::element_bytes(layout.precision);
        let at = 32 * surface + byte;
        if layout.channels * size <= at {
            return ByteOwner::Padding;
        }
        ByteOwner::Element(at / size, row, column, at % size)
    }

    // The owner of a byte in the extent.
    fn extent_owner(self, position: u64) -> ByteOwner
        requires { (self.layout.start ≤ position) × (position < self.layout.start + cube_extent self.layout) }
        ensures { result ≡ byte_owner true (owner self.layout position) }
    {
        let layout = self.layout;
        let offset = position - layout.start as u64;
        let surface = offset / layout.surface as u64;
        let in_surface = offset % layout.surface as u64;
        let row = in_surface / layout.line as u64;
        let in_line = in_surface % layout.line as u64;
        let column = in_line / 32;
        if layout.height as u64 <= row {
            return ByteOwner::Gap;
        }
        if layout.width as u64 <= column {
            return ByteOwner::Gap;
        }
        self.atom_owner(
            surface as u32,
            row as u32,
            column as u32,
            (in_line % 32) as u32,
        )
    }

    // The owner of any byte.
    pub fn byte_owner(self, position: u64) -> ByteOwner
        ensures { result ≡ byte_owner (in_extent self.layout position) (owner self.layout position) }
    {
        if position < self.layout.start as u64 {
            return ByteOwner::Outside;
        }
        if self.end() <= position {
            return ByteOwner::Outside;
        }
        self.extent_owner(position)
    }
}
