// The bytes of one atom, element by element.
ghost use Rattle.std.specs.Prelude.{◌≡◌, ◌+◌, ◌≤◌, get_or, pos};
ghost use Rattle.elements.specs.Bytes.{element_bytes, byte_of};
ghost use Rattle.elements.specs.Lists.{tabulate};
ghost use Rattle.columns.specs.Columns.{bytes_set};
ghost use Rattle.walk.specs.Walks.{atom_elements, atom_byte};

// Bytes of an element. Not by elements::element_bytes, of 32 bits: any number of 64 bits is a walk's precision.
fn size(precision: u64) -> usize
    ensures { result ≡ element_bytes precision }
{
    if precision == 0 { 1 } else { 2 }
}

// Elements of an atom: 32 of one byte, 16 of two.
pub(crate) fn full(precision: u64) -> u64
    ensures { result ≡ atom_elements precision }
{
    if precision == 0 { 32 } else { 16 }
}

// The element at an index, 0 where there is none.
fn element(elements: &[i16], i: usize) -> i16
    ensures { result ≡ get_or elements.now i (pos 0) }
{
    elements.get(i).copied().unwrap_or(0)
}

// Writes an element from byte k on.
fn write_element(e: usize, x: i16, k: usize, bytes: &mut [u8; 32])
    requires { (1 ≤ e) × (e ≤ 2) × (k + e ≤ 32) }
    ensures { bytes.new ≡ bytes_set (byte_of x) e k bytes.old }
{
    bytes[k] = elements::low_byte(x);
    if e == 2 {
        bytes[k + 1] = elements::high_byte(x);
    }
}

// The bytes of an atom whose first element has the index given, its channels `plane` apart: of as many channels as are left and it holds, then 0.
pub(crate) fn bytes_of(
    precision: u64,
    channels: u64,
    index: usize,
    plane: usize,
    elements: &[i16],
) -> [u8; 32]
    ensures { result ≡ tabulate 32 (atom_byte (element_bytes precision) channels index plane elements.now) }
{
    let e = size(precision);
    let n = full(precision).min(channels);
    let mut bytes = [0u8; 32];
    let mut i = index;
    let mut k: usize = 0;
    for _j in 0..n {
        write_element(e, element(elements, i), k, &mut bytes);
        // past 64 bits there is no element either
        i = i.saturating_add(plane);
        k += e;
    }
    bytes
}
