// The atoms of a cube in scan order, one at a time: the calls on the definitions of `walk` (change request K6). A start makes every check of packing; a
// step refuses nothing, and goes from atom to atom by sums alone.
#![tactic(auto)]

mod atoms;
mod strides;

ghost use Rattle.std.specs.Prelude.{◌≡◌};
ghost use Rattle.walk.specs.Walks.{walk_start, walk_step};

use layout::CubeLayout;
use refusal::Fault;
use walk::{Step, Walk};

// The walk before the first atom. It is refused as packing the same elements into a buffer of `len` bytes is: 1, 2, 3, 4, 6, 5, then 7 or 26.
pub fn start(layout: CubeLayout, elements: &[i16], len: usize) -> Result<Walk, Fault>
    ensures { result ≡ walk_start layout elements.now len }
{
    cube::check_pack(layout, elements, len)?;
    Ok(strides::first(layout))
}

// The next atom, its position and bytes, and the walk behind it; or that none is left. Any walk and any elements are taken: a missing element is 0,
// and where a sum would pass 64 bits none is left.
pub fn step(walk: Walk, elements: &[i16]) -> Step
    ensures { result ≡ walk_step walk elements.now }
{
    let Some(behind) = strides::behind(walk) else {
        return Step {
            atom: None,
            bytes: [0u8; 32],
            walk,
        };
    };
    let bytes = atoms::bytes_of(
        walk.precision,
        walk.channels,
        walk.index as usize,
        walk.plane as usize,
        elements,
    );
    Step {
        atom: Some(walk.position),
        bytes,
        walk: behind,
    }
}
