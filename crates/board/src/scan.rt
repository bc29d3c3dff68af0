// A walk over the atoms of a cube in scan order, each written where it belongs, and a step of any walk.
use crate::answers::print_answer;
use crate::lists::{Sum, show, sum_of, tell_left};
use crate::numbers::Numbers;
use crate::print::{end_line, print, print_natural, print_position, print_same};
use layout::CubeLayout;
use refusal::Answer;
use walk::Walk;

// The greatest buffer's bytes: no walk over a cube in it has more atoms.
const MOST_ATOMS: usize = 2457600;

// The atoms of a walk over elements, one after another: the position and the bytes of each.
#[derive(Drop)]
struct Atoms<'a> {
    walk: Walk,
    elements: &'a [i16],
}

impl Iterator for Atoms<'_> {
    type Item = (u64, [u8; 32]);

    fn next(&mut self) -> Option<(u64, [u8; 32])> {
        let step = walk_calls::step(self.walk, self.elements);
        self.walk = step.walk;
        let bytes = step.bytes;
        step.atom.map(|position| (position, bytes))
    }
}

// Writes the bytes of an atom from its position on, those that the buffer has a place for.
fn write_atom(position: u64, bytes: &[u8; 32], buffer: &mut [u8]) {
    if let Some(places) = buffer.get_mut(position as usize..) {
        for (place, &b) in places.iter_mut().zip(bytes) {
            *place = b;
        }
    }
}

// Writes the atoms that are left. How many there are, and the checksum of their positions.
fn write_atoms(atoms: &mut Atoms<'_>, buffer: &mut [u8]) -> (usize, Sum) {
    let mut count: usize = 0;
    let mut sum = Sum::EMPTY;
    for (position, bytes) in atoms.take(MOST_ATOMS) {
        write_atom(position, &bytes, buffer);
        sum = sum.with((position % 4294967296) as u32);
        count = count.saturating_add(1);
    }
    (count, sum)
}

// Prints the positions of so many atoms, 32 to a line.
fn print_positions(atoms: Atoms<'_>, count: usize) {
    for (i, (position, _)) in atoms.take(count).enumerate() {
        print_position(position % 4294967296);
        if i % 32 == 31 || i == count - 1 {
            end_line();
        } else {
            print(b" ");
        }
    }
}

// Whether packing the elements has the answer given, and leaves the checksum of the buffer.
fn packs_same(layout: CubeLayout, answer: Answer, elements: &[i16], buffer: &mut [u8]) -> bool {
    let before = sum_of(buffer);
    let packed = cube::pack(layout, elements, buffer);
    packed == answer && sum_of(buffer) == before
}

// `walk W..`: the atoms of a cube, each written into the buffer; then one step more, and the same elements packed. Prints the answer, the number of atoms, the checksum of
// their positions, and whether packing did the same; then the positions of the atoms and the buffer, or checksums.
pub fn run(line: u64, layout: CubeLayout, sums: bool, elements: &[i16], buffer: &mut [u8]) {
    let started = walk_calls::start(layout, elements, buffer.len());
    let answer = started.map(|_| ());
    // The walk of zeros has no atom.
    let walk = started.unwrap_or(Numbers::new().walk());
    let mut atoms = Atoms { walk, elements };
    let (count, sum) = write_atoms(&mut atoms, buffer);
    let ended = atoms.next().is_none();
    let same = packs_same(layout, answer, elements, buffer);
    print_answer(line, answer);
    print_natural(count as u64);
    sum.print();
    print_same(ended && same);
    if sums {
        tell_left(true, elements, buffer);
    } else {
        end_line();
        print_positions(Atoms { walk, elements }, count);
        show(buffer);
    }
}

// `step w w ..`: one step of the walk of twelve numbers. The answer is always accepted.
pub fn step(line: u64, walk: Walk, elements: &[i16]) {
    let made = walk_calls::step(walk, elements);
    print_answer(line, Ok(()));
    match made.atom {
        Some(position) => {
            print(b" at");
            print_natural(position);
        }
        None => print(b" none left"),
    }
    print_walk(made.walk);
    end_line();
    show(&made.bytes);
}

// A walk: its numbers.
fn print_walk(walk: Walk) {
    print(b" walk");
    let numbers = [
        walk.position,
        walk.index,
        walk.columns,
        walk.rows,
        walk.channels,
        walk.precision,
        walk.width,
        walk.height,
        walk.plane,
        walk.line,
        walk.surface,
        walk.group,
    ];
    for n in numbers {
        print_natural(n);
    }
}
