// A whole file mended: the buffer in parts, held against the whole in one part (change request K8).
ghost use Rattle.std.specs.Prelude.{◌<◌, ◌≤◌, length};

use crate::answers::print_answer;
use crate::line::Unmade;
use crate::lists::{Sum, sum_of, tell};
use crate::numbers::Numbers;
use crate::print::{print_natural, print_same};
use layout::CubeLayout;
use refusal::{Answer, Quantity};

// The greatest file, and the greatest part.
const MOST_BYTES: usize = 65536;

// What the parts of a file came to: the last refusal, if any; how many bytes were reported; a checksum of the joined report.
#[derive(Clone, Copy, PartialEq)]
struct Mended {
    answer: Answer,
    count: u64,
    sum: Sum,
}

impl Mended {
    // Nothing reported, with an answer.
    fn nothing(answer: Answer) -> Mended {
        Mended {
            answer,
            count: 0,
            sum: Sum::EMPTY,
        }
    }
}

// Room for a report: positions and old values.
#[derive(Drop)]
struct Report<'a> {
    positions: &'a mut [u64],
    olds: &'a mut [u8],
}

impl Report<'_> {
    // What the parts came to with one more, by its answer and this report.
    fn joined(&self, mut m: Mended, given: Quantity) -> Mended {
        match given {
            Ok(count) => {
                for (&position, &old) in self
                    .positions
                    .iter()
                    .zip(&*self.olds)
                    .take(count as usize)
                {
                    m.sum = m.sum.with_position(position).with(u32::from(old));
                }
                m.count = m.count.wrapping_add(count);
            }
            Err(fault) => m.answer = Err(fault),
        }
        m
    }

    // Writes the first so many old values back at their positions in a file.
    fn write_back(&self, count: u64, file: &mut [u8]) {
        for (&position, &old) in self.positions.iter().zip(&*self.olds).take(count as usize) {
            if let Some(place) = file.get_mut(position as usize) {
                *place = old;
            }
        }
    }

    // Mends a part of a file of `len` bytes, its first byte at `at`; what the parts came to with it.
    fn with_part(
        &mut self,
        layout: CubeLayout,
        before: Mended,
        at: u64,
        len: u64,
        part: &mut [u8],
    ) -> Mended {
        let given = padding_calls::mend(layout, at, len, part, self.positions, self.olds);
        self.joined(before, given)
    }

    // Mends a file in parts of `size` bytes, the last of those that are left; before them an empty part.
    fn in_parts(&mut self, layout: CubeLayout, size: usize, file: &mut [u8]) -> Mended
        requires { 0 < size }
    {
        let len = file.len() as u64;
        let mut at: u64 = 0;
        let mut m = self.with_part(layout, Mended::nothing(Ok(())), 0, len, &mut []);
        for part in file.chunks_mut(size) {
            let n = part.len() as u64;
            m = self.with_part(layout, m, at, len, part);
            at = at.wrapping_add(n);
        }
        m
    }

    // Whether mending a file in one part comes to the same as `parts`, leaves the checksum of `mended`, and its old values written back the checksum that it had.
    fn is_whole(
        &mut self,
        layout: CubeLayout,
        parts: Mended,
        mended: &[u8],
        file: &mut [u8],
    ) -> bool {
        let before = sum_of(file);
        let whole = self.in_parts(layout, MOST_BYTES, file);
        let after = sum_of(file);
        self.write_back(whole.count, file);
        whole == parts && after == sum_of(mended) && sum_of(file) == before
    }

    // Whether mending a mended file has the same answer, reports nothing and leaves its checksum.
    fn is_clean(&mut self, layout: CubeLayout, answer: Answer, file: &mut [u8]) -> bool {
        let before = sum_of(file);
        let again = self.in_parts(layout, MOST_BYTES, file);
        again == Mended::nothing(answer) && before == sum_of(file)
    }
}

// Mends the buffer, a whole file, in parts; prints the answer, the number of bytes that were reported, the checksum of the report, and whether the whole in one part and the mended file do as
// they must. A function of its own: its lists are filled where it begins, so no refused line fills them.
fn mend(line: u64, layout: CubeLayout, size: usize, buffer: &mut [u8])
    requires { (0 < size) × (length buffer.old ≤ 65536) }
{
    let mut other = [0; MOST_BYTES];
    let other = &mut other[..buffer.len()];
    other.copy_from_slice(buffer);
    let mut positions = [0; MOST_BYTES];
    let mut olds = [0; MOST_BYTES];
    let mut report = Report {
        positions: &mut positions,
        olds: &mut olds,
    };
    let parts = report.in_parts(layout, size, buffer);
    let whole = report.is_whole(layout, parts, buffer, other);
    let clean = report.is_clean(layout, parts.answer, buffer);
    print_answer(line, parts.answer);
    print_natural(parts.count);
    parts.sum.print();
    print_same(whole && clean);
}

// `mend file W.. size`: the buffer is a whole file, of at most 65536 bytes. Mends it, and prints the buffer, or its checksum.
pub fn file(line: u64, mut n: Numbers, sums: bool, buffer: &mut [u8]) -> Result<(), Unmade> {
    let layout = n.cube_layout();
    let size = n.index();
    if size == 0 || MOST_BYTES < size || MOST_BYTES < buffer.len() {
        return Err(Unmade::Unreadable);
    }
    mend(line, layout, size, buffer);
    tell(sums, buffer);
    Ok(())
}
