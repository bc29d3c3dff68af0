// The bytes of a part, one stretch after another.
ghost use Rattle.std.specs.Prelude.{◌≡◌, true, ◌&&◌, ℕ, ◌+◌, ◌%◌, ◌<◌, leb, length, set};
ghost use Rattle.refusal.specs.Checks.{in_order, Accepted};
ghost use Rattle.layout.specs.Rules.{layout_checks};
ghost use Rattle.padding.specs.Calls.{lent};
ghost use Rattle.padding_calls.specs.Steps.{Zeros, Room, HasRoom, Mends, Done};

use crate::stretches;
use layout::CubeLayout;

// Whether all bytes are zero: by one pass that never leaves early.
fn all_zero(bytes: &[u8]) -> bool
    ensures { result ≡ true → Zeros 0 (length bytes.now) bytes.now }
{
    let mut clean = true;
    for &b in bytes {
        if b != 0 {
            clean = false;
        }
    }
    clean
}

// A report that is being filled: room for positions and old values, and how many lines it has.
#[derive(Drop)]
struct Report<'a> {
    positions: &'a mut [u64],
    olds: &'a mut [u8],
    lines: usize,
}

impl Report<'_> {
    // One line more.
    fn push(&mut self, position: u64, old: u8)
        requires { (self.old.lines < length self.old.positions.now) × (self.old.lines < length self.old.olds.now) }
        ensures same_reference { (self.new.positions.ghost_name ≡ self.old.positions.ghost_name) × (self.new.olds.ghost_name ≡ self.old.olds.ghost_name) }
        ensures positions { self.new.positions.now ≡ set self.old.positions.now self.old.lines position }
        ensures olds { self.new.olds.now ≡ set self.old.olds.now self.old.lines old }
        ensures lines { self.new.lines ≡ self.old.lines + 1 }
    {
        self.positions[self.lines] = position;
        self.olds[self.lines] = old;
        self.lines += 1;
    }
}

// Bytes that are all padding: each that is not zero is reported, and becomes zero.
// first, from and to stay numbers: the laws count bytes from the part's first one (Goes, Done), and a slice would need them again for a middle piece.
fn clear_each(first: u64, from: usize, to: usize, part: &mut [u8], report: &mut Report)
    requires { HasRoom first from to part.old report.old }
    ensures { Mends (λ (x : ℕ). true) first from to part.old report.old part.new report.new }
{
    for i in from..to {
        let old = part[i];
        if old != 0 {
            report.push(first + i as u64, old);
            part[i] = 0;
        }
    }
}

// The same, where most often all of them are zero already.
fn clear(first: u64, from: usize, to: usize, part: &mut [u8], report: &mut Report)
    requires { HasRoom first from to part.old report.old }
    ensures { Mends (λ (x : ℕ). true) first from to part.old report.old part.new report.new }
{
    if !all_zero(&part[from..to]) {
        clear_each(first, from, to, part, report);
    }
}

// Bytes of a row's atoms: in each atom those from byte `pad` on are padding.
fn row(first: u64, from: usize, to: usize, pad: usize, part: &mut [u8], report: &mut Report)
    requires { HasRoom first from to part.old report.old }
    ensures { Mends (λ (x : ℕ). leb pad (x % 32)) first from to part.old report.old part.new report.new }
{
    let mut i = from;
    // A while: it goes on by an atom's bytes, not by one.
    while i < to {
        let byte = ((first + i as u64) % 32) as usize;
        let end = i + (32 - byte).min(to - i);
        let start = i + pad.saturating_sub(byte).min(end - i);
        clear(first, start, end, part, report);
        i = end;
    }
}

// Bytes of one stretch.
fn stretch(
    atoms: bool,
    first: u64,
    from: usize,
    to: usize,
    pad: usize,
    part: &mut [u8],
    report: &mut Report,
)
    requires { HasRoom first from to part.old report.old }
    ensures { Mends (λ (x : ℕ). atoms && leb pad (x % 32)) first from to part.old report.old part.new report.new }
{
    if atoms {
        row(first, from, to, pad, part, report);
    }
}

// All bytes of the part. How many are reported.
pub(crate) fn all(
    layout: CubeLayout,
    first: u64,
    part: &mut [u8],
    positions: &mut [u64],
    olds: &mut [u8],
) -> usize
    requires { (in_order (layout_checks layout) ≡ Accepted) × Room first 0 (length part.old) 0 part.old positions.old olds.old }
    ensures { Done layout first (lent part.old positions.old olds.old) (length part.old) result part.new positions.new olds.new }
{
    let pad = stretches::elements_end(layout) as usize;
    let mut report = Report {
        positions,
        olds,
        lines: 0,
    };
    let mut i: usize = 0;
    // A while: it goes on by a stretch's bytes, not by one.
    while i < part.len() {
        let s = stretches::next(layout, first + i as u64);
        let to = (s.end - first).min(part.len() as u64) as usize;
        stretch(s.atoms, first, i, to, pad, part, &mut report);
        i = to;
    }
    report.lines
}
