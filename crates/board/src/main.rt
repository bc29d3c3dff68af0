// Runs the commands of the standard input, one a line, on the library and prints what comes of them, so that bytes from elsewhere
// can be compared with the library's (docs/TESTING.md has the commands).
#![tactic(auto)]

mod answers;
mod board;
mod commands;
mod line;
mod lists;
mod lookup;
mod mended;
mod mending;
mod numbers;
mod paint;
mod parts;
mod print;
mod scan;
mod sheet;
mod source;
mod words;

ghost use Rattle.std.specs.Prelude.{◌≡◌, length};

use board::Board;
use lists::{List, Lists};

// The descriptor of standard input.
const STDIN_FILENO: i32 = 0;

// Reads the input part by part, and then its end: the last line may lack its newline. The count of parts only bounds the loop: 2^64 of them are never read.
fn run_all(board: &mut Board<'_>) {
    let mut part = io::large_buffer();
    for _ in 0..u64::MAX {
        let n = io::read_full(STDIN_FILENO, &mut part);
        if n == 0 {
            break;
        }
        for &c in &part[..n] {
            board.read(c);
        }
    }
    board.read(b'\n');
}

// Room for members, all the same.
fn room<T: Copy, const N: usize>(member: T) -> [T; N]
    ensures { length result ≡ N }
{
    [member; N]
}

fn main() {
    let mut elements = room::<i16, 307200>(0);
    let mut buffer = room::<u8, 2457600>(0);
    let mut samples = room::<i32, 65536>(0);
    let mut board = Board::new(Lists {
        elements: List::new(&mut elements),
        buffer: List::new(&mut buffer),
        samples: List::new(&mut samples),
    });
    run_all(&mut board);
}
