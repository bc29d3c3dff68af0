// The sheet program, run on a long input: over 64 KiB and over 100 lines, with values over 2^32 (model/sheet_long.py makes it).
#![tactic(auto)]

fn main() {
    sheet_io::run();
}
