// The sheet program: reads standard input to its end and prints a header and a row for each line (scope paper, "The sheet program").
#![tactic(auto)]

fn main() {
    sheet_io::run();
}
