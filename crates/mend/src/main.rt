// The mending program: makes the padding of a frame in a file zero again, and prints what stood there (change request K8). A readable input has at most 363 bytes, so that
// a buffer that is full is unreadable whatever follows.
#![tactic(auto)]

// The descriptor of standard input.
const STDIN_FILENO: i32 = 0;

fn main(rt: HostRuntime) {
    let mut input = io::buffer();
    let n = io::read_full(STDIN_FILENO, &mut input);
    mend_io::run(&rt, &input[..n]);
}
