// The camera curve computed from its rule, by Newton's steps (scope paper, "Two tables"; change request K4): no entry is stored. The calls and
// their promises are those of `curve_stored`.
#![tactic(auto)]

ghost use Rattle.std.specs.Prelude.{◌≡◌, map, ◌*◌, ◌≤◌, length};
ghost use Rattle.camera.specs.Curve.{root, curve_entry, curve_y, curve_x, indices, y_table, x_table};

// The greatest whole number whose square is at or below n: Newton's steps from above, until the estimate stops falling. No number of 32 bits has
// a root above 65535.
fn root(n: u32) -> u32
    ensures { result ≡ root n }
{
    if n == 0 {
        return 0;
    }
    let mut estimate: u32 = 65535;
    // A loop: it goes on until the estimate stops falling, not by one.
    loop {
        let next = (estimate + n / estimate) / 2;
        if estimate <= next {
            break estimate;
        }
        estimate = next;
    }
}

// Entry i of a curve with entries 0 to `last`; past the last, the last. 268435456 is 16384 squared.
fn entry(last: u32, step: u32, i: u32) -> i16
    requires { last * step ≤ 268435456 }
    ensures { result ≡ curve_entry last step i }
{
    root(general::least(i, last) * step) as i16
}

// The entries of a curve, from entry 0 on.
fn table<const N: usize>(last: u32, step: u32) -> [i16; N]
    requires { (last * step ≤ 268435456) × (N ≤ 4294967295) }
    ensures { result ≡ map (curve_entry last step) (indices 0 N) }
{
    let mut entries = [0i16; N];
    for i in 0..N {
        entries[i] = entry(last, step, i as u32);
    }
    entries
}

// The entries of the Y curve.
pub fn y_table() -> [i16; 257]
    ensures { result ≡ y_table }
{
    table(256, 1048576)
}

// The entries of the X curve.
pub fn x_table() -> [i16; 65]
    ensures { result ≡ x_table }
{
    table(64, 262144)
}

// Entry i of the Y curve; past the last entry, the last.
pub fn y_entry(i: u32) -> i16
    ensures { result ≡ curve_y i }
{
    entry(256, 1048576, i)
}

// Entry j of the X curve; past the last entry, the last.
pub fn x_entry(j: u32) -> i16
    ensures { result ≡ curve_x j }
{
    entry(64, 262144, j)
}
