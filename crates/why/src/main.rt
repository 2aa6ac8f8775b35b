// Lists why each stretch of the plan of the feed sheet on standard input ends where it does; of a sheet that is held or
// refused, writes what the planner writes. Where the listing was cut, a line on standard error says so.
#![tactic(auto)]

fn main() {
    // longer than any sheet, so that a longer input is refused by its length
    let mut input = io::large_buffer();
    let count = io::read_full(0, &mut input);
    let output = program::explain(&input[0..count]);
    let bytes = output.bytes;
    let length = output.length;
    io::write_all(1, &bytes[0..length]);
    if output.cut {
        io::write_all(
            2,
            b"why: the listing was cut, later stretches are left out\n",
        );
    }
}
