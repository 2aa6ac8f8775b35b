// Writes the practice sheet of the seed on standard input to standard output: one field of six columns, closed by byte
// 10. Any other input is refused as the planner refuses a sheet.
#![tactic(auto)]

fn main() {
    // longer than the field, so that a longer input is refused by its length
    let mut input = io::large_buffer();
    let count = io::read_full(0, &mut input);
    let output = program::make_sheet(&input[0..count]);
    let bytes = output.bytes;
    let length = output.length;
    io::write_all(1, &bytes[0..length]);
}
