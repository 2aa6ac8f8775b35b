// Plans the feed sheet on standard input and writes its listing to standard output, that of a held sheet or of another
// refusal too.
#![tactic(auto)]

fn main() {
    // longer than any sheet, so that a longer input is refused by its length
    let mut input = io::large_buffer();
    let count = io::read_full(0, &mut input);
    let output = program::answer(&input[0..count]);
    let bytes = output.bytes;
    let length = output.length;
    io::write_all(1, &bytes[0..length]);
}
