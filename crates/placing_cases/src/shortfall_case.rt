// The shortfall of marked slots, a byte for each mark: `S number line shortfall`.
use std::io;

pub fn answer(rt: &HostRuntime, marks: &[u8], sheet: &[u8]) -> io::Result<()> {
    let r = questions::shortfall(sheet, marks);
    println!(rt; "S {} {} {}", r.number, r.line, r.shortfall)
}
