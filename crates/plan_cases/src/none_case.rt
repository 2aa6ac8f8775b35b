// A sheet planned with no buffer: `N number line length`.
use std::io;

pub fn answer(rt: &HostRuntime, sheet: &[u8]) -> io::Result<()> {
    let r = planning::plan_number(sheet);
    println!(rt; "N {} {} {}", r.number, r.line, r.length)
}
