// Two sheets compared: `C number line order`.
use std::io;

pub fn answer(rt: &HostRuntime, first: &[u8], second: &[u8]) -> io::Result<()> {
    let r = comparison::compare(first, second);
    println!(rt; "C {} {} {}", r.number, r.line, r.order)
}
