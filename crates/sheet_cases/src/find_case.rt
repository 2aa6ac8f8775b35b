// A tank looked up: `F length`, and the bytes of its lines. The list holds the tank.
use std::io;
use std::io::Write;

pub fn answer(rt: &HostRuntime, list: &[u8], sheet: &[u8]) -> io::Result<()> {
    let mut numbers = [0u32; 1];
    cases::numbers(list, &mut numbers);
    let part = lookup::find(sheet, numbers[0]);
    println!(rt; "F {}", part.len())?;
    rt.stdout().write_all(part)
}
