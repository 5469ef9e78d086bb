// What a figure prints.
use std::io;

// A figure: its name, and whether it came out.
pub fn figure(rt: &impl Print, name: &str, right: bool) -> io::Result<()> {
    if right {
        println!(rt; "{name}: as expected")
    } else {
        println!(rt; "{name}: NOT as expected")
    }
}
