// The lines that are printed. A value is in hundredths.
use std::io;

fn hundredths(rt: &impl Print, v: u64) -> io::Result<()> {
    println!(rt; "{}.{:02}", v / 100, v % 100)
}

pub fn time(rt: &impl Print, name: &str, size: &str, v: u64) -> io::Result<()> {
    print!(rt; "time {name}{size} ")?;
    hundredths(rt, v)
}

// v to w.
pub fn ratio(rt: &impl Print, name: &str, size: &str, v: u64, w: u64) -> io::Result<()> {
    print!(rt; "ratio {name}{size} ")?;
    hundredths(rt, hundredfold(v, w))
}

// A hundred times v / w; 0 where w is 0, or where a hundred times v passes 64 bits, which no time that was measured does.
pub fn hundredfold(v: u64, w: u64) -> u64 {
    v.checked_mul(100)
        .and_then(|v| v.checked_div(w))
        .unwrap_or(0)
}

// Says so where work did not leave what it should. What is asked after, the compiler cannot leave out.
pub fn expect(rt: &impl Print, right: bool) -> io::Result<()> {
    if !right {
        println!(rt; "NOT as expected")?;
    }
    Ok(())
}
