// Prints the table of the ladder (document 02, W9): the whole part of 2^(31 + i/256) for each i below 256, a number a line.
// Each number is worked out anew from its rule, in exact arithmetic; nothing here stands on the numbers in crate `ladder`.
// Three things are proved: the numbers keep the rule that `ladder` shows of its table (roots.rt), one table alone keeps it
// (proofs/Rule), and where `write_table` answers no error, a writer that says which bytes it holds then holds the lines of that
// table more. Standard output does not say what it holds, so what it receives is no contract: the file `stdout` has what a run
// must print.
#![tactic(auto)]

mod number;
mod roots;

ghost use Rattle.std.specs.Prelude.{OnOk};
ghost use Rattle.std.specs.Io.KnownBytes.{Appends};
ghost use Rattle.ladder_table.specs.Lines.{lines, AppendsTable};

use std::io;
use std::io::Write;

// A number a line.
fn write_lines<W: Write>(to: &mut W, numbers: &[u32]) -> io::Result<()>
    ensures { OnOk result (Appends (W.contents to.old) (W.contents to.new) (lines numbers.now)) }
{
    for number in numbers {
        writeln!(to, "{number}")?;
    }
    Ok(())
}

fn write_table<W: Write>(to: &mut W) -> io::Result<()>
    ensures { OnOk result (AppendsTable (W.contents to.old) (W.contents to.new)) }
{
    write_lines(to, &roots::table())
}

fn main(rt: HostRuntime) -> io::Result<()> {
    write_table(&mut rt.stdout())
}
