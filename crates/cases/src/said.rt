// What is told, whatever the cases mean. A write that fails is answered, when some of the text may have been written.
ghost use Rattle.std.specs.Prelude.{◌++◌, ◌∷◌, [], OnOk, IfSome};
ghost use Rattle.std.specs.Io.KnownBytes.{Appends};
ghost use lib.Chars.{codes};

use std::fmt::Display;
use std::io::{Result, Write};

pub fn say<W: Write>(out: &mut W, text: &[u8]) -> Result<()>
    ensures { OnOk result (Appends (W.contents out.old) (W.contents out.new) text.now) }
{
    out.write_all(text)
}

// A name and a value as it prints: of a number its decimal digits.
pub fn say_number<W: Write, N: Display + Copy>(out: &mut W, name: &[u8], value: N) -> Result<()>
    ensures { OnOk result (IfSome (N.output value) (λ digits. Appends (W.contents out.old) (W.contents out.new) (name.now ++ digits))) }
{
    say(out, name)?;
    write!(out, "{value}")
}

// A comment, as it stands.
pub fn copy<W: Write>(out: &mut W, line: &[u8]) -> Result<()>
    ensures { OnOk result (Appends (W.contents out.old) (W.contents out.new) (line.now ++ 10 ∷ [])) }
{
    say(out, line)?;
    say(out, b"\n")
}

// The answer to a line of no form that the program knows.
pub fn unreadable<W: Write>(out: &mut W) -> Result<()>
    ensures { OnOk result (Appends (W.contents out.old) (W.contents out.new) (codes "unreadable\n")) }
{
    say(out, b"unreadable\n")
}

pub fn too_long<W: Write>(out: &mut W) -> Result<()>
    ensures { OnOk result (Appends (W.contents out.old) (W.contents out.new) (codes "too long\n")) }
{
    say(out, b"too long\n")
}
