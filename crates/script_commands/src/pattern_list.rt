//! The pattern list that the lines of a command make.
ghost use Rattle.std.specs.Prelude.{◌≡◌, ◌∷◌, ◌++◌, IfOk, map, if◌then◌else◌};
ghost use Rattle.re_syntax.specs.Lines.{joined, newline};

use std::alloc::{AllocError, Global};

/// Adds a line, after a newline where it is not the first.
fn add_line(text: &mut Vec<u8>, first: bool, line: &[u8]) -> Result<(), AllocError>
    ensures { IfOk result
        (λ _. text.new.items ≡ text.old.items ++ (if first then line.now else newline ∷ line.now)) }
{
    if first {
        text.extend_from_slice(line)?;
        return Ok(());
    }
    text.push(b'\n')?;
    text.extend_from_slice(line)?;
    Ok(())
}

/// The lines with a newline between each two.
pub fn join_lines(alloc: Global, lines: &[Vec<u8>]) -> Result<Vec<u8>, AllocError>
    ensures { IfOk result (λ text. text.items ≡ joined (map (λ l. l.items) lines.now)) }
{
    let mut text = Vec::new(alloc);
    for (at, line) in lines.iter().enumerate() {
        add_line(&mut text, at == 0, line)?;
    }
    Ok(text)
}
