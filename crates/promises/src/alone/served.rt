//! What who runs `qcrun` relies on.
ghost use Rattle.std.specs.Io.KnownBytes.{Appends};
ghost use Rattle.std.specs.Prelude.{◌≡◌, ℕ, List, [], ◌∷◌, ◌++◌, Some, All};
ghost use Rattle.qcrun_parts.specs.declared.command.Command.{Command};
ghost use Rattle.qcrun_parts.specs.Commands.{IsLineOf};
ghost use Rattle.qcrun_parts.specs.Lines.{IsInLine};
ghost use Rattle.qcrun_parts.specs.Runs.{bad_line};

use qcrun_parts::serve;
use std::alloc::Global;
use std::io::{Read, Write};

/// A bad line behind an empty one ends it with status 2, and is told as the second.
pub fn end_at_the_second<R: Read + Drop, W: Write>(alloc: Global, reader: R, writer: &mut W) -> u8
    requires bad { (line : List ℕ) × (R.remaining reader ≡ Some (10 ∷ line))
        × All IsInLine line × (line ≡ [] → ⊥) × ((command : Command) → IsLineOf line command → ⊥) }
    ensures status { (result ≡ 1 → ⊥) → result ≡ 2 }
    ensures tells { (result ≡ 1 → ⊥) → (printed : List ℕ)
        × Appends (W.contents writer.old) (W.contents writer.new) (printed ++ bad_line 2) }
{
    serve(alloc, reader, writer, &mut Vec::new(alloc))
}
