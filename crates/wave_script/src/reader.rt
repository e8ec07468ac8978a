//! The reader of a whole script.

ghost use Rattle.std.specs.Prelude.{◌<◌, ◌^◌, length};
ghost use Rattle.wave_script.specs.Answers.{Reads};
ghost use Rattle.wave_script.specs.Lines.{script_in};

use crate::said::Said;
use crate::script::Script;
use crate::why::ScriptRefusal;
use deck_lexer::Lines;
use std::alloc::Global;

/// Reads the text of a script.
///
/// It asks that the text has fewer than 2^32 bytes.
///
/// # Errors
///
/// The fault of the first line that has one, with the number of the line: the first that holds of
/// `NotAscii`, `UnknownCommand`, `WrongWords`, `BadCard`, `BadNumber` and `NoSuchPin`. A value outside
/// its limit and an edit that no deck takes are no faults of a script. `Memory` has line 0.
#[tactic(auto, unfolding(crate::specs::Lines::script_in, crate::specs::Lines::said_after))]
pub fn read_script(alloc: Global, text: &[u8]) -> Result<Script, ScriptRefusal>
    requires { length text.now < 2 ^ 32 }
    ensures { Reads result (script_in text.now) }
{
    let mut lines = Lines::of(text);
    let mut said = Said::new(alloc);
    while let Some((number, line)) = lines.next() {
        said = said.with_line(alloc, number, line)?;
    }
    Ok(said.commands)
}
