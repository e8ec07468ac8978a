//! The lines that stand alone.

ghost use Rattle.std.specs.Prelude.{◌≡◌, string_bytes, IfOk};
ghost use Rattle.semantics.specs.Text.{version_text};
ghost use Rattle.wave_text.specs.Answers.{edit_text, work_text, pinned_text, using_text, unpinned_text, no_node_text, script_text};

use deck_cards::{EditRefusal, Name};
use std::alloc::{AllocError, Global};
use wave_script::ScriptRefusal;

/// `version K`.
#[tactic(auto, unfolding(semantics::specs::Text::version_text))]
pub fn version_line(alloc: Global, number: u64) -> Result<String, AllocError>
    ensures { IfOk result (λ text. string_bytes text ≡ version_text number) }
{
    format!(in alloc; "version {number}\n")
}

/// `edit K` for an accepted edit, where K is the number of accepted edits so far; `refused LINE TEXT` for a refused one, where
/// LINE is the line of the script that asked for it.
#[tactic(auto, unfolding(crate::specs::Answers::edit_text))]
pub fn edit_line(
    alloc: Global,
    answer: &Result<u64, EditRefusal>,
    line: u32,
) -> Result<String, AllocError>
    ensures { IfOk result (λ text. string_bytes text ≡ edit_text line answer.now) }
{
    match answer {
        Ok(count) => format!(in alloc; "edit {count}\n"),
        Err(refusal) => format!(in alloc; "refused {line} {refusal}\n"),
    }
}

/// `work N`, where N counts ramps.
#[tactic(auto, unfolding(crate::specs::Answers::work_text))]
pub fn work_line(alloc: Global, count: u64) -> Result<String, AllocError>
    ensures { IfOk result (λ text. string_bytes text ≡ work_text count) }
{
    format!(in alloc; "work {count}\n")
}

/// `pinned W version K`.
#[tactic(auto, unfolding(crate::specs::Answers::pinned_text))]
pub fn pinned_line(alloc: Global, name: &Name, number: u64) -> Result<String, AllocError>
    ensures { IfOk result (λ text. string_bytes text ≡ pinned_text name.now number) }
{
    format!(in alloc; "pinned {name} version {number}\n")
}

/// `using W version K`.
#[tactic(auto, unfolding(crate::specs::Answers::using_text))]
pub fn using_line(alloc: Global, name: &Name, number: u64) -> Result<String, AllocError>
    ensures { IfOk result (λ text. string_bytes text ≡ using_text name.now number) }
{
    format!(in alloc; "using {name} version {number}\n")
}

/// `unpinned W`.
#[tactic(auto, unfolding(crate::specs::Answers::unpinned_text))]
pub fn unpinned_line(alloc: Global, name: &Name) -> Result<String, AllocError>
    ensures { IfOk result (λ text. string_bytes text ≡ unpinned_text name.now) }
{
    format!(in alloc; "unpinned {name}\n")
}

/// `no node NODE`, where NODE is 0 for ground.
#[tactic(auto, unfolding(crate::specs::Answers::no_node_text))]
pub fn no_node_line(alloc: Global, node: &Name) -> Result<String, AllocError>
    ensures { IfOk result (λ text. string_bytes text ≡ no_node_text node.now) }
{
    if node.is_ground() {
        format!(in alloc; "no node 0\n")
    } else {
        format!(in alloc; "no node {node}\n")
    }
}

/// `script LINE CAUSE`.
#[tactic(auto, unfolding(crate::specs::Answers::script_text))]
pub fn script_line(alloc: Global, refusal: &ScriptRefusal) -> Result<String, AllocError>
    ensures { IfOk result (λ text. string_bytes text ≡ script_text refusal.now) }
{
    format!(in alloc; "script {} {}\n", refusal.line, refusal.why)
}
