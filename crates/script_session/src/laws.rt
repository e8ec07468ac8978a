//! The laws of what a script prints. Each function is a statement: its body does nothing, and its
//! contract is the law.

ghost use Rattle.std.specs.Prelude.{◌≡◌, ◌≤◌, ℕ, List, true, length};
ghost use Rattle.semantics.specs.Deck.{DeckValue};
ghost use Rattle.semantics.specs.Text.{default_output};
ghost use Rattle.script_session.specs.Session.{SessionValue, IsOutput, Plays};
ghost use Rattle.script_session.specs.Session.{default_script, may_show};
ghost use Rattle.wave_script.specs.declared.command.Command.{Command};
ghost use Rattle.wave_script.specs.declared.command.Command.TheVariants as command;

/// Version 0 and the wave of each node is what the script prints that stands for no script.
pub fn law_default()
    ensures { (d : DeckValue) → IsOutput d (default_script d) (default_output d) }
{}

/// Where the last number that `run` or `look` showed is that of all accepted edits, `look` shows it
/// again; and what was reached never falls.
pub fn law_look()
    ensures all { (s : SessionValue) (k : ℕ) → s.reached ≡ length s.edits
        → may_show s k command.Look ≡ true → k ≡ length s.edits }
    ensures rises { (s : SessionValue) (line : ℕ) (c : Command) (text : List ℕ)
        (next : SessionValue) → s.reached ≤ length s.edits → Plays s line c text next
        → (s.reached ≤ next.reached) × (next.reached ≤ length next.edits) }
{}
