ghost use Rattle.std.specs.Prelude.{◌≡◌, ◌≤◌, Some, None, length, string_bytes, IfOk, OnOk};
ghost use Rattle.std.specs.Arc.{arc_value};
ghost use Rattle.semantics.specs.Text.{version_text};
ghost use Rattle.board_core.specs.Board.{IsVersionOf};
ghost use Rattle.wave_text.specs.Answers.{edit_text, pinned_text, unpinned_text, using_text};
ghost use Rattle.script_session.specs.Held.{is_wanting};
ghost use Rattle.script_session.specs.Session.{answer_to, bound, opened, with_edit, Plays};
ghost use Rattle.deck_cards.specs.Settled.{put};

use crate::pins::Pins;
use board_core::Board;
use deck_cards::{Deck, Edit, EditRefusal, Name};
use std::alloc::{AllocError, Global};
use std::marker::Model;
use std::sync::Arc;
use version_book::Version;
use wave_script::Command;
use wave_text::{
    edit_line, events_text, pinned_line, unpinned_line, using_line, version_line, wave_text,
    work_line,
};

/// A script as it is played on a deck. A contract sees how far it has come: the deck of the beginning, the edits that were
/// accepted, and the numbers of the current version, of the last one that was reached, and of those that names are bound
/// to. All that it prints of a version is told of the deck after as many edits as the version's number says.
#[derive(Drop)]
pub struct Session {
    board: Board,
    current: Arc<Version>,
    pins: Pins,
}

impl Model for Session {
    ghost use Rattle.std.specs.Arc.{arc_value};
    ghost use Rattle.script_session.specs.Held.{session, IsSession};
    ghost use Rattle.script_session.specs.Session.{SessionValue};

    ghost Value = { SessionValue };

    ghost view = { λ s. session s.board (arc_value s.current) s.pins };

    ghost invariant = { λ s. IsSession s.board (arc_value s.current) s.pins };
}

/// Whether memory was wanting.
fn is_wanting(answer: &Result<u64, EditRefusal>) -> bool
    ensures { result ≡ is_wanting answer.now }
{
    matches!(answer, Err(EditRefusal::Memory))
}

impl Session {
    /// The session of a deck before any line is played. It runs the deck: version 0 is the current one.
    ///
    /// # Errors
    ///
    /// Where memory is wanting.
    pub fn new(alloc: Global, deck: Deck) -> Result<Session, AllocError>
        ensures { IfOk result (λ session. session ≡ opened deck) }
    {
        let board = Board::new(alloc, deck)?;
        let current = Arc::try_clone(board.shown())?;
        Ok(Session {
            board,
            current,
            pins: Pins::new(alloc),
        })
    }

    /// Plays a line of a script, and gives what it prints.
    ///
    /// # Errors
    ///
    /// Where memory is wanting.
    pub fn play(
        &mut self,
        alloc: Global,
        line: u32,
        command: &Command,
    ) -> Result<String, AllocError>
        ensures { IfOk result (λ text.
            Plays self.old line command.now (string_bytes text) self.new) }
    {
        match command {
            Command::Edit(edit) => self.edit(alloc, line, edit),
            Command::Run => self.run(alloc),
            Command::Look => self.look(alloc),
            Command::Show { node, range } => wave_text(alloc, &self.current, node, *range),
            Command::Events { range } => events_text(alloc, &self.current, *range),
            Command::Pin(name) => self.pin(alloc, name),
            Command::UsePin(name) => self.use_pin(alloc, name),
            Command::Unpin(name) => self.unpin(alloc, name),
            Command::Work => work_line(alloc, self.board.made()),
        }
    }

    /// The version that a name is bound to, or the current one where it is bound to none.
    fn bound(&self, name: &Name) -> &Arc<Version>
        ensures number { length (arc_value result.now).edits ≡ bound self.now name.now }
        ensures of { IsVersionOf self.now.base self.now.edits (arc_value result.now) }
    {
        self.pins.get(name).unwrap_or(&self.current)
    }

    /// Makes an edit.
    fn edit(&mut self, alloc: Global, line: u32, edit: &Edit) -> Result<String, AllocError>
        ensures text { IfOk result (λ text.
            string_bytes text ≡ edit_text line (answer_to self.old edit.now)) }
        ensures moved { OnOk result (self.new ≡ with_edit self.old edit.now) }
    {
        let answer = self.board.edit(alloc, edit);
        if is_wanting(&answer) {
            return Err(AllocError);
        }
        edit_line(alloc, &answer, line)
    }

    /// Settles all accepted edits; the version of all of them becomes the current one.
    fn run(&mut self, alloc: Global) -> Result<String, AllocError>
        ensures text { IfOk result (λ text.
            string_bytes text ≡ version_text (length self.old.edits)) }
        ensures moved { OnOk result (self.new ≡ record self.old {
          current = length self.old.edits;
          reached = length self.old.edits;
        }) }
    {
        self.board.settle(alloc)?;
        self.look(alloc)
    }

    /// The version that the board shows becomes the current one.
    fn look(&mut self, alloc: Global) -> Result<String, AllocError>
        ensures text { IfOk result (λ text. string_bytes text ≡ version_text self.old.reached) }
        ensures moved { OnOk result (self.new ≡ record self.old { current = self.old.reached }) }
        ensures within { OnOk result (self.old.reached ≤ length self.old.edits) }
    {
        self.current = Arc::try_clone(self.board.shown())?;
        version_line(alloc, self.current.number())
    }

    /// Binds a name to the current version.
    fn pin(&mut self, alloc: Global, name: &Name) -> Result<String, AllocError>
        ensures text { IfOk result (λ text.
            string_bytes text ≡ pinned_text name.now self.old.current) }
        ensures moved { OnOk result (self.new ≡ record self.old {
          pins = put self.old.pins (name.now, Some self.old.current);
        }) }
    {
        self.pins.bind(name, &self.current)?;
        pinned_line(alloc, name, self.current.number())
    }

    /// The version that a name is bound to becomes the current one.
    fn use_pin(&mut self, alloc: Global, name: &Name) -> Result<String, AllocError>
        ensures text { IfOk result (λ text.
            string_bytes text ≡ using_text name.now (bound self.old name.now)) }
        ensures moved { OnOk result (self.new ≡ record self.old {
          current = bound self.old name.now;
        }) }
    {
        self.current = Arc::try_clone(self.bound(name))?;
        using_line(alloc, name, self.current.number())
    }

    /// Binds a name no more.
    fn unpin(&mut self, alloc: Global, name: &Name) -> Result<String, AllocError>
        ensures text { IfOk result (λ text. string_bytes text ≡ unpinned_text name.now) }
        ensures moved { OnOk result (self.new ≡ record self.old {
          pins = put self.old.pins (name.now, None);
        }) }
    {
        self.pins.free(name)?;
        unpinned_line(alloc, name)
    }
}
