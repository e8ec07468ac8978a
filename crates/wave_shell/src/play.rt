//! A script that is played on a deck.

ghost use Rattle.std.specs.Prelude.{◌≡◌, ◌≤◌, Ok};
ghost use Rattle.script_session.specs.Session.{opened};
ghost use Rattle.wave_shell.specs.Endings.{Ends};
ghost use Rattle.wave_shell.specs.Program.{with_script};

use crate::status::Status;
use deck_cards::Deck;
use outside::{Sink, write_all};
use script_session::Session;
use std::alloc::Global;
use wave_script::Script;

/// Plays the lines of a script on a session that has played none, one after the other, and writes
/// what each prints as soon as it is made.
fn play_lines<K: Sink>(alloc: Global, mut session: Session, script: &Script, sink: &mut K) -> Status
    requires { session ≡ opened session.base }
    ensures ends { Ends (Ok (with_script session.base script.now)) result
        (K.written sink.old) (K.written sink.new) (K.faults sink.old) (K.faults sink.new) }
    ensures later { K.faults sink.old ≤ K.faults sink.new }
{
    for place in 0..script.len() {
        let (line, command) = script.get(place);
        let Ok(text) = session.play(alloc, line, command) else {
            return Status::Memory;
        };
        let Ok(()) = write_all(sink, text.as_bytes()) else {
            return Status::Write;
        };
    }
    Status::Ok
}

/// Plays a script on a deck, and writes what its lines print.
pub fn play_script<K: Sink>(alloc: Global, deck: Deck, script: &Script, sink: &mut K) -> Status
    ensures ends { Ends (Ok (with_script deck script.now)) result
        (K.written sink.old) (K.written sink.new) (K.faults sink.old) (K.faults sink.new) }
    ensures later { K.faults sink.old ≤ K.faults sink.new }
{
    match Session::new(alloc, deck) {
        Ok(session) => play_lines(alloc, session, script, sink),
        Err(_) => Status::Memory,
    }
}
