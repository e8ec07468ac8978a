ghost use Rattle.std.specs.Prelude.{◌≡◌, ◌≤◌, ◌⊎◌, ℕ, List, [], None, Err, Ok, map, string_bytes, Contains, IfSome, MatchResult};
ghost use Rattle.std.specs.Io.KnownBytes.{Appends};
ghost use Rattle.outside.specs.Causes.{Rose};
ghost use Rattle.outside.specs.Content.{SameBytes};
ghost use Rattle.wave_shell.specs.Endings.{Answers, Ends, IsSilent, Tells};
ghost use Rattle.wave_shell.specs.Program.{judged, IsFault, MayFailToRead, NameRose, Says, SaysFront};
ghost use Rattle.wave_shell.specs.Words.{deck_name, files, script_name};
ghost use Rattle.wave_shell.specs.declared.status.Status.TheVariants.{Memory as OutOfMemory};

use crate::job::{Job, judge};
use crate::play::play_script;
use crate::refusal::{Refusal, Stop};
use crate::run::run_text;
use crate::status::Status;
use crate::text::deck_line;
use outside::{Shelf, Sink, write_all};
use std::alloc::{AllocError, Global};
use wave_text::script_line;

const WORDS: &[u8] = b"words do not fit the command\n";

const DECK_TOO_LONG: &[u8] = b"deck 0 too long\n";

const SCRIPT_TOO_LONG: &[u8] = b"script 0 too long\n";

/// Writes a text, and answers the status with which it goes.
fn say<K: Sink>(sink: &mut K, status: Status, text: &[u8]) -> Status
    ensures tells { Tells status text.now result
        (K.written sink.old) (K.written sink.new) (K.faults sink.old) (K.faults sink.new) }
    ensures later { K.faults sink.old ≤ K.faults sink.new }
{
    match write_all(sink, text) {
        Ok(()) => status,
        Err(_) => Status::Write,
    }
}

/// The same of a text for which memory may be wanting.
fn say_made<K: Sink>(sink: &mut K, status: Status, made: Result<String, AllocError>) -> Status
    ensures tells { MatchResult made
        (λ text. Tells status (string_bytes text) result
        (K.written sink.old) (K.written sink.new) (K.faults sink.old) (K.faults sink.new))
        (λ _. IsSilent OutOfMemory result (K.written sink.old) (K.written sink.new)) }
    ensures later { K.faults sink.old ≤ K.faults sink.new }
{
    match made {
        Ok(text) => say(sink, status, text.as_bytes()),
        Err(_) => Status::Memory,
    }
}

/// Tells a refusal.
fn refuse<K: Sink>(alloc: Global, refusal: &Refusal, sink: &mut K) -> Status
    ensures ends { Ends (Err refusal.now) result
        (K.written sink.old) (K.written sink.new) (K.faults sink.old) (K.faults sink.new) }
    ensures later { K.faults sink.old ≤ K.faults sink.new }
{
    match refusal {
        Refusal::Words => say(sink, Status::Words, WORDS),
        Refusal::DeckTooLong => say(sink, Status::Deck, DECK_TOO_LONG),
        Refusal::Deck(refusal) => say_made(sink, Status::Deck, deck_line(alloc, refusal)),
        Refusal::ScriptTooLong => say(sink, Status::Script, SCRIPT_TOO_LONG),
        Refusal::Script(refusal) => say_made(sink, Status::Script, script_line(alloc, refusal)),
    }
}

/// Does a job: writes the waves of its deck, or what its script prints.
fn work<K: Sink>(alloc: Global, job: Job, sink: &mut K) -> Status
    ensures ends { Ends (Ok job) result
        (K.written sink.old) (K.written sink.new) (K.faults sink.old) (K.faults sink.new) }
    ensures later { K.faults sink.old ≤ K.faults sink.new }
{
    let Job { deck, script } = job;
    match script {
        None => say_made(sink, Status::Ok, run_text(alloc, &deck)),
        Some(script) => play_script(alloc, deck, &script, sink),
    }
}

/// Does the job that the words gave, or tells why they gave none.
fn answer<K: Sink>(alloc: Global, given: Result<Job, Stop>, sink: &mut K) -> Status
    ensures answers { Answers given result
        (K.written sink.old) (K.written sink.new) (K.faults sink.old) (K.faults sink.new) }
    ensures later { K.faults sink.old ≤ K.faults sink.new }
{
    match given {
        Ok(job) => work(alloc, job, sink),
        Err(Stop::Refused(refusal)) => refuse(alloc, &refusal, sink),
        Err(Stop::Read) => Status::Read,
        Err(Stop::Memory) => Status::Memory,
    }
}

/// Reads the deck that the words name, and the script where they name one. Without a script it runs
/// the deck and writes version 0 and the wave of each node; with one it plays its lines, one after
/// the other, and writes what each prints as it is done.
///
/// The words are those after the program's name. They fit where there are one or two names among
/// them, the deck's and then the script's. A word that begins with `-` is a name where it is `-`
/// alone, or where a word `--` stands before it, which is then no name itself. Else the answer is
/// `Words`. It is `Deck` where the deck has more than 16,777,216 bytes or a fault, of which the
/// first is told, and `Script` where the deck has none and the script is so. The deck is read to
/// its end and judged before the script is read, and both before the first byte is written. With
/// `Ok`, `Words`, `Deck` and `Script` the whole text is written, and with `Read` nothing.
pub fn run_alone<S: Shelf, K: Sink>(
    alloc: Global,
    words: &[String],
    shelf: &mut S,
    sink: &mut K,
) -> Status
    // The files that the words name are the shelf's.
    requires deck { IfSome (deck_name (map string_bytes words.now)) (λ name.
        Contains (S.names shelf.old) name) }
    requires script { IfSome (script_name (map string_bytes words.now)) (λ name.
        Contains (S.names shelf.old) name) }

    // Each answer but a fault is one of these words and bytes, and its text is written whole.
    ensures answered { IsFault result
        ⊎ IfSome (judged (S.bytes shelf.old) (map string_bytes words.now)) (λ j.
        Says j result (K.written sink.old) (K.written sink.new)) }
    // Words comes only where the words do not fit, and Script only where they name a script, also
    // for bytes that are not told.
    ensures words { result ≡ Status.Words → files (map string_bytes words.now) ≡ None }
    ensures script { result ≡ Status.Script → script_name (map string_bytes words.now) ≡ None → ⊥ }
    // A fault of reading comes only where the count of the deck's name rose, or that of the script's
    // did and the deck is valid, and nothing is written.
    ensures read { result ≡ Status.Read
        → MayFailToRead (S.bytes shelf.old) (S.faults shelf.old) (S.faults shelf.new)
        (map string_bytes words.now)
        × Appends (K.written sink.old) (K.written sink.new) [] }
    // A fault of writing comes only where the sink's count rose.
    ensures write { result ≡ Status.Write → Rose (K.faults sink.old) (K.faults sink.new) }
    // After it, and after want of memory, a front of a text that may be said is written.
    ensures front { (result ≡ Status.Write) ⊎ (result ≡ Status.Memory)
        → IfSome (judged (S.bytes shelf.old) (map string_bytes words.now)) (λ j.
        SaysFront j (K.written sink.old) (K.written sink.new)) }
    // Where none of the counts rose, it is such an answer, or memory is wanting.
    ensures complete { (NameRose (S.faults shelf.old) (S.faults shelf.new)
        (deck_name (map string_bytes words.now)) → ⊥)
        → (NameRose (S.faults shelf.old) (S.faults shelf.new)
        (script_name (map string_bytes words.now)) → ⊥)
        → (Rose (K.faults sink.old) (K.faults sink.new) → ⊥)
        → (result ≡ Status.Memory)
        ⊎ IfSome (judged (S.bytes shelf.old) (map string_bytes words.now)) (λ j.
        Says j result (K.written sink.old) (K.written sink.new)) }

    // What the call leaves: the shelf's names and bytes stay, and no count falls.
    ensures names { S.names shelf.new ≡ S.names shelf.old }
    ensures bytes { SameBytes (S.bytes shelf.old) (S.bytes shelf.new) }
    ensures shelf_later { (name : List ℕ) → S.faults shelf.old name ≤ S.faults shelf.new name }
    ensures sink_later { K.faults sink.old ≤ K.faults sink.new }
{
    let given = judge(alloc, words, shelf);
    answer(alloc, given, sink)
}
