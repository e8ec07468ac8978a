//! The laws of records. They stand over the definitions alone, for records of any contents, so a proof may cite them
//! of whatever the code has kept. Each function is a statement: its body does nothing, and its contract is the law.

ghost use Rattle.std.specs.Prelude.{◌≡◌, ◌≢◌, ◌⊎◌, ℕ, suc, ◌+◌, ◌^◌, ◌<◌, ◌≤◌};
ghost use Rattle.std.specs.Prelude.{Bool, true, false, if◌then◌else◌, unsigned_abs};
ghost use Rattle.std.specs.Prelude.{ℤ, pos, ◌+ℤ◌, ◌-ℤ◌, List, [], ◌∷◌, ◌++◌, length, filter, fold};
ghost use Rattle.std.specs.Prelude.{Contains, sum_by, get_or};
ghost use Rattle.std.specs.List.{list_any};
ghost use Rattle.std.specs.Str.{bytes_eq};
ghost use Rattle.semantics.specs.declared.element.Element.{Element};
ghost use Rattle.semantics.specs.declared.fraction.Fraction.{Fraction};
ghost use Rattle.semantics.specs.Deck.{Name, DeckValue, capacity, free_nodes, name_of, nodes};
ghost use Rattle.semantics.specs.Device.{Voltages, cells};
ghost use Rattle.semantics.specs.Edit.{IsEdit, KeepsFree, SameFrame, kept_after, restarted};
ghost use Rattle.semantics.specs.Event.{events};
ghost use Rattle.semantics.specs.Neighbours.{is_free, is_near, share};
ghost use Rattle.semantics.specs.Pending.{Covers, IsBounded, IsSound, NothingPending, Pending};
ghost use Rattle.semantics.specs.Pending.{Sweeps, after_commit, after_edit, spliced};
ghost use Rattle.semantics.specs.Record.{HasRun, IsRunTo, NoFaultBelow, Record, Starts, is_fault};
ghost use Rattle.semantics.specs.Record.{named, record_current, record_voltages, run_record};
ghost use Rattle.semantics.specs.RecordWave.{record_events, record_wave};
ghost use Rattle.semantics.specs.Run.{flow, node_current, run};
ghost use Rattle.semantics.specs.Stale.{fresh, stale};
ghost use Rattle.semantics.specs.Valid.{is_valid};
ghost use Rattle.semantics.specs.Wave.{wave};
ghost use Rattle.record_laws.specs.Laws.{AreSwept, Closes, Family, HasNeighbours, HasRunBeside, IsAlone};
ghost use Rattle.record_laws.specs.Laws.{IsApart, IsBoundedWithin, IsClean, IsDistance, IsFar};
ghost use Rattle.record_laws.specs.Laws.{IsFaultless, IsStraight, IsValidEdit, SameBeside, SameBy};
ghost use Rattle.record_laws.specs.Laws.{SameEnds, SameFault, and_then, beyond, is_wrong_line};
ghost use Rattle.record_laws.specs.Laws.{pending_at};
ghost use Rattle.record_laws.specs.Touched.{IsEdited, IsTouched};

/// A record that begins right and has no fault below a tick is the run up to that tick. The same holds of the nodes of
/// a family that closes, whatever the other nodes have.
pub fn law_unique()
    ensures all { (d : DeckValue) (w : Record) (t : ℕ)
        → t ≤ d.stop → Starts d w → NoFaultBelow d w t → IsRunTo d w t }
    ensures on { (d : DeckValue) (w : Record) (among : Family) (t : ℕ)
        → t ≤ d.stop → Closes d among → IsFaultless d w among t
        → (n : Name) → is_free d n ≡ true → among t n ≡ true → HasRun d w n t }
{}

/// The run is a record: the voltages of each of its ticks are those of that record, which begins right and has no
/// fault, and its waves and events are those of that record.
pub fn law_run()
    ensures voltages { (d : DeckValue) (t : ℕ) → record_voltages d (run_record d) t ≡ run d t }
    ensures is_run { (d : DeckValue) (t : ℕ) → IsRunTo d (run_record d) t }
    ensures starts { (d : DeckValue) → Starts d (run_record d) }
    ensures faults { (d : DeckValue) (n : Name) (t : ℕ) → is_fault d (run_record d) n t ≡ false }
    ensures wave { (d : DeckValue) (n : Name) → record_wave d (run_record d) n ≡ wave d n }
    ensures events { (d : DeckValue) → record_events d (run_record d) ≡ events d }
{}

/// A change at some nodes and ticks changes no fault before those ticks, after them, or of a node that is none of those
/// nodes and shares no device with one.
pub fn law_change()
    ensures { (d : DeckValue) (among : Name → Bool) (from until : ℕ) (v w : Record)
        → SameBeside d among from until v w → (n : Name) (t : ℕ)
        → (t < from) ⊎ ((until < t) ⊎ IsApart d among n) → SameFault d v w n t }
{}

/// A change that is over at its last tick changes no fault at that tick.
pub fn law_reconverge()
    ensures { (d : DeckValue) (among : Name → Bool) (from until : ℕ) (v w : Record)
        → SameBeside d among from until v w
        → ((n : Name) → is_free d n ≡ true → v n until ≡ w n until)
        → (n : Name) → SameFault d v w n until }
{}

/// An edit makes and mends no fault of a node that is not near it.
pub fn law_damage()
    ensures { (old new : DeckValue) (keeps : Name → Bool) (w : Record)
        → IsValidEdit old new → Starts old w → KeepsFree old keeps
        → (n : Name) (t : ℕ) → IsFar old new n
        → is_fault new (restarted new keeps w) n t ≡ is_fault old w n t }
{}

/// The current into a node depends on the voltages at the ends of its own devices alone, so at a tick of a record on
/// those of its free neighbours.
pub fn law_near()
    ensures voltages { (d : DeckValue) (v w : Voltages) (n : Name)
        → ((m : Name) → share d m n ≡ true → v m ≡ w m) → node_current d v n ≡ node_current d w n }
    ensures records { (d : DeckValue) (v w : Record) (t : ℕ) (n : Name)
        → SameBy d v w t n → record_current d v t n ≡ record_current d w t n }
{}

/// After an edit every fault is pending, whatever the record is made to be, and of a node that is not near the edit
/// exactly what was pending.
pub fn law_edit()
    ensures covers { (old new : DeckValue) (v w : Record) (p : Pending)
        → new.stop ≡ old.stop → Covers old v p → Covers new w (after_edit new w p) }
    ensures keeps { (old new : DeckValue) (keeps : Name → Bool) (w : Record) (p : Pending)
        → IsValidEdit old new → Starts old w → KeepsFree old keeps → Covers old w p
        → (n : Name) (t : ℕ) → IsFar old new n
        → after_edit new (restarted new keeps w) p n t ≡ p n t }
{}

/// After a commit of any voltages every fault is pending, where the nodes that were written are swept, and their
/// neighbours.
pub fn law_commit()
    ensures { (d : DeckValue) (w x : Record) (among swept : Name → Bool) (from until : ℕ) (p : Pending)
        → let now : Record = spliced w x among from until in
        Sweeps d among swept → Covers d w p → Covers d now (after_commit d now swept from until p) }
{}

/// A commit changes nothing of what is pending before its window, and where the window is clean it leaves fewer pending
/// nodes at the window's first tick, if a node of the task was pending there. So what is pending falls, in the order of
/// ticks, with each window that begins at the least pending one.
pub fn law_progress()
    ensures before { (d : DeckValue) (w : Record) (swept : Name → Bool) (from until : ℕ) (p : Pending)
        → (n : Name) (t : ℕ) → t < from → after_commit d w swept from until p n t ≡ p n t }
    ensures fewer { (d : DeckValue) (w x : Record) (task among swept : Name → Bool) (from until : ℕ)
        (p : Pending) → from < until → IsClean d w x task among from until → AreSwept d task swept
        → Covers d w p → (n : Name) → is_free d n ≡ true → task n ≡ true → p n from ≡ true
        → pending_at d (after_commit d x swept from until p) from < pending_at d p from }
{}

/// An edit and a commit of any bounded voltages keep a record and what is pending sound; and a sound record with nothing
/// pending is the run.
pub fn law_sound()
    ensures edit { (old new : DeckValue) (keeps : Name → Bool) (w : Record) (p : Pending)
        → let now : Record = restarted new keeps w in
        is_valid new ≡ true → new.stop ≡ old.stop → IsSound old keeps w p
        → IsSound new (kept_after new keeps) now (after_edit new now p) }
    ensures commit { (d : DeckValue) (keeps : Name → Bool) (w x : Record)
        (among swept : Name → Bool) (from until : ℕ) (p : Pending)
        → let now : Record = spliced w x among from until in
        Sweeps d among swept → IsBoundedWithin among from until x → IsSound d keeps w p
        → IsSound d keeps now (after_commit d now swept from until p) }
    ensures settled { (d : DeckValue) (keeps : Name → Bool) (w : Record) (p : Pending)
        → IsSound d keeps w p → NothingPending p → IsRunTo d w d.stop }
{}

/// A bounded record takes no step of a charge that is larger than 10^26, at stops of at most 10 ms.
pub fn law_steps()
    ensures { (d : DeckValue) (keeps : Name → Bool) (w : Record) (n : Name) (t : ℕ)
        → d.stop ≤ 10 ^ 10 → IsBounded d keeps w → keeps n ≡ true → t < d.stop
        → unsigned_abs ((w n (suc t)).num -ℤ (w n t).num) ≤ 10 ^ 26 }
{}

/// A record that is the run up to the stop has the waves of its nodes and its events.
pub fn law_version()
    ensures wave { (d : DeckValue) (w : Record)
        → IsRunTo d w d.stop → (n : Name) → Contains (nodes d) n → record_wave d w n ≡ wave d n }
    ensures events { (d : DeckValue) (w : Record) → IsRunTo d w d.stop → record_events d w ≡ events d }
{}

/// What a window makes anew was stale and is stale no more: where its record has no fault on a family that closes and
/// has the written nodes at its end (`on`); where no node beside its task was at fault in it (`whole`); and where it is
/// one tick long and took no node in (`step`). A record has no more stale lines than the run has lines at those nodes
/// where the two differ (`touched`).
pub fn law_work()
    ensures on { (d : DeckValue) (w x : Record) (among : Name → Bool) (from until : ℕ) (k : Family)
        → SameBeside d among from until w x → until ≤ d.stop → Closes d k → IsFaultless d x k until
        → ((n : Name) → among n ≡ true → k until n ≡ true)
        → fresh d w x among from until + stale d x ≤ stale d w }
    ensures whole { (d : DeckValue) (w x : Record) (task among : Name → Bool) (from until : ℕ)
        → IsClean d w x task among from until → IsAlone d w task from until
        → fresh d w x among from until + stale d x ≤ stale d w }
    ensures step { (d : DeckValue) (w x : Record) (task : Name → Bool) (from : ℕ)
        → IsClean d w x task task from (suc from)
        → fresh d w x task from (suc from) + stale d x ≤ stale d w }
    ensures touched { (d : DeckValue) (w : Record) (touched : Name → Bool)
        → HasRunBeside d w touched
        → stale d w ≤ sum_by (λ n. if touched n then length (wave d n) else 0) (free_nodes d) }
{}

/// What edits leave of a record that was the run (`edited`): one edit leaves what several may, and one after another
/// too. Then the record is the run of the new deck at each node that the edits did not touch, so it has no more stale
/// lines there than the touched nodes have lines.
pub fn law_touched()
    ensures one { (old new : DeckValue) (keeps : Name → Bool) (w : Record)
        → new.stop ≡ old.stop → KeepsFree old keeps → IsEdited old new w (restarted new keeps w) }
    ensures more { (old mid new : DeckValue) (keeps : Name → Bool) (w x : Record)
        → new.stop ≡ mid.stop → IsEdited old mid w x → KeepsFree old keeps
        → IsEdited old new w (restarted new keeps x) }
    ensures untouched { (old new : DeckValue) (w x : Record)
        → IsEdited old new w x → IsRunTo old w old.stop → (n : Name) (t : ℕ)
        → is_free new n ≡ true → (IsTouched old new n → ⊥) → t ≤ new.stop → HasRun new x n t }
    ensures stale { (old new : DeckValue) (w x : Record) (touched : Name → Bool)
        → IsEdited old new w x → IsRunTo old w old.stop
        → ((n : Name) → IsTouched old new n → touched n ≡ true)
        → stale new x ≤ sum_by (λ n. if touched n then length (wave new n) else 0) (free_nodes new) }
{}

/// What closes: a set that has its free neighbours; all nodes up to a tick and any at the next; and what lies farther
/// than a change can have come by one device a tick.
pub fn law_closes()
    ensures set { (d : DeckValue) (among : Name → Bool)
        → HasNeighbours d among → Closes d (λ t n. among n) }
    ensures step { (d : DeckValue) (from : ℕ) (among : Name → Bool) → Closes d (and_then from among) }
    ensures far { (d : DeckValue) (p : ℕ) (distance : Name → ℕ)
        → IsDistance d distance → Closes d (beyond p distance) }
{}

/// Where a free node's voltages go along a straight line, a fault is a wrong denominator or another current than the
/// line's rate: from one tick to the next (`step`), and at each tick of a stretch.
pub fn law_line()
    ensures step { (d : DeckValue) (w : Record) (n : Name) (t : ℕ) (num rate : ℤ) (den : ℕ)
        → w n t ≡ record { num = num; den = den }
        → w n (suc t) ≡ record { num = num +ℤ rate; den = den }
        → is_fault d w n t ≡ is_wrong_line d w n t rate den }
    ensures stretch { (d : DeckValue) (w : Record) (n : Name) (from until : ℕ) (num rate : ℤ) (den : ℕ)
        → IsStraight w n from until num rate den → (t : ℕ) → from ≤ t → t < until
        → is_fault d w n t ≡ is_wrong_line d w n t rate den }
{}

/// A node that was not written at a tick nor at the next, and whose current changed only where its denominator was
/// wrong, has no new fault.
pub fn law_growth()
    ensures { (d : DeckValue) (w x : Record) (m : Name) (t : ℕ)
        → x m t ≡ w m t → x m (suc t) ≡ w m (suc t)
        → ((w m t).den ≡ capacity d m → record_current d x t m ≡ record_current d w t m)
        → is_fault d x m t ≡ true → is_fault d w m t ≡ true }
{}

/// The cells of an element depend on the voltages of its free ends, and the current into a node is the sum over its own
/// devices.
pub fn law_devices()
    ensures cells { (d : DeckValue) (v w : Record) (t : ℕ) (e : Element)
        → SameEnds d v w t e → cells d (record_voltages d v t) e ≡ cells d (record_voltages d w t) e }
    ensures sum { (d : DeckValue) (v : Voltages) (n : Name)
        → node_current d v n
        ≡ fold (λ sum e. sum +ℤ flow d v n e) (pos 0) (filter (is_near n) d.elements) }
{}

/// Each kind of edit is one stretch of elements that gives way to another: an element is set to another one of its name,
/// taken out or put in, or an initial voltage is given.
pub fn law_kinds()
    ensures set { (old new : DeckValue) (before after : List Element) (x y : Element)
        → SameFrame old new → is_valid old ≡ true → is_valid new ≡ true
        → old.elements ≡ before ++ (x ∷ after) → new.elements ≡ before ++ (y ∷ after)
        → name_of x ≡ name_of y → x ≢ y → IsEdit old new }
    ensures remove { (old new : DeckValue) (before after : List Element) (x : Element)
        → SameFrame old new → is_valid old ≡ true
        → old.elements ≡ before ++ (x ∷ after) → new.elements ≡ before ++ after → IsEdit old new }
    ensures add { (old new : DeckValue) (before after : List Element) (y : Element)
        → SameFrame old new → is_valid new ≡ true
        → old.elements ≡ before ++ after → new.elements ≡ before ++ (y ∷ after) → IsEdit old new }
    ensures initial { (old new : DeckValue)
        → SameFrame old new → new.elements ≡ old.elements → IsEdit old new }
{}

/// A record by numbers has the voltages of a name at its place, where no name before it is the same, and keeps them
/// where names are appended.
pub fn law_numbers()
    ensures at { (names : List Name) (pairs : ℕ → ℕ → Fraction) (i t : ℕ) → i < length names
        → ((j : ℕ) → j < i → bytes_eq (get_or names i []) (get_or names j []) ≡ false)
        → named names pairs (get_or names i []) t ≡ pairs i t }
    ensures more { (names more : List Name) (pairs : ℕ → ℕ → Fraction) (n : Name) (t : ℕ)
        → list_any (bytes_eq n) names ≡ true → named (names ++ more) pairs n t ≡ named names pairs n t }
{}
