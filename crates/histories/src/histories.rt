ghost use Rattle.std.specs.Prelude.{◌≡◌, ◌≤◌, ◌<◌, ◌+◌, ◌*◌, ◌^◌, ℕ, nat_lt, ◌&&◌, IsTrue, IfOk, OnOk, OnErr, None, Some, false, length, slice_index_or, unsigned_abs};
ghost use Rattle.node_ramps.specs.Lines.{voltage};
ghost use Rattle.histories.specs.Track.{IsBounded, IsTrack};
ghost use Rattle.histories.specs.Pairs.{IsEnd, IsJoined, IsSmooth, line_at, wave_of};
ghost use Rattle.histories.specs.Record.{IsSpliced, IsStarted, keeps, pair_at, track_of};

use crate::piece::Piece;
use crate::track::Track;
use node_ramps::{Line, Ramp};
use std::alloc::{AllocError, Global};
use std::marker::Model;

/// The record of nodes by their numbers, up to a stop tick: for each node that it keeps a voltage at each tick from 0 to
/// the stop, whether or not they fit a circuit. A contract sees these pairs of a numerator and a denominator.
#[derive(Drop)]
pub struct Histories {
    stop: u64,
    tracks: Vec<Option<Track>>,
    alloc: Global,
}

impl Model for Histories {
    ghost use Rattle.std.specs.Prelude.{◌≤◌, ◌^◌};
    ghost use Rattle.histories.specs.Record.{RecordValue};

    ghost Value = { RecordValue };

    ghost view = { λ h. record { stop = h.stop; tracks = h.tracks.items } };

    ghost invariant = { λ h. h.stop ≤ 10 ^ 10 };
}

impl Histories {
    /// The record up to this stop tick that keeps no node.
    pub fn new(alloc: Global, stop: u64) -> Histories
        requires { stop ≤ 10 ^ 10 }
        ensures stop { result.stop ≡ stop }
        ensures none { (n : ℕ) → keeps result n ≡ false }
    {
        Histories {
            stop,
            tracks: Vec::new(alloc),
            alloc,
        }
    }

    /// The stop tick.
    pub fn stop(&self) -> u64
        ensures stop { result ≡ self.now.stop }
        ensures limit { result ≤ 10 ^ 10 }
    {
        self.stop
    }

    /// Gives a node that is not kept this pair at every tick, and one that is kept at tick 0 alone.
    pub fn start(&mut self, node: u32, num: i128, den: u64) -> Result<(), AllocError>
        requires num { unsigned_abs num ≤ 10 ^ 21 }
        requires den_from { 1 ≤ den }
        requires den_to { den ≤ 10 ^ 12 }
        ensures ok { OnOk result
            (IsStarted self.old self.new node (record { num = num; den = den })) }
        ensures err { OnErr result (self.new ≡ self.old) }
    {
        let ramp = Ramp::still(0, num, den);
        let place = node as usize;
        if self.keeps(node) {
            return self.restart(place, ramp);
        }
        let track = Track::level(self.alloc, ramp)?;
        reach(&mut self.tracks, place)?;
        self.tracks[place] = Some(track);
        Ok(())
    }

    /// Forgets the nodes from this number on.
    pub fn truncate(&mut self, count: u32)
        ensures stop { self.new.stop ≡ self.old.stop }
        ensures kept { (n : ℕ) → keeps self.new n ≡ (nat_lt n count && keeps self.old n) }
        ensures pairs { (n t : ℕ) → n < count → pair_at self.new n t ≡ pair_at self.old n t }
    {
        self.tracks.truncate(count as usize);
    }

    /// Whether the node is kept.
    pub fn keeps(&self, node: u32) -> bool
        ensures { result ≡ keeps self.now node }
    {
        matches!(self.tracks.get(node as usize), Some(Some(_)))
    }

    /// The numerator and the denominator of a node at a tick.
    pub fn at(&self, node: u32, tick: u64) -> (i128, u64)
        requires kept { IsTrue (keeps self.now node) }
        requires tick { tick ≤ self.now.stop }
        ensures pair { record { num = result.0; den = result.1 } ≡ pair_at self.now node tick }
        ensures num { unsigned_abs result.0 ≤ 10 ^ 21 + 10 ^ 15 * tick }
        ensures den_from { 1 ≤ result.1 }
        ensures den_to { result.1 ≤ 10 ^ 12 }
    {
        let pair = self.track(node).at(tick);
        (pair.num, pair.den)
    }

    /// The line of a node from a tick on: it has the pair there, and that of the next tick where a line in its limits
    /// has both. At the stop its rate is 0.
    pub fn line(&self, node: u32, tick: u64) -> Line
        requires kept { IsTrue (keeps self.now node) }
        requires tick { tick ≤ self.now.stop }
        ensures line { result ≡ line_at (pair_at self.now node) self.now.stop tick }
        ensures bounded { IsBounded result }
    {
        self.track(node).line(tick, self.stop)
    }

    /// The last tick up to the stop to which that line has the record's pairs.
    pub fn line_end(&self, node: u32, tick: u64) -> u64
        requires kept { IsTrue (keeps self.now node) }
        requires tick { tick ≤ self.now.stop }
        ensures end { IsEnd (pair_at self.now node) self.now.stop
            (line_at (pair_at self.now node) self.now.stop tick) result }
        ensures later { tick < self.now.stop
            → IsJoined (pair_at self.now node) tick → tick < result }
    {
        let track = self.track(node);
        track.line_end(&track.line(tick, self.stop), self.stop)
    }

    /// Writes the pairs of a piece at its ticks after `from`, up to `until`. Nothing else changes.
    pub fn splice(&mut self, piece: Piece) -> Result<(), AllocError>
        requires kept { IsTrue (keeps self.old piece.node) }
        requires until { piece.until ≤ self.old.stop }
        ensures ok { OnOk result (IsSpliced self.old self.new piece) }
        ensures err { OnErr result (self.new ≡ self.old) }
    {
        let stop = self.stop;
        match &mut self.tracks[piece.node() as usize] {
            Some(track) => track.splice(piece, stop),
            None => unreachable!(),
        }
    }

    /// An equal record; what is later done to the one does not change the other.
    pub fn share(&self) -> Result<Histories, AllocError>
        ensures { IfOk result (λ copy. copy ≡ self.now) }
    {
        let mut tracks = Vec::with_capacity(self.alloc, self.tracks.len())?;
        for track in &self.tracks {
            tracks.push(match track {
                Some(track) => Some(track.copy(self.alloc)?),
                None => None,
            })?;
        }
        Ok(Histories {
            stop: self.stop,
            tracks,
            alloc: self.alloc,
        })
    }

    /// The wave of a node: lines through its pairs, a new one exactly where the rate or the denominator changes.
    pub fn canonical(&self, node: u32) -> Result<Vec<Line>, AllocError>
        requires kept { IsTrue (keeps self.now node) }
        requires smooth { IsSmooth (pair_at self.now node) self.now.stop }
        ensures { IfOk result (λ lines.
            lines.items ≡ wave_of (pair_at self.now node) self.now.stop) }
    {
        self.track(node).canonical(self.alloc, self.stop)
    }

    /// The ramps of a node as they are kept, from tick 0 on.
    pub fn ramps(&self, node: u32) -> &[Ramp]
        requires { IsTrue (keeps self.now node) }
        ensures ramps { track_of self.now node ≡ Some result.now }
        ensures track { IsTrack 0 result.now }
    {
        self.track(node).ramps()
    }

    /// The record of a node.
    fn track(&self, node: u32) -> &Track
        requires { IsTrue (keeps self.now node) }
        ensures track { track_of self.now node ≡ Some result.now }
        ensures stop { self.now.stop ≤ 10 ^ 10 }
    {
        match self.tracks.get(node as usize) {
            Some(Some(track)) => track,
            _ => unreachable!(),
        }
    }

    /// Sets the pair at tick 0 of the node that is kept at this place.
    fn restart(&mut self, place: usize, ramp: Ramp) -> Result<(), AllocError>
        requires kept { IsTrue (keeps self.old place) }
        requires start { ramp.start ≡ 0 }
        requires bounded { IsBounded ramp }
        ensures ok { OnOk result (IsStarted self.old self.new place (voltage ramp 0)) }
        ensures err { OnErr result (self.new ≡ self.old) }
    {
        match &mut self.tracks[place] {
            Some(track) => track.start(self.alloc, ramp),
            None => unreachable!(),
        }
    }
}

/// Makes the list so long that it has this place, with no track at the new places.
fn reach(tracks: &mut Vec<Option<Track>>, place: usize) -> Result<(), AllocError>
    requires { place < 2 ^ 32 }
    ensures inside { OnOk result (place < length tracks.new.items) }
    ensures same { OnOk result ((n : ℕ)
        → slice_index_or tracks.new.items n None ≡ slice_index_or tracks.old.items n None) }
    ensures err { OnErr result (tracks.new.items ≡ tracks.old.items) }
{
    if tracks.len() <= place {
        tracks.resize_with(place + 1, || None)?;
    }
    Ok(())
}
