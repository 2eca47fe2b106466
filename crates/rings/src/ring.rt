// What the log and the timelines share: entries of two words, of which a full ring gives up the oldest.
ghost use Rattle.std.specs.Prelude.{◌≡◌, ◌++◌, ◌∷◌, [], ◌+◌, ◌*◌, ◌<◌, set};
ghost use Rattle.std.proofs.Math.Option.{some};
ghost use Rattle.std.proofs.Math.ListN.{get_elem?};
ghost use Rattle.model.specs.Accounting.{newest};
ghost use Rattle.rings.specs.Ring.{next_slot, slot_before, capacity, entries_in, RingOK, Behind};

use crate::RingPos;

// The two words of an entry.
#[derive(Clone, Copy, PartialEq, Eq, Debug)]
pub struct Entry {
    pub first: u64,
    pub second: u64,
}

// The slot behind a slot, round the ring.
fn next_slot(slots: usize, last: usize) -> usize
    requires { last < slots }
    ensures { (result ≡ next_slot slots last) × (result < slots) }
{
    if last + 1 < slots { last + 1 } else { 0 }
}

// The slot d before a slot, round the ring.
fn slot_before(slots: usize, last: usize, d: usize) -> usize
    requires { (last < slots) × (d < slots) }
    ensures { (result ≡ slot_before slots last d) × (result < slots) }
{
    if d <= last {
        last - d
    } else {
        slots - (d - last)
    }
}

fn store_entry(ring: &mut [u64], slot: usize, entry: Entry)
    requires { slot < capacity ring.old }
    ensures { ring.new ≡ set (set ring.old (slot * 2) entry.first) (slot * 2 + 1) entry.second }
{
    ring[slot * 2] = entry.first;
    ring[slot * 2 + 1] = entry.second;
}

// One entry more; a full ring gives up its oldest.
pub fn push_entry(ring: &mut [u64], pos: RingPos, entry: Entry) -> RingPos
    requires { RingOK ring.old pos }
    ensures ok { RingOK ring.new result }
    ensures entries { entries_in ring.new result ≡ newest (capacity ring.old) (entries_in ring.old pos ++ (entry ∷ [])) }
    ensures behind { Behind ring.old ring.new pos result }
{
    let last = pos.last as usize;
    let len = pos.len as usize;
    let slots = ring.len() / 2;
    let next = next_slot(slots, last);
    store_entry(ring, next, entry);
    if len < slots {
        return RingPos {
            last: next as u16,
            len: (len + 1) as u16,
        };
    }
    RingPos {
        last: next as u16,
        len: pos.len,
    }
}

// The entry k behind the oldest.
pub fn entry_at(ring: &[u64], pos: RingPos, k: usize) -> Entry
    requires { RingOK ring.now pos × (k < pos.len) }
    ensures { some result ≡ get_elem? (entries_in ring.now pos) k }
{
    let last = pos.last as usize;
    let len = pos.len as usize;
    let slot = slot_before(ring.len() / 2, last, len - 1 - k);
    Entry {
        first: ring[slot * 2],
        second: ring[slot * 2 + 1],
    }
}
