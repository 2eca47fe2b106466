// Rings of words in memory that the caller lends: the log keeps the newest events in one, each core's timeline the newest
// segments in another. A ring takes the whole of the slice it is given, two words to an entry; where its newest entry stands
// and how many there are is the caller's to keep, in a `RingPos`.
// Its public functions are parts for other crates: no host calls them.
#![tactic(auto)]

pub mod events;
pub mod ring;
pub mod timeline;

// The slot of the newest entry, and the number of entries. It is the newest that a growing segment changes, so its slot is
// at hand. An empty ring may have any slot here. A ring has fewer than 65,536 slots: a state holds nine positions and is copied in each call.
#[derive(Clone, Copy, PartialEq, Eq, Debug)]
pub struct RingPos {
    pub last: u16,
    pub len: u16,
}
