// The memory that the host lends, as one value.
use model::ThreadInfo;

// The five slices: thread records in thread order, the ready queue, the threads' priorities, the log's words, and the lanes' words.
#[derive(Drop)]
pub struct LentMemory<'a> {
    pub threads: &'a mut [ThreadInfo],
    pub queue: &'a mut [u32],
    pub prios: &'a mut [u32],
    pub log: &'a mut [u64],
    pub lanes: &'a mut [u64],
}

// The four slices of words, of which the priorities are only read: what a tick end and a forced switch take beside the thread records.
#[derive(Drop)]
pub struct LentWords<'a> {
    pub queue: &'a mut [u32],
    pub prios: &'a [u32],
    pub log: &'a mut [u64],
    pub lanes: &'a mut [u64],
}
