// A tick end: refused, or charged, decided and written.
ghost use Rattle.std.specs.Prelude.{◌≡◌, true, List, [], ℕ, ◌+◌, ◌*◌, ◌<◌, ◌≤◌, ◌^◌, length, get_or};
ghost use Rattle.std.proofs.Math.Option.{none};
ghost use Rattle.model.specs.declared.CoreState.TheVariants;
ghost use Rattle.model.specs.declared.ThreadInfo.{ThreadInfo};
ghost use Rattle.model.specs.Phases.{decide};
ghost use Rattle.model.specs.Reading.{core_state_meant};
ghost use Rattle.queue.specs.Ready.{waiting};
ghost use Rattle.queue.specs.Words.{moves_in, made, Appended, NoLonger, StillLent};
ghost use Rattle.turns.specs.Turns.{rules_meant, Short};
ghost use Rattle.phases.specs.Cores.{board, pass_of};
ghost use Rattle.state.specs.Memory.{memory, held, held_words, SameLoans, SameWords};
ghost use Rattle.state.specs.State.{firsts, packed, states_of, move_room, no_ticks, no_pos, lane_start, lane_words, log_words, Valid};
ghost use Rattle.rings.specs.Ring.{RingOK};
ghost use Rattle.quiet.specs.Quiet.{is_quiet, Roomy};
ghost use Rattle.ticks.specs.Room.{TicksRoom};
ghost use Rattle.accounts.specs.Charging.{TicksCharged, LanesCharged};
ghost use Rattle.checks.specs.Check.{tick_refusal};
ghost use Rattle.tick_plan.specs.Plan.{tick_threads, ticked_sched, ChargeFits, ChargedOf, PlanFits, PlannedOf, WriteFitsAt, WriteFits, WrittenAt, WrittenOf, TickPending};

use crate::one::{charge_one, is_single};
use crate::{Charged, Decided, Planned, Written};
use accounts::counters::{charge_ticks, count_takes};
use accounts::lanes::charge_lanes;
use accounts::log::log_moves;
use checks::check_tick;
use decide::tick::decide_board;
use decide_one::decide_core;
use model::{CoreState, CoreTicks, Tick};
use queue::moves::Moves;
use queue::ready::ReadyQueue;
use quiet::{is_quiet, sliced_states};
use rings::RingPos;
use state::memory::{LentMemory, LentWords};
use state::{Eight, Sched, pack, state_in, unpack, words_of};
use switches::{no_switches, switch_list};
use turns::{Marks, Rules};

// The threads that the call charges: none where it is refused.
pub fn tick_threads(s: Sched) -> usize
    ensures { result ≡ tick_threads s }
{
    match check_tick(s) {
        Err(_) => 0,
        Ok(()) => s.threads,
    }
}

// The tick at which the moves are written.
pub fn next_tick(s: Sched) -> Tick
    requires { s.now.0 + 1 < 2 ^ 64 }
    ensures { result.0 ≡ s.now.0 + 1 }
{
    Tick(s.now.0 + 1)
}

// The first n cores' counters and timelines. It takes the parts of the state that it needs: a state that is passed whole is stored whole first.
fn charge_each(
    states: [CoreState; 8],
    old: [CoreTicks; 8],
    pos: [RingPos; 8],
    n: usize,
    segments: usize,
    tick: Tick,
    lanes: &mut [u64],
) -> Charged
    requires { (n ≤ 8) × ((i : ℕ) → i < n
        → TicksRoom (get_or old i no_ticks)) × (segments ≤ 4096) × (lane_start segments n ≤ length lanes.old) × (tick.0 < 4294967295) × ((i : ℕ)
        → i < n → RingOK (lane_words segments i lanes.old) (get_or pos i no_pos)) }
    ensures ticks { TicksCharged n states old result.ticks }
    ensures lanes { LanesCharged segments n tick.0 states lanes.old lanes.new pos result.lanes }
    ensures eight { (length result.ticks ≡ 8) × (length result.lanes ≡ 8) }
{
    let ticks = charge_ticks(old, states, n);
    let lanes = charge_lanes(lanes, pos, segments, states, n, tick);
    Charged { ticks, lanes }
}

// "Charging a tick": the cores' counters and timelines.
pub fn charge(s: Sched, lanes: &mut [u64]) -> Charged
    requires { ChargeFits s lanes.old }
    ensures { ChargedOf s lanes.old lanes.new result }
{
    let states = unpack(s.states);
    charge_each(
        states,
        s.ticks,
        s.lanes,
        s.cores,
        s.capacities.segments,
        s.now,
        lanes,
    )
}

// The same with a test for one core. It does not call `charge`, which takes the state whole.
fn charge_tick(s: Sched, lanes: &mut [u64]) -> Charged
    requires { ChargeFits s lanes.old }
    ensures { ChargedOf s lanes.old lanes.new result }
{
    if s.cores == 1 {
        return charge_one(s, lanes);
    }
    let states = unpack(s.states);
    charge_each(
        states,
        s.ticks,
        s.lanes,
        s.cores,
        s.capacities.segments,
        s.now,
        lanes,
    )
}

// The six phases on the core states; one core by itself.
fn decided(
    states: Eight,
    n: usize,
    rules: &Rules,
    marks: &mut Marks,
    queue: &mut ReadyQueue,
    moves: &mut Moves,
) -> Eight
    requires bounds { (n ≤ 8) × (queue.old.len ≤ length queue.old.words.now) × (move_room ≤ length moves.old.words.now) }
    requires short { (j : ℕ) → j < n → Short (core_state_meant (get_or (states_of states) j TheVariants.Idle)) }
    ensures decided { pass_of n (board (states_of result) marks.new) (waiting queue.new) (made moves.new)
        ≡ decide (rules_meant rules.now) (firsts (board (states_of states) marks.old) n) (waiting queue.old) }
    ensures rest { (j : ℕ) → n ≤ j → board (states_of result) marks.new j ≡ board (states_of states) marks.old j }
    ensures queue { NoLonger queue.old.len queue.new.len queue.old.words.now queue.new.words.now }
    ensures out { Appended (10 * n) 0 moves.new.count moves.old.words.now moves.new.words.now }
    ensures lent { StillLent queue.old.words queue.new.words }
    ensures lent_moves { StillLent moves.old.words moves.new.words }
    ensures words { states ≡ packed (states_of states) → result ≡ packed (states_of result) }
{
    if is_single(n, rules.policy) {
        let next = decide_core(state_in(states.c0), rules, marks, queue, moves);
        return Eight {
            c0: words_of(next),
            ..states
        };
    }
    pack(decide_board(unpack(states), n, rules, marks, queue, moves))
}

// What the phases decide; the moves go to the first 80 words of the lanes.
fn plan(s: Sched, queue: &mut [u32], prios: &[u32], lanes: &mut [u64]) -> Planned
    requires { PlanFits s queue.old prios.now lanes.old }
    ensures { PlannedOf s queue.old queue.new prios.now lanes.old lanes.new result }
{
    let rules = Rules {
        policy: s.config.policy,
        quantum: s.config.quantum,
        cost: s.config.switch_cost,
        prios: &prios[..s.threads],
    };
    let mut marks = s.marks;
    let mut ready = ReadyQueue {
        words: queue,
        len: s.queued,
    };
    let (front, _) = lanes.split_at_mut(80);
    let mut moves = Moves {
        words: front,
        count: 0,
    };
    let states = decided(
        s.states, s.cores, &rules, &mut marks, &mut ready, &mut moves,
    );
    Planned::new(states, marks, ready.len, moves.count)
}

// The moves in the front of the lanes, written into the switch list and into the log: a ring of `events` entries that stands at `pos`.
fn write_at(
    pos: RingPos,
    events: usize,
    log: &mut [u64],
    lanes: &[u64],
    moves: usize,
    tick: Tick,
) -> Written
    requires { WriteFitsAt events pos log.old lanes.now moves tick.0 }
    ensures { WrittenAt events pos tick.0 (moves_in lanes.now moves) log.old log.new result }
{
    let takes = count_takes(lanes, moves);
    let switches = switch_list(lanes, moves);
    let log = log_moves(&mut log[..2 * events], pos, lanes, moves, tick);
    Written {
        log,
        takes,
        switches,
    }
}

// The same, in the log of `s`.
pub fn write(s: Sched, log: &mut [u64], lanes: &[u64], moves: usize, tick: Tick) -> Written
    requires { WriteFits s log.old lanes.now moves tick.0 }
    ensures { WrittenOf s tick.0 (moves_in lanes.now moves) log.old log.new result }
{
    write_at(s.log, s.capacities.events, log, lanes, moves, tick)
}

// The state after a tick end.
fn after_tick(s: Sched, tick: Tick, c: Charged, p: Planned, w: Written) -> Sched
    requires { s.context_switches + w.takes < 2 ^ 64 }
    ensures { result ≡ ticked_sched s tick c p w }
{
    let Charged { ticks, lanes } = c;
    let taken = p.taken(s, w);
    Sched {
        now: tick,
        ticks,
        lanes,
        ..taken
    }
}

// What a tick decides that switches nothing: each running core's slice grows.
fn plan_quiet(s: Sched) -> Planned
    requires { (s.cores ≤ 8) × (is_quiet s ≡ true) × Roomy s }
    ensures { (result.moves ≡ 0) × ((qs ps ws : List ℕ) → PlannedOf s qs qs ps ws ws result) }
{
    Planned::new(sliced_states(s), s.marks, s.queued, 0)
}

// What no moves come to.
fn write_nothing(s: Sched, lanes: &[u64]) -> Written
    ensures { (result.takes ≡ 0) × ((tick : ℕ) (ls : List ℕ) → RingOK (log_words s.capacities.events ls) s.log → WrittenOf s tick [] ls ls result) }
{
    Written {
        log: s.log,
        takes: 0,
        switches: switch_list(lanes, 0),
    }
}

// The rest of a tick end that switches nothing, after the charging: queue, log and lanes stay as they are.
fn tick_quiet(s: Sched, charged: Charged, lanes: &[u64]) -> Decided
    requires { (s.cores ≤ 8) × (is_quiet s ≡ true) × Roomy s × (s.now.0 + 1 < 2 ^ 64) }
    ensures { (ts : List ThreadInfo) (qs ps ls ws ws' : List ℕ) → Valid s (memory ts qs ps ls ws) → tick_refusal s ≡ none
        → ChargedOf s ws ws' charged
        → TickPending result.answer result.switches s result.sched result.moves (memory ts qs ps ls ws) (memory ts qs ps ls ws') }
{
    let planned = plan_quiet(s);
    let tick = next_tick(s);
    let written = write_nothing(s, lanes);
    Decided {
        sched: after_tick(s, tick, charged, planned, written),
        answer: Ok(()),
        switches: written.switches,
        moves: planned.moves,
    }
}

// A tick end that is not refused.
fn tick_taken(s: Sched, w: &mut LentWords) -> Decided
    requires { (tick_refusal s ≡ none) × ((ts : List ThreadInfo) × Valid s (held_words ts w.old)) }
    ensures done { (ts : List ThreadInfo) → Valid s (held_words ts w.old)
        → TickPending result.answer result.switches s result.sched result.moves (held_words ts w.old) (held_words ts w.new) }
    ensures lent { SameWords w.old w.new }
{
    let queue = &mut *w.queue;
    let log = &mut *w.log;
    let lanes = &mut *w.lanes;
    let charged = charge_tick(s, lanes);
    if is_quiet(s) {
        return tick_quiet(s, charged, lanes);
    }
    let planned = plan(s, queue, w.prios, lanes);
    let tick = next_tick(s);
    let written = write_at(s.log, s.capacities.events, log, lanes, planned.moves, tick);
    Decided {
        sched: after_tick(s, tick, charged, planned, written),
        answer: Ok(()),
        switches: written.switches,
        moves: planned.moves,
    }
}

// All of a tick end but what it does to the thread records.
pub fn tick_decided_on_words(s: Sched, w: &mut LentWords) -> Decided
    requires { (ts : List ThreadInfo) × Valid s (held_words ts w.old) }
    ensures done { (ts : List ThreadInfo) → Valid s (held_words ts w.old)
        → TickPending result.answer result.switches s result.sched result.moves (held_words ts w.old) (held_words ts w.new) }
    ensures lent { SameWords w.old w.new }
{
    let answer = check_tick(s);
    match answer {
        Err(_) => Decided {
            sched: s,
            answer,
            switches: no_switches(),
            moves: 0,
        },
        Ok(()) => tick_taken(s, w),
    }
}

// The same on the slices one by one: the parts of a `LentMemory` can be lent to it, and can't be made a `LentWords` where they are.
fn tick_decided_on_slices(
    s: Sched,
    queue: &mut [u32],
    prios: &[u32],
    log: &mut [u64],
    lanes: &mut [u64],
) -> Decided
    requires { (ts : List ThreadInfo) × Valid s (memory ts queue.old prios.now log.old lanes.old) }
    ensures { (ts : List ThreadInfo) → Valid s (memory ts queue.old prios.now log.old lanes.old)
        → TickPending result.answer result.switches s result.sched result.moves
        (memory ts queue.old prios.now log.old lanes.old) (memory ts queue.new prios.now log.new lanes.new) }
{
    let mut words = LentWords {
        queue,
        prios,
        log,
        lanes,
    };
    tick_decided_on_words(s, &mut words)
}

// The same for a caller that has the lent memory as one value: the records and the priorities stay as they are.
pub fn tick_decided(s: Sched, m: &mut LentMemory) -> Decided
    requires { Valid s (held m.old) }
    ensures done { TickPending result.answer result.switches s result.sched result.moves (held m.old) (held m.new) }
    ensures records { m.new.threads.now ≡ m.old.threads.now }
    ensures prios { m.new.prios.now ≡ m.old.prios.now }
    ensures lent { SameLoans m.old m.new }
{
    let queue = &mut *m.queue;
    let prios = &mut *m.prios;
    let log = &mut *m.log;
    let lanes = &mut *m.lanes;
    tick_decided_on_slices(s, queue, prios, log, lanes)
}
