//! A sink in memory.

ghost use Rattle.std.specs.Prelude.{◌≡◌, ◌-◌, ◌<◌, ◌≤◌, ◌==◌, ◌||◌, ◌&&◌, ℕ, Bool, true, false, List, [], length, take, min, Option, Some, option_map, is_err, nat_lt, IfOk, OnOk, OnErr};
ghost use Rattle.std.specs.Vec.{vec_len, vec_capacity};
ghost use Rattle.kin_io.specs.Outside.{GrewBy, flushed_after, HasCause};
ghost use Rattle.kin_io.specs.Plans.{made, is_failing, fails_next, one_more, SameFailing, FailsAlso};

use crate::plans::CallPlan;
use crate::sinks::Sink;
use kin_ids::{Failed, Memory};
use std::alloc::Global;

/// A sink in memory with room for so many bytes, with calls that fail where they are told to.
#[derive(Drop)]
pub struct MemSink {
    taken: Vec<u8>,
    room: usize,
    is_flushed: bool,
    faults: u64,
    plan: CallPlan,
    ghost fits: { vec_len taken ≤ room },
    ghost has_room: { room ≤ vec_capacity taken },
}

impl MemSink {
    ghost use Rattle.kin_io.specs.Sinks.{taken_bytes, room_of, room_left, has_flushed, sink_faults, sink_plan};

    /// An empty sink with room for so many bytes, which it takes at once. No call fails.
    pub fn new(alloc: Global, room: u64) -> Result<MemSink, Memory>
        ensures taken { IfOk result (λ s. taken_bytes s ≡ []) }
        ensures flushed { IfOk result (λ s. has_flushed s ≡ true) }
        ensures room { IfOk result (λ s. room_of s ≡ room) }
        ensures faults { IfOk result (λ s. sink_faults s ≡ 0) }
        ensures made { IfOk result (λ s. made (sink_plan s) ≡ 0) }
        ensures failing { IfOk result (λ s. (call : ℕ) → is_failing (sink_plan s) call ≡ false) }
    {
        Ok(MemSink {
            taken: Vec::with_capacity(alloc, room as usize)?,
            room: room as usize,
            is_flushed: true,
            faults: 0,
            plan: CallPlan::new(alloc),
        })
    }

    /// Lets the call of this number fail, besides those that are to fail already. Calls of `put`
    /// and `flush` are numbered together, from 1.
    pub fn fail_at(&mut self, call: u64) -> Result<(), Memory>
        ensures ok { OnOk result (FailsAlso (sink_plan self.old) (sink_plan self.new) call) }
        ensures err { OnErr result (SameFailing (sink_plan self.old) (sink_plan self.new)) }
        ensures made { made (sink_plan self.new) ≡ made (sink_plan self.old) }
        ensures taken { taken_bytes self.new ≡ taken_bytes self.old }
        ensures flushed { has_flushed self.new ≡ has_flushed self.old }
        ensures room { room_of self.new ≡ room_of self.old }
        ensures faults { sink_faults self.new ≡ sink_faults self.old }
    {
        self.plan.fail_at(call)
    }

    /// The bytes that it took.
    pub fn bytes(&self) -> &[u8]
        ensures { result.now ≡ taken_bytes self.now }
    {
        &self.taken
    }

    // Counts a fault.
    fn fail(&mut self) -> Failed
        ensures faults { sink_faults self.new ≡ one_more (sink_faults self.old) }
        ensures later { sink_faults self.old ≤ sink_faults self.new }
        ensures taken { taken_bytes self.new ≡ taken_bytes self.old }
        ensures flushed { has_flushed self.new ≡ has_flushed self.old }
        ensures room { room_of self.new ≡ room_of self.old }
        ensures plan { sink_plan self.new ≡ sink_plan self.old }
    {
        self.faults = self.faults.saturating_add(1);
        Failed
    }
}

impl Sink for MemSink {
    ghost use Rattle.kin_io.specs.Sinks.{taken_bytes, room_of, room_left, has_flushed, sink_faults, sink_plan};

    ghost taken = { λ s. Some (taken_bytes s) };

    ghost flushed = { λ s. Some (has_flushed s) };

    ghost faults = { λ s. sink_faults s };

    fn put(&mut self, bytes: &[u8]) -> Result<usize, Failed>
        ensures some { IfOk result (λ n. 0 < length bytes.now → 0 < n) }
        ensures took { IfOk result
            (GrewBy (Some (taken_bytes self.old)) (Some (taken_bytes self.new)) bytes.now) }
        ensures unflushes { IfOk result (λ n.
            Some (has_flushed self.new) ≡ flushed_after n (Some (has_flushed self.old))) }
        ensures failed { OnErr result (Some (taken_bytes self.new) ≡ Some (taken_bytes self.old)) }
        ensures failed_flushed { OnErr result (Some (has_flushed self.new) ≡ Some (has_flushed self.old)) }
        ensures cause { HasCause (sink_faults self.old) (sink_faults self.new) result }
        ensures count { IfOk result (λ n. n ≡ min (length bytes.now) (room_left self.old)) }
        ensures fails { is_err result ≡ (fails_next (sink_plan self.old)
            || (nat_lt 0 (length bytes.now) && room_left self.old == 0)) }
        ensures fault { OnErr result (sink_faults self.new ≡ one_more (sink_faults self.old)) }
        ensures made { made (sink_plan self.new) ≡ one_more (made (sink_plan self.old)) }
        ensures failing { SameFailing (sink_plan self.old) (sink_plan self.new) }
        ensures room { room_of self.new ≡ room_of self.old }
    {
        let fails = self.plan.count();
        let count = bytes.len().min(self.room - self.taken.len());
        if fails || (count == 0 && !bytes.is_empty()) {
            return Err(self.fail());
        }
        let Ok(()) = self.taken.extend_from_slice(&bytes[..count]) else {
            unreachable!();
        };
        self.is_flushed = self.is_flushed && count == 0;
        Ok(count)
    }

    fn flush(&mut self) -> Result<(), Failed>
        ensures taken { Some (taken_bytes self.new) ≡ Some (taken_bytes self.old) }
        ensures ok { OnOk result
            (Some (has_flushed self.new) ≡ option_map (λ _. true) (Some (has_flushed self.old))) }
        ensures failed { OnErr result (Some (has_flushed self.new) ≡ Some (has_flushed self.old)) }
        ensures cause { HasCause (sink_faults self.old) (sink_faults self.new) result }
        ensures fails { is_err result ≡ fails_next (sink_plan self.old) }
        ensures fault { OnErr result (sink_faults self.new ≡ one_more (sink_faults self.old)) }
        ensures made { made (sink_plan self.new) ≡ one_more (made (sink_plan self.old)) }
        ensures failing { SameFailing (sink_plan self.old) (sink_plan self.new) }
        ensures room { room_of self.new ≡ room_of self.old }
    {
        if self.plan.count() {
            return Err(self.fail());
        }
        self.is_flushed = true;
        Ok(())
    }
}
