//! A sink in memory, which fails at the pushes that it is told and where it is full.
ghost use Rattle.std.specs.Prelude.{◌≡◌, ◌-◌, ◌<◌, ◌≤◌, ◌↔◌, ℕ, [], IfOk, Some, length, min, vec_capacity, vec_len};
ghost use Rattle.bus_outer.specs.Faults.{one_more};
ghost use Rattle.bus_outer.specs.Sinks.{Pushes, CountsPush};

use crate::{Push, Sink};
use std::alloc::{AllocError, Global};

/// A sink in memory with a fixed room. It takes bytes in pieces, and fails exactly at the pushes listed and
/// where it is full.
///
/// Pushes are numbered from 0, and a failed one counts as one fault; the number and the count stop at the last
/// value of a `u64`.
#[derive(Drop)]
pub struct MemorySink {
    bytes: Vec<u8>,
    room: usize,
    piece: usize,
    failing: Vec<u64>,
    number: u64,
    faults: u64,
    ghost positive: { 1 ≤ piece },
    ghost within: { vec_len bytes ≤ room },
    ghost room_taken: { room ≤ vec_capacity bytes },
}

impl MemorySink {
    ghost use Rattle.bus_outer.specs.Memory.{sink_bytes, sink_room, sink_piece, push_number, failing_pushes, sink_faults};

    /// A sink for `room` bytes, for which it takes the memory here. A push takes at most `piece` bytes, at
    /// least 1; the pushes whose numbers are in `failing` fail. `AllocError`: the memory was refused.
    pub fn new(
        alloc: Global,
        room: usize,
        piece: usize,
        failing: Vec<u64>,
    ) -> Result<MemorySink, AllocError>
        requires { 1 ≤ piece }
        ensures empty { IfOk result (λ s. sink_bytes s ≡ []) }
        ensures room { IfOk result (λ s. sink_room s ≡ room) }
        ensures piece { IfOk result (λ s. sink_piece s ≡ piece) }
        ensures failing { IfOk result (λ s. failing_pushes s ≡ failing.items) }
        ensures number { IfOk result (λ s. push_number s ≡ 0) }
        ensures faults { IfOk result (λ s. sink_faults s ≡ 0) }
    {
        let bytes = Vec::with_capacity(alloc, room)?;
        Ok(MemorySink {
            bytes,
            room,
            piece,
            failing,
            number: 0,
            faults: 0,
        })
    }

    /// The bytes that it holds, in the order in which they were taken.
    pub fn bytes(&self) -> &[u8]
        ensures { result.now ≡ sink_bytes self.now }
    {
        &self.bytes
    }
}

impl Sink for MemorySink {
    ghost use Rattle.bus_outer.specs.Memory.{sink_bytes, sink_room, sink_piece, push_number, failing_pushes, sink_faults};
    ghost use Rattle.bus_outer.specs.Memory.{PassesPush, PushFails, push_size};

    ghost held = { λ s. Some (sink_bytes s) };

    ghost faults = { λ s. sink_faults s };

    /// Takes the least of a piece, the bytes and the room left, or fails where this push is listed or no
    /// room is left.
    fn push(&mut self, bytes: &[u8]) -> Push
        requires { 0 < length bytes.now }
        ensures bytes { Pushes (Some (sink_bytes self.old)) (Some (sink_bytes self.new)) result bytes.now }
        ensures counts { CountsPush (sink_faults self.old) (sink_faults self.new) result }
        ensures once { result ≡ Push.Failed → sink_faults self.new ≡ one_more (sink_faults self.old) }
        ensures listed { (result ≡ Push.Failed) ↔ PushFails self.old }
        ensures amount { (n : ℕ) → result ≡ Push.Took n → n ≡ push_size self.old bytes.now }
        ensures passes { PassesPush self.old self.new }
    {
        let fails = self.failing.contains(&self.number);
        self.number = self.number.saturating_add(1);
        if fails || self.bytes.len() == self.room {
            self.faults = self.faults.saturating_add(1);
            return Push::Failed;
        }
        let n = self
            .piece
            .min(bytes.len())
            .min(self.room - self.bytes.len());
        self.bytes.extend_from_slice(&bytes[..n]).unwrap();
        Push::Took(n)
    }
}
