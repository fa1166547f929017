ghost use Rattle.std.specs.Prelude.{◌≡◌, ◌↔◌, ◌≤◌, IsErr, IsTrue, IfOk, IfErr, OnOk, OnErr, Some, [], option_copied};
ghost use Rattle.kmc_base.specs.Faults.{IsCount, Rose};
ghost use Rattle.kmc_base.specs.InMemory.{after_put};
ghost use Rattle.kmc_base.specs.Numbered.{first_of, next_fails};

use crate::error::{Failed, OutOfMemory};
use crate::numbered::Calls;
use crate::output::add_within;
use crate::sink::Sink;
use std::alloc::Global;
use std::marker::Model;

/// A screen in memory, for tests: it reports what it has taken as long as that stays within its room.
#[derive(Debug, Drop)]
pub struct MemorySink {
    text: Vec<u8>,
    telling: bool,
    room: usize,
    puts: Calls,
    faults: u64,
}

impl Model for MemorySink {
    ghost use Rattle.std.specs.Prelude.{Some, None, if◌then◌else◌, length, ◌≤◌, vec_capacity};
    ghost use Rattle.kmc_base.specs.InMemory.{SinkInMemory};

    ghost Value = { SinkInMemory };

    ghost view = { λ s. record {
      taken = if s.telling then Some s.text.items else None;
      room = s.room;
      puts = s.puts;
      faults = s.faults;
    } };

    ghost invariant = { λ s. (length s.text.items ≤ s.room) × (s.room ≤ vec_capacity s.text) };
}

impl MemorySink {
    /// A screen that has taken nothing, with room for so many bytes. The list has the numbers,
    /// from 1, of the puts that fail.
    ///
    /// # Errors
    ///
    /// Where memory is refused, the list comes back.
    pub fn new(
        alloc: Global,
        bytes: usize,
        puts: Vec<u64>,
    ) -> Result<MemorySink, (Vec<u64>, OutOfMemory)>
        ensures ok { IfOk result (λ sink. sink ≡ record { taken = Some []; room = bytes; puts = first_of puts.items; faults = 0 }) }
        ensures err { IfErr result (λ refused. refused.0.items ≡ puts.items) }
    {
        match Vec::with_capacity(alloc, bytes) {
            Ok(text) => Ok(MemorySink {
                text,
                telling: true,
                room: bytes,
                puts: Calls::new(puts),
                faults: 0,
            }),
            Err(_) => Err((puts, OutOfMemory)),
        }
    }

    /// What it has taken. `None` where it has stopped reporting.
    pub fn text(&self) -> Option<&[u8]>
        ensures { option_copied result ≡ self.now.taken }
    {
        if self.telling {
            Some(self.text.as_slice())
        } else {
            None
        }
    }
}

impl Sink for MemorySink {
    ghost faults = { λ s. s.faults };

    ghost taken = { λ s. s.taken };

    fn put(&mut self, piece: &[u8]) -> Result<(), Failed>
        ensures left { self.new ≡ after_put piece.now self.old }
        ensures fails { IsErr result ↔ IsTrue (next_fails self.old.puts) }
        ensures cause { OnErr result (Rose self.old.faults self.new.faults) }
        ensures few { OnErr result (IsCount self.new.faults) }
        ensures no_fault { OnOk result (self.new.faults ≡ self.old.faults) }
    {
        if self.puts.next() {
            self.faults = self.faults.saturating_add(1);
            return Err(Failed);
        }
        let fits = add_within(&mut self.text, self.room, piece);
        self.telling = self.telling && fits;
        Ok(())
    }
}
