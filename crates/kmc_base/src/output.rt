ghost use Rattle.std.specs.Prelude.{◌≡◌, ℕ, ◌+◌, ◌≤◌, ◌++◌, [], None, Some, max, length, nat_le, vec_capacity, unwrap_or, option_copied, OnOk};
ghost use Rattle.std.specs.Bool.{OnTrue, OnFalse};

use std::alloc::{AllocError, Global};

/// An output in memory: whether it was begun, and its bytes.
#[derive(Debug, Drop)]
pub(crate) struct Output {
    pub(crate) begun: bool,
    pub(crate) bytes: Vec<u8>,
}

/// Adds a piece at the end, where it stays within the room, and says whether it does.
pub(crate) fn add_within(bytes: &mut Vec<u8>, room: usize, piece: &[u8]) -> bool
    requires within { length bytes.old.items ≤ room }
    requires reserved { room ≤ vec_capacity bytes.old }
    ensures fits { result ≡ nat_le (length bytes.old.items + length piece.now) room }
    ensures added { OnTrue result (bytes.new.items ≡ bytes.old.items ++ piece.now) }
    ensures kept { OnFalse result (bytes.new.items ≡ bytes.old.items) }
    ensures within { length bytes.new.items ≤ room }
    ensures reserved { room ≤ vec_capacity bytes.new }
{
    if piece.len() > room - bytes.len() {
        return false;
    }
    match bytes.extend_from_slice(piece) {
        Ok(()) => true,
        Err(_) => unreachable!(),
    }
}

impl Output {
    ghost use Rattle.kmc_base.specs.Room.{IsWithin, told};

    /// An output that was not begun, without room.
    pub(crate) fn new(alloc: Global) -> Self
        ensures told { told result ≡ None }
        ensures within { IsWithin 0 result }
    {
        Output {
            begun: false,
            bytes: Vec::new(alloc),
        }
    }

    /// Reserves room for so many bytes more than are there. The output stays as it was.
    pub(crate) fn reserve(&mut self, room: usize, bytes: usize) -> Result<(), AllocError>
        requires { IsWithin room self.old }
        ensures told { told self.new ≡ told self.old }
        ensures within { IsWithin room self.new }
        ensures reserved { OnOk result (IsWithin (max room bytes) self.new) }
    {
        self.bytes.reserve(bytes)
    }

    /// Makes it empty.
    pub(crate) fn begin(&mut self)
        ensures told { told self.new ≡ Some [] }
        ensures within { (room : ℕ) → IsWithin room self.old → IsWithin room self.new }
    {
        self.begun = true;
        self.bytes.clear();
    }

    /// Adds a piece at its end, where it stays within the room, and says whether it does.
    pub(crate) fn append(&mut self, room: usize, piece: &[u8]) -> bool
        requires { IsWithin room self.old }
        ensures fits { result ≡ nat_le (length (unwrap_or (told self.old) []) + length piece.now) room }
        ensures added { OnTrue result (told self.new ≡ Some (unwrap_or (told self.old) [] ++ piece.now)) }
        ensures within { IsWithin room self.new }
    {
        let fits = add_within(&mut self.bytes, room, piece);
        if fits {
            self.begun = true;
        }
        fits
    }

    /// Its bytes, where it was begun.
    pub(crate) fn told(&self) -> Option<&[u8]>
        ensures { option_copied result ≡ told self.now }
    {
        if self.begun {
            Some(self.bytes.as_slice())
        } else {
            None
        }
    }
}
