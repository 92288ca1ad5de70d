//! Memory that a guest reads and writes.

ghost use Rattle.std.specs.Prelude.{◌≡◌, ℕ, ◌⊎◌, List, Ok, Err, OnOk, OnErr, IfErr};
ghost use Rattle.guest_types.specs.Memory.{Memory, loaded, stored};

use crate::memory::AccessFault;

/// Memory that a guest reads and writes, in units of 1, 2, 4 or 8 bytes at any address.
///
/// Bytes are little-endian, and the byte after address 2^64 - 1 is that at address 0.
pub trait GuestMemory {
    ghost memory: { Self → Memory };

    /// What it was at each time that it was kept, oldest first.
    ghost past: { Self → List Memory };

    /// The number of `size` bytes, or a fault where one of them is not readable.
    fn load(&self, address: u64, size: u32) -> Result<u64, AccessFault>
        requires { (size ≡ 1) ⊎ (size ≡ 2) ⊎ (size ≡ 4) ⊎ (size ≡ 8) }
        ensures value { result ≡ loaded (memory self.now) address size };

    /// Writes the lowest `size` bytes of a number, or none of them where one is not writable.
    fn store(&mut self, address: u64, size: u32, value: u64) -> Result<(), AccessFault>
        requires { (size ≡ 1) ⊎ (size ≡ 2) ⊎ (size ≡ 4) ⊎ (size ≡ 8) }
        ensures done { OnOk result (stored (memory self.old) address size value ≡ Ok (memory self.new)) }
        ensures refused { IfErr result (λ fault. stored (memory self.old) address size value ≡ Err fault) }
        ensures unchanged { OnErr result (memory self.new ≡ memory self.old) }
        ensures past { past self.new ≡ past self.old };
}
