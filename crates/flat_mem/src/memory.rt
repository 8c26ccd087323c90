// The memory with its public calls: where its bytes stand, and a table of words of its code that are decoded.

ghost use Rattle.std.specs.Prelude.{◌≡◌, ◌+◌, true, length, Some, IfSome, is_some, if◌then◌else◌};
ghost use Rattle.rv_isa.specs.Encoded.{NamesRegisters};
ghost use Rattle.machine_spec.specs.Memory.{byte_of, range_at};
ghost use Rattle.flat_spec.specs.Stores.{allows_store, bytes_from, can_store, fetched, loaded, put_byte, put_bytes};
ghost use Rattle.flat_spec.specs.Stores.{stored};
ghost use Rattle.flat_mem.specs.Calls.{Stores};
ghost use Rattle.flat_mem.specs.Decoded.{instr_at, IsKnown, IsTable};

use crate::decoding::{Known, is_fixed, look_up, place_of};
use crate::storage::Storage;
use rv_isa::{Instr, Width, decode};
use std::marker::Model;

/// The memory of the flat machine, which contracts see as its ranges with their bytes, in the order of
/// the file's segments and with the stack last. Addresses don't wrap: an access that passes the last
/// address fails. No call takes memory of the host.
#[derive(Debug, Drop)]
pub struct FlatMem {
    storage: Storage,
    table: Vec<Known>,
}

impl Model for FlatMem {
    ghost use Rattle.std.specs.Prelude.{List};
    ghost use Rattle.machine_spec.specs.Memory.{Range};
    ghost use Rattle.flat_mem.specs.Decoded.{IsTable};

    ghost Value = { List Range };

    ghost view = { λ m. m.storage };

    ghost invariant = { λ m. IsTable m.storage m.table.items };
}

impl FlatMem {
    /// Memory with a table of words of its code.
    pub(crate) fn with_table(storage: Storage, table: Vec<Known>) -> FlatMem
        requires { IsTable storage table.items }
        ensures { result ≡ storage }
    {
        FlatMem { storage, table }
    }

    /// The byte at an address; none exactly outside memory.
    pub fn get(&self, addr: u32) -> Option<u8>
        ensures { result ≡ byte_of self.now addr }
    {
        self.storage.get(addr)
    }

    /// Stores a byte. False exactly where the address is outside memory or in a range that can't be
    /// stored to; then nothing changes.
    pub fn set(&mut self, addr: u32, byte: u8) -> bool
        ensures answer { result ≡ allows_store (range_at self.old addr) }
        ensures memory { self.new ≡ (if result then put_byte self.old addr byte else self.old) }
    {
        self.storage.set(addr, byte)
    }

    /// The word of code at an address, lowest byte first; none exactly where the address is no multiple
    /// of four or one of the four bytes isn't in a range that may be run.
    pub fn fetch(&self, addr: u32) -> Option<u32>
        ensures { result ≡ fetched self.now addr }
    {
        self.storage.fetch(addr)
    }

    /// The instruction that the word of code at an address is; none exactly where `fetch` or `decode` gives
    /// none. It is kept where no byte of the word can be stored to, and found again by the address.
    #[inline(always)]
    pub fn instruction(&mut self, addr: u32) -> Option<Instr>
        ensures is { result ≡ instr_at self.old addr }
        ensures registers { IfSome result NamesRegisters }
        ensures memory { self.new ≡ self.old }
    {
        let known = look_up(&self.table, addr);
        if known.addr == addr {
            known.instr
        } else {
            self.decode_anew(addr)
        }
    }

    /// The instruction at an address, which is kept where the word can't change.
    #[inline(never)]
    fn decode_anew(&mut self, addr: u32) -> Option<Instr>
        ensures is { result ≡ instr_at self.old addr }
        ensures registers { IfSome result NamesRegisters }
        ensures memory { self.new ≡ self.old }
    {
        let instr = self.decode_at(addr);
        if is_fixed(&self.storage, addr) {
            self.keep(Known { addr, instr });
        }
        instr
    }

    /// What the word of code at an address is decoded to.
    fn decode_at(&self, addr: u32) -> Option<Instr>
        ensures is { result ≡ instr_at self.now addr }
        ensures registers { IfSome result NamesRegisters }
    {
        decode(self.fetch(addr)?)
    }

    /// Keeps what a word is in the place of its address.
    fn keep(&mut self, known: Known)
        requires { IsKnown self.old known }
        ensures { self.new ≡ self.old }
    {
        self.table[place_of(known.addr)] = known;
    }

    /// What a load of this width makes of the bytes at an address; none exactly where the address is no
    /// multiple of the width or one of the bytes is outside memory.
    #[inline(always)]
    pub fn load_number(&self, width: Width, addr: u32) -> Option<u32>
        ensures { result ≡ loaded self.now width addr }
    {
        self.storage.load_number(width, addr)
    }

    /// Stores the lowest bytes of a value. False exactly where the address is no multiple of the width
    /// or one of the bytes can't be stored to; then nothing changes.
    #[inline(always)]
    pub fn store_number(&mut self, width: Width, addr: u32, value: u32) -> bool
        ensures { Stores result (stored self.old width addr value) self.old self.new }
    {
        self.storage.store_number(width, addr, value)
    }

    /// Whether each of `len` addresses from one on can be stored to.
    pub fn can_store(&self, addr: u32, len: u32) -> bool
        ensures { result ≡ can_store self.now addr len }
    {
        self.storage.can_store(addr, len)
    }

    /// Whether each of `len` addresses from one on is in memory.
    pub fn holds(&self, addr: u32, len: u32) -> bool
        ensures { result ≡ is_some (bytes_from self.now addr len) }
    {
        self.storage.holds(addr, len)
    }

    /// Copies the bytes from byte `from` of a buffer at an address on, as many as `into` has.
    pub fn copy_to(&self, addr: u32, from: u32, into: &mut [u8])
        requires { is_some (bytes_from self.now (addr + from) (length into.old)) ≡ true }
        ensures { bytes_from self.now (addr + from) (length into.old) ≡ Some into.new }
    {
        self.storage.copy_to(addr, from, into);
    }

    /// Stores bytes from byte `from` of a buffer at an address on.
    pub fn put(&mut self, addr: u32, from: u32, bytes: &[u8])
        requires { can_store self.old (addr + from) (length bytes.now) ≡ true }
        ensures { self.new ≡ put_bytes self.old (addr + from) bytes.now }
    {
        self.storage.put(addr, from, bytes);
    }
}
