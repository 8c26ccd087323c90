// Where memory stands: pages of 4096 bytes, with the flags of what may be done beside each byte, and a directory
// of the pages by address.

ghost use Rattle.std.specs.Prelude.{◌≡◌, ◌+◌, ◌%◌, true, length, Some, is_some, if◌then◌else◌};
ghost use Rattle.machine_spec.specs.Memory.{all_from, byte_of, range_at};
ghost use Rattle.machine_spec.specs.Widths.{size_of};
ghost use Rattle.flat_spec.specs.Stores.{allows_store, bytes_from, can_store, fetched, loaded, put_byte, put_bytes};
ghost use Rattle.flat_spec.specs.Stores.{stored};
ghost use Rattle.flat_mem.specs.Areas.{allows, byte_in, ranges, IsPaged};
ghost use Rattle.flat_mem.specs.Calls.{Stores};

use crate::area::{Access, Area, flags};
use crate::directory::place_in;
use crate::pieces::{copy_in, put_in};
use crate::words::{loaded_as, number_at, size_of, width_at, write_number};
use flat_spec::{bytes_are_read_where_they_stand, ranges_say_what_may_be_accessed};
use machine_spec::all_addresses_pass_where_each_does;
use rv_isa::Width;
use std::marker::Model;

/// The bytes of memory, which contracts see as its ranges with their bytes, in the order of the file's segments and
/// with the stack last.
#[derive(Debug, Drop)]
pub struct Storage {
    areas: Vec<Area>,
    directory: Vec<u32>,
    bytes: Vec<u8>,
    rights: Vec<u8>,
}

impl Model for Storage {
    ghost use Rattle.std.specs.Prelude.{List};
    ghost use Rattle.machine_spec.specs.Memory.{Range};

    ghost Value = { List Range };

    ghost use Rattle.flat_mem.specs.Areas.{byte_in, ranges, IsPaged};

    ghost view = { λ m. ranges (byte_in m.directory.items m.bytes.items) m.areas.items };

    ghost invariant = { λ m. IsPaged m.areas.items m.directory.items m.bytes.items m.rights.items };
}

impl Storage {
    /// Memory whose areas stand in pages.
    pub(crate) fn new(
        areas: Vec<Area>,
        directory: Vec<u32>,
        bytes: Vec<u8>,
        rights: Vec<u8>,
    ) -> Storage
        requires { IsPaged areas.items directory.items bytes.items rights.items }
        ensures { result ≡ ranges (byte_in directory.items bytes.items) areas.items }
    {
        Storage {
            areas,
            directory,
            bytes,
            rights,
        }
    }

    /// Whether each byte of a number at an aligned address allows an access.
    #[inline(always)]
    fn allows(&self, access: Access, width: Width, addr: u32) -> bool
        requires { addr % size_of width ≡ 0 }
        ensures { result ≡ all_from (λ k. allows access (range_at self.now k)) addr (size_of width) }
    {
        let wanted = flags(access, width);
        number_at(&self.rights, place_in(&self.directory, addr), width) & wanted == wanted
    }

    /// Whether each of `len` addresses from one on allows an access.
    fn allows_all(&self, access: Access, addr: u32, len: u32) -> bool
        ensures { result ≡ all_from (λ k. allows access (range_at self.now k)) addr len }
    {
        // No address behind the directory is in memory.
        let _ = &self.directory;
        let mut done = 0;
        while done < len {
            let Some(at) = addr.checked_add(done) else {
                return false;
            };
            let width = width_at(at, len - done);
            if !self.allows(access, width, at) {
                return false;
            }
            done += size_of(width);
        }
        true
    }

    /// The byte at an address; none exactly outside memory.
    pub fn get(&self, addr: u32) -> Option<u8>
        ensures { result ≡ byte_of self.now addr }
    {
        ranges_say_what_may_be_accessed();
        if !self.allows(Access::Load, Width::Byte, addr) {
            return None;
        }
        Some(self.bytes[place_in(&self.directory, addr)])
    }

    /// Stores a byte. False exactly where the address is outside memory or in a range that can't be
    /// stored to; then nothing changes.
    pub fn set(&mut self, addr: u32, byte: u8) -> bool
        ensures answer { result ≡ allows_store (range_at self.old addr) }
        ensures memory { self.new ≡ (if result then put_byte self.old addr byte else self.old) }
    {
        if !self.allows(Access::Store, Width::Byte, addr) {
            return false;
        }
        put_in(&self.directory, &mut self.bytes, addr, &[byte]);
        true
    }

    /// The word of code at an address, lowest byte first; none exactly where the address is no multiple
    /// of four or one of the four bytes isn't in a range that may be run.
    pub fn fetch(&self, addr: u32) -> Option<u32>
        ensures { result ≡ fetched self.now addr }
    {
        if addr % 4 != 0 {
            return None;
        }
        if !self.allows(Access::Fetch, Width::Word, addr) {
            return None;
        }
        let place = place_in(&self.directory, addr);
        Some(number_at(&self.bytes, place, Width::Word))
    }

    /// What a load of this width makes of the bytes at an address; none exactly where the address is no
    /// multiple of the width or one of the bytes is outside memory.
    #[inline(always)]
    pub fn load_number(&self, width: Width, addr: u32) -> Option<u32>
        ensures { result ≡ loaded self.now width addr }
    {
        ranges_say_what_may_be_accessed();
        if addr % size_of(width) != 0 {
            return None;
        }
        if !self.allows(Access::Load, width, addr) {
            return None;
        }
        let number = number_at(&self.bytes, place_in(&self.directory, addr), width);
        Some(loaded_as(width, number))
    }

    /// Stores the lowest bytes of a value. False exactly where the address is no multiple of the width
    /// or one of the bytes can't be stored to; then nothing changes.
    #[inline(always)]
    pub fn store_number(&mut self, width: Width, addr: u32, value: u32) -> bool
        ensures { Stores result (stored self.old width addr value) self.old self.new }
    {
        if addr % size_of(width) != 0 {
            return false;
        }
        if !self.allows(Access::Store, width, addr) {
            return false;
        }
        let place = place_in(&self.directory, addr);
        write_number(&mut self.bytes, place, width, value);
        true
    }

    /// Whether each of `len` addresses from one on can be stored to.
    pub fn can_store(&self, addr: u32, len: u32) -> bool
        ensures { result ≡ can_store self.now addr len }
    {
        self.allows_all(Access::Store, addr, len)
    }

    /// Whether each of `len` addresses from one on is in memory.
    pub fn holds(&self, addr: u32, len: u32) -> bool
        ensures { result ≡ is_some (bytes_from self.now addr len) }
    {
        ranges_say_what_may_be_accessed();
        self.allows_all(Access::Load, addr, len)
    }

    /// Copies the bytes from byte `from` of a buffer at an address on, as many as `into` has.
    pub fn copy_to(&self, addr: u32, from: u32, into: &mut [u8])
        requires { is_some (bytes_from self.now (addr + from) (length into.old)) ≡ true }
        ensures { bytes_from self.now (addr + from) (length into.old) ≡ Some into.new }
    {
        ranges_say_what_may_be_accessed();
        if into.is_empty() {
            return;
        }
        copy_in(&self.directory, &self.bytes, addr + from, into);
    }

    /// Stores bytes from byte `from` of a buffer at an address on.
    pub fn put(&mut self, addr: u32, from: u32, bytes: &[u8])
        requires { can_store self.old (addr + from) (length bytes.now) ≡ true }
        ensures { self.new ≡ put_bytes self.old (addr + from) bytes.now }
    {
        if bytes.is_empty() {
            return;
        }
        put_in(&self.directory, &mut self.bytes, addr + from, bytes);
    }
}
