// Bytes of memory, and numbers made of them.
ghost use Rattle.std.specs.Prelude.{◌≡◌, ◌<◌, IfSome};
ghost use Rattle.semantics.specs.Memory.{byte_at, memory, evaluate, word_from, long_from, data_from};
ghost use Rattle.types.specs.Addresses.{address_limit};
ghost use Rattle.memory.specs.Reads.{read_of};

use fields::{long_of, word_of};

// What a step may read: RAM from address 000000, and an image from its base on.
#[derive(Clone, Copy)]
pub struct Mapped<'a> {
    pub ram: &'a [u8],
    pub image: &'a [u8],
    pub base: u32,
}

impl Mapped<'_> {
    // The byte at an address.
    #[tactic(auto, using(semantics::proofs::Memory::byte_in_ram, semantics::proofs::Memory::byte_under_image))]
    fn byte_at(&self, address: u64) -> Option<u8>
        ensures { result ≡ byte_at (memory self.now.ram.now self.now.image.now self.now.base) address }
    {
        if address < self.ram.len() as u64 {
            return Some(self.ram[address as usize]);
        }
        let from = self.base as u64;
        if address < from {
            return None;
        }
        self.image.get((address - from) as usize).copied()
    }

    // The word whose bytes lie at two addresses.
    pub fn word_from(&self, at: u64, then: u64) -> Option<u16>
        ensures { result ≡ read_of (evaluate (memory self.now.ram.now self.now.image.now self.now.base)
            (word_from at then)) }
    {
        let low = self.byte_at(at)?;
        let high = self.byte_at(then)?;
        Some(word_of(low, high))
    }

    // The number whose three bytes lie at three addresses.
    pub fn long_from(&self, at: u64, then: u64, last: u64) -> Option<u32>
        ensures value { result ≡ read_of (evaluate (memory self.now.ram.now self.now.image.now self.now.base)
            (long_from at then last)) }
        ensures bounded { IfSome result (λ v. v < address_limit) }
    {
        let low = self.byte_at(at)?;
        let high = self.byte_at(then)?;
        let bank = self.byte_at(last)?;
        Some(long_of(low, high, bank))
    }

    // Data of one byte, or of two bytes, at their addresses.
    pub fn data_from(&self, short: bool, at: u64, then: u64) -> Option<u16>
        ensures { result ≡ read_of (evaluate (memory self.now.ram.now self.now.image.now self.now.base)
            (data_from short at then)) }
    {
        if !short {
            return self.word_from(at, then);
        }
        self.byte_at(at).map(u16::from)
    }
}
