// Bytes to be stored: whether all of them can be, and RAM with them.
ghost use Rattle.std.specs.Prelude.{◌≡◌, set};
ghost use Rattle.semantics.specs.Memory.{memory, served_at, served, stored};
ghost use Rattle.memory.specs.Listed.{listed};

use crate::reads::Mapped;
use types::machine::{Stop, Store};

// What a step stores, in its order: by value, for the library has no heap.
#[derive(Clone, Copy)]
pub enum Stores {
    None,
    One(Store),
    Two(Store, Store),
    Three(Store, Store, Store),
}

impl Mapped<'_> {
    // Whether a byte can be stored at an address: in RAM alone.
    #[tactic(auto, using(semantics::proofs::Memory::served_in_ram, semantics::proofs::Memory::served_under_image, semantics::proofs::Memory::served_in_image, semantics::proofs::Memory::served_past_image))]
    fn served_at(&self, address: u64) -> Result<(), Stop>
        ensures { result ≡ served_at (memory self.now.ram.now self.now.image.now self.now.base) address }
    {
        if address < self.ram.len() as u64 {
            return Ok(());
        }
        let from = self.base as u64;
        if address < from {
            return Err(Stop::Unmapped);
        }
        let at = (address - from) as usize;
        if at < self.image.len() {
            return Err(Stop::ImageStore);
        }
        Err(Stop::Unmapped)
    }

    // Whether all stores can be served; the first that can't decides.
    pub fn served_all(&self, stores: Stores) -> Result<(), Stop>
        ensures { result ≡ served (memory self.now.ram.now self.now.image.now self.now.base) (listed stores) }
    {
        match stores {
            Stores::None => Ok(()),
            Stores::One(a) => self.served_at(a.address),
            Stores::Two(a, b) => {
                self.served_at(a.address)?;
                self.served_at(b.address)
            }
            Stores::Three(a, b, c) => {
                self.served_at(a.address)?;
                self.served_at(b.address)?;
                self.served_at(c.address)
            }
        }
    }
}

// One byte put into RAM, if it is one of RAM's.
#[tactic(auto, using(semantics::proofs::Memory::set_past))]
fn put(ram: &mut [u8], store: Store)
    ensures { ram.new ≡ set ram.old store.address store.byte }
{
    if store.address < ram.len() as u64 {
        ram[store.address as usize] = store.byte;
    }
}

// RAM with all bytes stored.
pub fn write(ram: &mut [u8], stores: Stores)
    ensures { ram.new ≡ stored (listed stores) ram.old }
{
    match stores {
        Stores::None => {}
        Stores::One(a) => put(ram, a),
        Stores::Two(a, b) => {
            put(ram, a);
            put(ram, b);
        }
        Stores::Three(a, b, c) => {
            put(ram, a);
            put(ram, b);
            put(ram, c);
        }
    }
}
