// What is read at a place, and what an instruction there leads to.
ghost use Rattle.std.specs.Prelude.{◌≡◌, ◌+◌, ◌<◌, IfOk};
ghost use Rattle.acceptance.specs.Rules as rules;
ghost use Rattle.instructions.specs.Successors as successors;
ghost use Rattle.places.specs.Placed.{instruction_in, decoded};

use crate::place::{InstructionAt, Place};
use decoder::{layout_at, operand_at};
use entries::target_form_of;
use image::marks::{mark_m, mark_x};
use successors::{next_address, target_of};
use types::addresses::Address;
use types::code::Undecoded;

impl<'a> Place<'a> {
    // The instruction that is read at the place, at the widths of its mark.
    #[tactic(auto, using(decoder::proofs::Layouts::fits_at, decoder::proofs::Layouts::decoded_layout))]
    pub fn instruction(&self) -> Result<InstructionAt<'a>, Undecoded>
        ensures read { decoded result
            ≡ rules.instruction_at self.now.image.now self.now.marks.bytes.now self.now.at }
        ensures here { IfOk result (λ i. i.place ≡ self.now) }
    {
        let mark = self.mark();
        let layout = layout_at(self.image, self.at, mark_m(mark), mark_x(mark))?;
        Ok(InstructionAt {
            place: *self,
            layout,
        })
    }
}

impl InstructionAt<'_> {
    // Its operand: the bytes behind the code as one number.
    pub fn operand(&self) -> u64
        ensures { (result ≡ (instruction_in self.now).operand) × (result < 1_099_511_627_776) }
    {
        operand_at(self.place.image, self.place.at, self.layout)
    }

    // The address after it.
    pub fn next(&self) -> Address
        ensures { result ≡ successors.next_address (self.now.place.marks.base + self.now.place.at)
            self.now.layout.length }
    {
        next_address(self.place.address(), self.layout.length)
    }

    // Where it goes by its target.
    pub fn target(&self) -> Address
        ensures { result ≡ successors.target_address (instruction_in self.now)
            (self.now.place.marks.base + self.now.place.at) }
    {
        target_of(
            target_form_of(self.layout.number),
            self.place.address(),
            self.layout.length,
            self.operand(),
        )
    }
}
