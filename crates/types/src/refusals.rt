// Why a call is refused: document 01, 'Numbers', 1 to 15, and document 02, R-4, 16, R-6, 17.
ghost use Rattle.std.specs.Prelude.{◌≡◌};
ghost use Rattle.types.specs.Refusals as spec;
ghost use Rattle.types.specs.Answers.{without_offset};

use crate::code::Undecoded;

// By the papers' words.
#[derive(Clone, Copy)]
pub enum Refusal {
    Length = 1,
    Base,
    Reset,
    Mark,
    Code,
    CutOff,
    Overlap,
    Flow,
    Widths,
    Return,
    Ram,
    State,
    Steps,
    List,
    Page,
    Addresses,
    Routines,
}

// The papers' number of a refusal.
impl From<Refusal> for u8 {
    ghost from_gives = { λ why number. number ≡ spec.refusal_number why };

    fn from(why: Refusal) -> u8 {
        why as u8
    }
}

// Why a start is refused where no instruction is read.
impl From<Undecoded> for Refusal {
    ghost from_gives = { λ undecoded why. why ≡ spec.undecoded_refusal undecoded };

    fn from(undecoded: Undecoded) -> Refusal {
        match undecoded {
            Undecoded::NotCarried => Refusal::Code,
            Undecoded::CutOff => Refusal::CutOff,
        }
    }
}

// A refusal, and the offset that it is about: the instruction whose rule is broken, or 0.
#[derive(Clone, Copy)]
pub struct Refused {
    pub why: Refusal,
    pub offset: u32,
}

// A refusal that is about no instruction.
impl From<Refusal> for Refused {
    ghost from_gives = { λ why refused. refused ≡ without_offset why };

    fn from(why: Refusal) -> Refused {
        Refused { why, offset: 0 }
    }
}
