// An entry out of the number that keeps it: each field is a number, and stands for the value at that place of its list.
#![tactic(auto)]

pub mod operations;

ghost use Rattle.std.specs.Prelude.{◌≡◌, ◌/◌, ◌%◌, ◌≤◌, eqb, get_or};
ghost use Rattle.types.specs.declared.code.Accumulator.{Accumulator};
ghost use Rattle.types.specs.declared.code.DataWidth.{DataWidth};
ghost use Rattle.types.specs.declared.code.Flow.{Flow};
ghost use Rattle.types.specs.declared.code.LengthRule.{LengthRule};
ghost use Rattle.types.specs.declared.code.Mode.{Mode};
ghost use Rattle.types.specs.declared.code.Target.{Target};
ghost use Rattle.types.specs.declared.code.WidthEffect.{WidthEffect};
ghost use Rattle.codepages.specs.Packing.{
  modes,
  accumulators,
  flows,
  targets,
  effects,
  rules,
  widths,
  unpacked,
};

use crate::operations::operation_of;
use types::code::{
    Accumulator, DataWidth, Entry, Flow, Kind, LengthRule, Mode, Target, WidthEffect,
};

// The mode of a number, in the order of the definition's list; any other number gives the first, here and below. These
// are no From: the number is a field of a packed entry, and no other form of the value.
fn mode_at(n: u32) -> Mode
    ensures { result ≡ get_or modes n Mode.Implied }
{
    match n {
        1 => Mode::Immediate,
        2 => Mode::Accumulator,
        3 => Mode::Direct,
        4 => Mode::DirectBit,
        5 => Mode::DirectIndexedX,
        6 => Mode::DirectIndexedY,
        7 => Mode::DirectIndirect,
        8 => Mode::DirectIndexedXIndirect,
        9 => Mode::DirectIndirectIndexedY,
        10 => Mode::DirectIndirectLong,
        11 => Mode::DirectIndirectLongIndexedY,
        12 => Mode::Absolute,
        13 => Mode::AbsoluteBit,
        14 => Mode::AbsoluteIndexedX,
        15 => Mode::AbsoluteIndexedY,
        16 => Mode::AbsoluteLong,
        17 => Mode::AbsoluteLongIndexedX,
        18 => Mode::AbsoluteIndirect,
        19 => Mode::AbsoluteIndirectLong,
        20 => Mode::AbsoluteIndexedXIndirect,
        21 => Mode::Stack,
        22 => Mode::Relative,
        23 => Mode::DirectBitRelative,
        24 => Mode::AbsoluteBitRelative,
        25 => Mode::StackPointerRelative,
        26 => Mode::StackPointerRelativeIndirectIndexedY,
        27 => Mode::BlockTransfer,
        _ => Mode::Implied,
    }
}

// The accumulator of a number.
fn accumulator_at(n: u32) -> Accumulator
    ensures { result ≡ get_or accumulators n Accumulator.Unnamed }
{
    match n {
        1 => Accumulator::A,
        2 => Accumulator::B,
        _ => Accumulator::Unnamed,
    }
}

// The flow of a number.
fn flow_at(n: u32) -> Flow
    ensures { result ≡ get_or flows n Flow.Next }
{
    match n {
        1 => Flow::Branch,
        2 => Flow::Jump,
        3 => Flow::Call(Kind::ByRts),
        4 => Flow::Call(Kind::ByRtl),
        5 => Flow::Return(Kind::ByRts),
        6 => Flow::Return(Kind::ByRtl),
        7 => Flow::Halt,
        _ => Flow::Next,
    }
}

// The target's form of a number.
fn target_at(n: u32) -> Target
    ensures { result ≡ get_or targets n Target.NoTarget }
{
    match n {
        1 => Target::Offset8,
        2 => Target::Offset16,
        3 => Target::Address16,
        4 => Target::Address24,
        _ => Target::NoTarget,
    }
}

// The width effect of a number.
fn effect_at(n: u32) -> WidthEffect
    ensures { result ≡ get_or effects n WidthEffect.KeepWidths }
{
    match n {
        1 => WidthEffect::SetM,
        2 => WidthEffect::ClearM,
        3 => WidthEffect::SetBits,
        4 => WidthEffect::ClearBits,
        _ => WidthEffect::KeepWidths,
    }
}

// The length rule of a number.
fn rule_at(n: u32) -> LengthRule
    ensures { result ≡ get_or rules n LengthRule.Fixed }
{
    match n {
        1 => LengthRule::MoreByM,
        2 => LengthRule::MoreByX,
        _ => LengthRule::Fixed,
    }
}

// The data's width of a number.
fn width_at(n: u32) -> DataWidth
    ensures { result ≡ get_or widths n DataWidth.NoData }
{
    match n {
        1 => DataWidth::ByM,
        2 => DataWidth::ByX,
        3 => DataWidth::Byte,
        4 => DataWidth::Word,
        _ => DataWidth::NoData,
    }
}

// Single fields of the entry that a number keeps, for those who need not have all of it.
#[tactic(auto, unfolding(codepages::specs::Packing::unpacked))]
pub fn mode_of(n: u32) -> Mode
    ensures { result ≡ (unpacked n).mode }
{
    mode_at(n / 128 % 32)
}

// The accumulator that the syntax names.
#[tactic(auto, unfolding(codepages::specs::Packing::unpacked))]
pub fn accumulator_of(n: u32) -> Accumulator
    ensures { result ≡ (unpacked n).accumulator }
{
    accumulator_at(n / 4_096 % 4)
}

// Whether the code is carried.
#[tactic(auto, unfolding(codepages::specs::Packing::unpacked))]
pub fn is_carried(n: u32) -> bool
    ensures { result ≡ (unpacked n).carried }
{
    n / 16_384 % 2 == 1
}

// Where control goes from the instruction.
#[tactic(auto, unfolding(codepages::specs::Packing::unpacked))]
pub fn flow_of(n: u32) -> Flow
    ensures { result ≡ (unpacked n).flow }
{
    flow_at(n / 32_768 % 8)
}

// How the operand names the target.
#[tactic(auto, unfolding(codepages::specs::Packing::unpacked))]
pub fn target_form_of(n: u32) -> Target
    ensures { result ≡ (unpacked n).target }
{
    target_at(n / 262_144 % 8)
}

// What the instruction does to m and x.
#[tactic(auto, unfolding(codepages::specs::Packing::unpacked))]
pub fn effect_of(n: u32) -> WidthEffect
    ensures { result ≡ (unpacked n).effect }
{
    effect_at(n / 2_097_152 % 8)
}

// The widths are kept: the first of the effects, told without a match.
pub fn keeps_widths(n: u32) -> bool
    ensures { result ≡ eqb (n / 2_097_152 % 8) 0 }
{
    n / 2_097_152 % 8 == 0
}

// The bytes at m=1 and x=1.
#[tactic(auto, unfolding(codepages::specs::Packing::unpacked))]
pub fn bytes_of(n: u32) -> u8
    ensures { (result ≡ (unpacked n).bytes) × (result ≤ 7) }
{
    (n / 16_777_216 % 8) as u8
}

// Which width adds a byte.
#[tactic(auto, unfolding(codepages::specs::Packing::unpacked))]
pub fn rule_of(n: u32) -> LengthRule
    ensures { result ≡ (unpacked n).rule }
{
    rule_at(n / 134_217_728 % 4)
}

// Which width the data has.
#[tactic(auto, unfolding(codepages::specs::Packing::unpacked))]
pub fn width_of(n: u32) -> DataWidth
    ensures { result ≡ (unpacked n).width }
{
    width_at(n / 536_870_912)
}

// The entry that a number keeps.
pub fn unpack(n: u32) -> Entry
    ensures { result ≡ unpacked n }
{
    Entry {
        operation: operation_of(n),
        mode: mode_of(n),
        accumulator: accumulator_of(n),
        carried: is_carried(n),
        flow: flow_of(n),
        target: target_form_of(n),
        effect: effect_of(n),
        bytes: bytes_of(n),
        rule: rule_of(n),
        width: width_of(n),
    }
}
