#![tactic(auto)]

ghost use Rattle.std.specs.Prelude.{◌≡◌, ◌<◌};
ghost use Rattle.codepages.specs.Packing.{packed_pages, packed_at};

// The three code pages as numbers: each entry's fields side by side in 32 bits, so that a decoder loads one number. A
// constant adds up what an operation, a mode or an accumulator puts into an entry; specs/Packing.antt says where each
// field stands.

// One step of each field.
const MODE: u32 = 128;

const ACCUMULATOR: u32 = 4_096;

const CARRIED: u32 = 16_384;

const FLOW: u32 = 32_768;

const TARGET: u32 = 262_144;

const EFFECT: u32 = 2_097_152;

const BYTES: u32 = 16_777_216;

const RULE: u32 = 134_217_728;

const WIDTH: u32 = 536_870_912;

// What the fields say.
const NONE: u32 = 0;

const CODE: u32 = BYTES;

const OPERAND: u32 = BYTES;

const PREFIX: u32 = BYTES;

const A: u32 = ACCUMULATOR;

const B: u32 = 2 * ACCUMULATOR + PREFIX;

const BRANCH: u32 = FLOW;

const JUMP: u32 = 2 * FLOW;

const CALL: u32 = 3 * FLOW;

const LONG_CALL: u32 = FLOW;

const RETURN: u32 = 5 * FLOW;

const RETURN_LONG: u32 = 6 * FLOW;

const HALT: u32 = 7 * FLOW;

const OFFSET: u32 = TARGET;

const FAR: u32 = TARGET + OPERAND;

const SETS_M: u32 = EFFECT;

const CLEARS_M: u32 = 2 * EFFECT;

const SETS_BITS: u32 = 3 * EFFECT;

const CLEARS_BITS: u32 = 4 * EFFECT;

const MORE_BY_M: u32 = RULE;

const MORE_BY_X: u32 = 2 * RULE;

const BY_M: u32 = WIDTH;

const BY_X: u32 = 2 * WIDTH;

const ONE_BYTE: u32 = 3 * WIDTH;

const TWO_BYTES: u32 = 4 * WIDTH;

// Addressing modes.
const IMP: u32 = 0;

const IMM: u32 = MODE + OPERAND;

const ACC: u32 = 2 * MODE;

const DIR: u32 = 3 * MODE + OPERAND;

const DIR_B: u32 = 4 * MODE + 2 * OPERAND + MORE_BY_M;

const DIR_X: u32 = 5 * MODE + OPERAND;

const DIR_Y: u32 = 6 * MODE + OPERAND;

const IND_DIR: u32 = 7 * MODE + OPERAND;

const IND_DIR_X: u32 = 8 * MODE + OPERAND;

const IND_DIR_Y: u32 = 9 * MODE + OPERAND;

const LONG_DIR: u32 = 10 * MODE + OPERAND;

const LONG_DIR_Y: u32 = 11 * MODE + OPERAND;

const ABS: u32 = 12 * MODE + 2 * OPERAND;

const ABS_B: u32 = 13 * MODE + 3 * OPERAND + MORE_BY_M;

const ABS_X: u32 = 14 * MODE + 2 * OPERAND;

const ABS_Y: u32 = 15 * MODE + 2 * OPERAND;

const ABL: u32 = 16 * MODE + 3 * OPERAND;

const ABL_X: u32 = 17 * MODE + 3 * OPERAND;

const IND_ABS: u32 = 18 * MODE + 2 * OPERAND;

const LONG_ABS: u32 = 19 * MODE + 2 * OPERAND;

const IND_ABS_X: u32 = 20 * MODE + 2 * OPERAND;

const STK: u32 = 21 * MODE;

const REL: u32 = 22 * MODE + OPERAND + OFFSET;

const DIR_B_REL: u32 = 23 * MODE + 3 * OPERAND + MORE_BY_M + OFFSET;

const ABS_B_REL: u32 = 24 * MODE + 4 * OPERAND + MORE_BY_M + OFFSET;

const SR: u32 = 25 * MODE + OPERAND;

const IND_SR_Y: u32 = 26 * MODE + OPERAND;

const BLK: u32 = 27 * MODE + 2 * OPERAND;

const IMM_M: u32 = IMM + MORE_BY_M;

const IMM_X: u32 = IMM + MORE_BY_X;

const TO_ABS: u32 = ABS + 3 * TARGET;

const TO_ABL: u32 = ABL + 4 * TARGET;

const BY_MEMORY: u32 = 3 * TARGET;

// Operations.
const ADC: u32 = 1 + CODE + CARRIED + BY_M;

const AND: u32 = 2 + CODE + CARRIED + BY_M;

const ASL: u32 = 3 + CODE + CARRIED + BY_M;

const BBC: u32 = 4 + CODE + CARRIED + BRANCH + BY_M;

const BBS: u32 = 5 + CODE + CARRIED + BRANCH + BY_M;

const BCC: u32 = 6 + CODE + CARRIED + BRANCH;

const BCS: u32 = 7 + CODE + CARRIED + BRANCH;

const BEQ: u32 = 8 + CODE + CARRIED + BRANCH;

const BMI: u32 = 9 + CODE + CARRIED + BRANCH;

const BNE: u32 = 10 + CODE + CARRIED + BRANCH;

const BPL: u32 = 11 + CODE + CARRIED + BRANCH;

const BRA: u32 = 12 + CODE + CARRIED + JUMP;

const BRK: u32 = 13 + CODE + OPERAND;

const BVC: u32 = 14 + CODE + CARRIED + BRANCH;

const BVS: u32 = 15 + CODE + CARRIED + BRANCH;

const CLB: u32 = 16 + CODE + CARRIED + BY_M;

const CLC: u32 = 17 + CODE + CARRIED;

const CLI: u32 = 18 + CODE + CARRIED;

const CLM: u32 = 19 + CODE + CARRIED + CLEARS_M;

const CLP: u32 = 20 + CODE + CARRIED + CLEARS_BITS + ONE_BYTE;

const CLV: u32 = 21 + CODE + CARRIED;

const CMP: u32 = 22 + CODE + CARRIED + BY_M;

const CPX: u32 = 23 + CODE + CARRIED + BY_X;

const CPY: u32 = 24 + CODE + CARRIED + BY_X;

const DEC: u32 = 25 + CODE + CARRIED + BY_M;

const DEX: u32 = 26 + CODE + CARRIED + BY_X;

const DEY: u32 = 27 + CODE + CARRIED + BY_X;

const DIV: u32 = 28 + CODE + BY_M;

const EOR: u32 = 29 + CODE + CARRIED + BY_M;

const INC: u32 = 30 + CODE + CARRIED + BY_M;

const INX: u32 = 31 + CODE + CARRIED + BY_X;

const INY: u32 = 32 + CODE + CARRIED + BY_X;

const JMP: u32 = 33 + CODE + CARRIED + JUMP;

const JSR: u32 = 34 + CODE + CARRIED + CALL;

const LDA: u32 = 35 + CODE + CARRIED + BY_M;

const LDM: u32 = 36 + CODE + CARRIED + BY_M + OPERAND + MORE_BY_M;

const LDT: u32 = 37 + CODE + CARRIED + ONE_BYTE;

const LDX: u32 = 38 + CODE + CARRIED + BY_X;

const LDY: u32 = 39 + CODE + CARRIED + BY_X;

const LSR: u32 = 40 + CODE + CARRIED + BY_M;

const MPY: u32 = 41 + CODE + BY_M;

const MVN: u32 = 42 + CODE + ONE_BYTE;

const MVP: u32 = 43 + CODE + ONE_BYTE;

const NOP: u32 = 44 + CODE + CARRIED;

const ORA: u32 = 45 + CODE + CARRIED + BY_M;

const PEA: u32 = 46 + CODE + CARRIED + TWO_BYTES + 2 * OPERAND;

const PEI: u32 = 47 + CODE + CARRIED + TWO_BYTES + OPERAND;

const PER: u32 = 48 + CODE + CARRIED + TWO_BYTES + 2 * OPERAND;

const PHA: u32 = 49 + CODE + CARRIED + BY_M;

const PHB: u32 = 50 + CODE + CARRIED + BY_M;

const PHD: u32 = 51 + CODE + CARRIED + TWO_BYTES;

const PHG: u32 = 52 + CODE + CARRIED + ONE_BYTE;

const PHP: u32 = 53 + CODE + CARRIED + TWO_BYTES;

const PHT: u32 = 54 + CODE + CARRIED + ONE_BYTE;

const PHX: u32 = 55 + CODE + CARRIED + BY_X;

const PHY: u32 = 56 + CODE + CARRIED + BY_X;

const PLA: u32 = 57 + CODE + CARRIED + BY_M;

const PLB: u32 = 58 + CODE + CARRIED + BY_M;

const PLD: u32 = 59 + CODE + CARRIED + TWO_BYTES;

const PLP: u32 = 60 + CODE + TWO_BYTES;

const PLT: u32 = 61 + CODE + CARRIED + ONE_BYTE;

const PLX: u32 = 62 + CODE + CARRIED + BY_X;

const PLY: u32 = 63 + CODE + CARRIED + BY_X;

const PSH: u32 = 64 + CODE + OPERAND;

const PUL: u32 = 65 + CODE + OPERAND;

const RLA: u32 = 66 + CODE + CARRIED + BY_M;

const ROL: u32 = 67 + CODE + CARRIED + BY_M;

const ROR: u32 = 68 + CODE + CARRIED + BY_M;

const RTI: u32 = 69 + CODE;

const RTL: u32 = 70 + CODE + CARRIED + RETURN_LONG;

const RTS: u32 = 71 + CODE + CARRIED + RETURN;

const SBC: u32 = 72 + CODE + CARRIED + BY_M;

const SEB: u32 = 73 + CODE + CARRIED + BY_M;

const SEC: u32 = 74 + CODE + CARRIED;

const SEI: u32 = 75 + CODE + CARRIED;

const SEM: u32 = 76 + CODE + CARRIED + SETS_M;

const SEP: u32 = 77 + CODE + CARRIED + SETS_BITS + ONE_BYTE;

const STA: u32 = 78 + CODE + CARRIED + BY_M;

const STP: u32 = 79 + CODE + CARRIED + HALT;

const STX: u32 = 80 + CODE + CARRIED + BY_X;

const STY: u32 = 81 + CODE + CARRIED + BY_X;

const TAD: u32 = 82 + CODE + CARRIED + TWO_BYTES;

const TAS: u32 = 83 + CODE + CARRIED + TWO_BYTES;

const TAX: u32 = 84 + CODE + CARRIED + BY_X;

const TAY: u32 = 85 + CODE + CARRIED + BY_X;

const TBD: u32 = 86 + CODE + CARRIED + TWO_BYTES;

const TBS: u32 = 87 + CODE + CARRIED + TWO_BYTES;

const TBX: u32 = 88 + CODE + CARRIED + BY_X;

const TBY: u32 = 89 + CODE + CARRIED + BY_X;

const TDA: u32 = 90 + CODE + CARRIED + BY_M;

const TDB: u32 = 91 + CODE + CARRIED + BY_M;

const TSA: u32 = 92 + CODE + CARRIED + BY_M;

const TSB: u32 = 93 + CODE + CARRIED + BY_M;

const TSX: u32 = 94 + CODE + CARRIED + BY_X;

const TXA: u32 = 95 + CODE + CARRIED + BY_M;

const TXB: u32 = 96 + CODE + CARRIED + BY_M;

const TXS: u32 = 97 + CODE + CARRIED + TWO_BYTES;

const TXY: u32 = 98 + CODE + CARRIED + BY_X;

const TYA: u32 = 99 + CODE + CARRIED + BY_M;

const TYB: u32 = 100 + CODE + CARRIED + BY_M;

const TYX: u32 = 101 + CODE + CARRIED + BY_X;

const WIT: u32 = 102 + CODE + CARRIED + HALT;

const XAB: u32 = 103 + CODE + CARRIED + BY_M;

const UNCARRIED_JMP: u32 = JMP - CARRIED;

const UNCARRIED_JSR: u32 = JSR - CARRIED;

const NO_CODES: [u32; 16] = [NONE; 16];

const PLAIN: [[u32; 16]; 16] = [
    // 00 to 0F
    [
        BRK + IMP,
        A + ORA + IND_DIR_X,
        NONE,
        A + ORA + SR,
        SEB + DIR_B,
        A + ORA + DIR,
        ASL + DIR,
        A + ORA + LONG_DIR,
        PHP + STK,
        A + ORA + IMM_M,
        A + ASL + ACC,
        PHD + STK,
        SEB + ABS_B,
        A + ORA + ABS,
        ASL + ABS,
        A + ORA + ABL,
    ],
    // 10 to 1F
    [
        BPL + REL,
        A + ORA + IND_DIR_Y,
        A + ORA + IND_DIR,
        A + ORA + IND_SR_Y,
        CLB + DIR_B,
        A + ORA + DIR_X,
        ASL + DIR_X,
        A + ORA + LONG_DIR_Y,
        CLC + IMP,
        A + ORA + ABS_Y,
        A + DEC + ACC,
        TAS + IMP,
        CLB + ABS_B,
        A + ORA + ABS_X,
        ASL + ABS_X,
        A + ORA + ABL_X,
    ],
    // 20 to 2F
    [
        JSR + TO_ABS,
        A + AND + IND_DIR_X,
        JSR + TO_ABL + LONG_CALL,
        A + AND + SR,
        BBS + DIR_B_REL,
        A + AND + DIR,
        ROL + DIR,
        A + AND + LONG_DIR,
        PLP + STK,
        A + AND + IMM_M,
        A + ROL + ACC,
        PLD + STK,
        BBS + ABS_B_REL,
        A + AND + ABS,
        ROL + ABS,
        A + AND + ABL,
    ],
    // 30 to 3F
    [
        BMI + REL,
        A + AND + IND_DIR_Y,
        A + AND + IND_DIR,
        A + AND + IND_SR_Y,
        BBC + DIR_B_REL,
        A + AND + DIR_X,
        ROL + DIR_X,
        A + AND + LONG_DIR_Y,
        SEC + IMP,
        A + AND + ABS_Y,
        A + INC + ACC,
        TSA + IMP,
        BBC + ABS_B_REL,
        A + AND + ABS_X,
        ROL + ABS_X,
        A + AND + ABL_X,
    ],
    // 40 to 4F
    [
        RTI + IMP,
        A + EOR + IND_DIR_X,
        NONE,
        A + EOR + SR,
        MVP + BLK,
        A + EOR + DIR,
        LSR + DIR,
        A + EOR + LONG_DIR,
        PHA + STK,
        A + EOR + IMM_M,
        A + LSR + ACC,
        PHG + STK,
        JMP + TO_ABS,
        A + EOR + ABS,
        LSR + ABS,
        A + EOR + ABL,
    ],
    // 50 to 5F
    [
        BVC + REL,
        A + EOR + IND_DIR_Y,
        A + EOR + IND_DIR,
        A + EOR + IND_SR_Y,
        MVN + BLK,
        A + EOR + DIR_X,
        LSR + DIR_X,
        A + EOR + LONG_DIR_Y,
        CLI + IMP,
        A + EOR + ABS_Y,
        PHY + STK,
        TAD + IMP,
        JMP + TO_ABL,
        A + EOR + ABS_X,
        LSR + ABS_X,
        A + EOR + ABL_X,
    ],
    // 60 to 6F
    [
        RTS + IMP,
        A + ADC + IND_DIR_X,
        PER + STK,
        A + ADC + SR,
        LDM + DIR,
        A + ADC + DIR,
        ROR + DIR,
        A + ADC + LONG_DIR,
        PLA + STK,
        A + ADC + IMM_M,
        A + ROR + ACC,
        RTL + IMP,
        UNCARRIED_JMP + IND_ABS + BY_MEMORY,
        A + ADC + ABS,
        ROR + ABS,
        A + ADC + ABL,
    ],
    // 70 to 7F
    [
        BVS + REL,
        A + ADC + IND_DIR_Y,
        A + ADC + IND_DIR,
        A + ADC + IND_SR_Y,
        LDM + DIR_X,
        A + ADC + DIR_X,
        ROR + DIR_X,
        A + ADC + LONG_DIR_Y,
        SEI + IMP,
        A + ADC + ABS_Y,
        PLY + STK,
        TDA + IMP,
        UNCARRIED_JMP + IND_ABS_X + BY_MEMORY,
        A + ADC + ABS_X,
        ROR + ABS_X,
        A + ADC + ABL_X,
    ],
    // 80 to 8F
    [
        BRA + REL,
        A + STA + IND_DIR_X,
        BRA + REL + FAR,
        A + STA + SR,
        STY + DIR,
        A + STA + DIR,
        STX + DIR,
        A + STA + LONG_DIR,
        DEY + IMP,
        NONE,
        TXA + IMP,
        PHT + STK,
        STY + ABS,
        A + STA + ABS,
        STX + ABS,
        A + STA + ABL,
    ],
    // 90 to 9F
    [
        BCC + REL,
        A + STA + IND_DIR_Y,
        A + STA + IND_DIR,
        A + STA + IND_SR_Y,
        STY + DIR_X,
        A + STA + DIR_X,
        STX + DIR_Y,
        A + STA + LONG_DIR_Y,
        TYA + IMP,
        A + STA + ABS_Y,
        TXS + IMP,
        TXY + IMP,
        LDM + ABS,
        A + STA + ABS_X,
        LDM + ABS_X,
        A + STA + ABL_X,
    ],
    // A0 to AF
    [
        LDY + IMM_X,
        A + LDA + IND_DIR_X,
        LDX + IMM_X,
        A + LDA + SR,
        LDY + DIR,
        A + LDA + DIR,
        LDX + DIR,
        A + LDA + LONG_DIR,
        TAY + IMP,
        A + LDA + IMM_M,
        TAX + IMP,
        PLT + STK,
        LDY + ABS,
        A + LDA + ABS,
        LDX + ABS,
        A + LDA + ABL,
    ],
    // B0 to BF
    [
        BCS + REL,
        A + LDA + IND_DIR_Y,
        A + LDA + IND_DIR,
        A + LDA + IND_SR_Y,
        LDY + DIR_X,
        A + LDA + DIR_X,
        LDX + DIR_Y,
        A + LDA + LONG_DIR_Y,
        CLV + IMP,
        A + LDA + ABS_Y,
        TSX + IMP,
        TYX + IMP,
        LDY + ABS_X,
        A + LDA + ABS_X,
        LDX + ABS_Y,
        A + LDA + ABL_X,
    ],
    // C0 to CF
    [
        CPY + IMM_X,
        A + CMP + IND_DIR_X,
        CLP + IMM,
        A + CMP + SR,
        CPY + DIR,
        A + CMP + DIR,
        DEC + DIR,
        A + CMP + LONG_DIR,
        INY + IMP,
        A + CMP + IMM_M,
        DEX + IMP,
        WIT + IMP,
        CPY + ABS,
        A + CMP + ABS,
        DEC + ABS,
        A + CMP + ABL,
    ],
    // D0 to DF
    [
        BNE + REL,
        A + CMP + IND_DIR_Y,
        A + CMP + IND_DIR,
        A + CMP + IND_SR_Y,
        PEI + STK,
        A + CMP + DIR_X,
        DEC + DIR_X,
        A + CMP + LONG_DIR_Y,
        CLM + IMP,
        A + CMP + ABS_Y,
        PHX + STK,
        STP + IMP,
        UNCARRIED_JMP + LONG_ABS + BY_MEMORY,
        A + CMP + ABS_X,
        DEC + ABS_X,
        A + CMP + ABL_X,
    ],
    // E0 to EF
    [
        CPX + IMM_X,
        A + SBC + IND_DIR_X,
        SEP + IMM,
        A + SBC + SR,
        CPX + DIR,
        A + SBC + DIR,
        INC + DIR,
        A + SBC + LONG_DIR,
        INX + IMP,
        A + SBC + IMM_M,
        NOP + IMP,
        PSH + STK,
        CPX + ABS,
        A + SBC + ABS,
        INC + ABS,
        A + SBC + ABL,
    ],
    // F0 to FF
    [
        BEQ + REL,
        A + SBC + IND_DIR_Y,
        A + SBC + IND_DIR,
        A + SBC + IND_SR_Y,
        PEA + STK,
        A + SBC + DIR_X,
        INC + DIR_X,
        A + SBC + LONG_DIR_Y,
        SEM + IMP,
        A + SBC + ABS_Y,
        PLX + STK,
        PUL + STK,
        UNCARRIED_JSR + IND_ABS_X + BY_MEMORY,
        A + SBC + ABS_X,
        INC + ABS_X,
        A + SBC + ABL_X,
    ],
];

const BEHIND_42: [[u32; 16]; 16] = [
    // 00 to 0F
    [
        NONE,
        B + ORA + IND_DIR_X,
        NONE,
        B + ORA + SR,
        NONE,
        B + ORA + DIR,
        NONE,
        B + ORA + LONG_DIR,
        NONE,
        B + ORA + IMM_M,
        B + ASL + ACC,
        NONE,
        NONE,
        B + ORA + ABS,
        NONE,
        B + ORA + ABL,
    ],
    // 10 to 1F
    [
        NONE,
        B + ORA + IND_DIR_Y,
        B + ORA + IND_DIR,
        B + ORA + IND_SR_Y,
        NONE,
        B + ORA + DIR_X,
        NONE,
        B + ORA + LONG_DIR_Y,
        NONE,
        B + ORA + ABS_Y,
        B + DEC + ACC,
        PREFIX + TBS + IMP,
        NONE,
        B + ORA + ABS_X,
        NONE,
        B + ORA + ABL_X,
    ],
    // 20 to 2F
    [
        NONE,
        B + AND + IND_DIR_X,
        NONE,
        B + AND + SR,
        NONE,
        B + AND + DIR,
        NONE,
        B + AND + LONG_DIR,
        NONE,
        B + AND + IMM_M,
        B + ROL + ACC,
        NONE,
        NONE,
        B + AND + ABS,
        NONE,
        B + AND + ABL,
    ],
    // 30 to 3F
    [
        NONE,
        B + AND + IND_DIR_Y,
        B + AND + IND_DIR,
        B + AND + IND_SR_Y,
        NONE,
        B + AND + DIR_X,
        NONE,
        B + AND + LONG_DIR_Y,
        NONE,
        B + AND + ABS_Y,
        B + INC + ACC,
        PREFIX + TSB + IMP,
        NONE,
        B + AND + ABS_X,
        NONE,
        B + AND + ABL_X,
    ],
    // 40 to 4F
    [
        NONE,
        B + EOR + IND_DIR_X,
        NONE,
        B + EOR + SR,
        NONE,
        B + EOR + DIR,
        NONE,
        B + EOR + LONG_DIR,
        PREFIX + PHB + STK,
        B + EOR + IMM_M,
        B + LSR + ACC,
        NONE,
        NONE,
        B + EOR + ABS,
        NONE,
        B + EOR + ABL,
    ],
    // 50 to 5F
    [
        NONE,
        B + EOR + IND_DIR_Y,
        B + EOR + IND_DIR,
        B + EOR + IND_SR_Y,
        NONE,
        B + EOR + DIR_X,
        NONE,
        B + EOR + LONG_DIR_Y,
        NONE,
        B + EOR + ABS_Y,
        NONE,
        PREFIX + TBD + IMP,
        NONE,
        B + EOR + ABS_X,
        NONE,
        B + EOR + ABL_X,
    ],
    // 60 to 6F
    [
        NONE,
        B + ADC + IND_DIR_X,
        NONE,
        B + ADC + SR,
        NONE,
        B + ADC + DIR,
        NONE,
        B + ADC + LONG_DIR,
        PREFIX + PLB + STK,
        B + ADC + IMM_M,
        B + ROR + ACC,
        NONE,
        NONE,
        B + ADC + ABS,
        NONE,
        B + ADC + ABL,
    ],
    // 70 to 7F
    [
        NONE,
        B + ADC + IND_DIR_Y,
        B + ADC + IND_DIR,
        B + ADC + IND_SR_Y,
        NONE,
        B + ADC + DIR_X,
        NONE,
        B + ADC + LONG_DIR_Y,
        NONE,
        B + ADC + ABS_Y,
        NONE,
        PREFIX + TDB + IMP,
        NONE,
        B + ADC + ABS_X,
        NONE,
        B + ADC + ABL_X,
    ],
    // 80 to 8F
    [
        NONE,
        B + STA + IND_DIR_X,
        NONE,
        B + STA + SR,
        NONE,
        B + STA + DIR,
        NONE,
        B + STA + LONG_DIR,
        NONE,
        NONE,
        PREFIX + TXB + IMP,
        NONE,
        NONE,
        B + STA + ABS,
        NONE,
        B + STA + ABL,
    ],
    // 90 to 9F
    [
        NONE,
        B + STA + IND_DIR_Y,
        B + STA + IND_DIR,
        B + STA + IND_SR_Y,
        NONE,
        B + STA + DIR_X,
        NONE,
        B + STA + LONG_DIR_Y,
        PREFIX + TYB + IMP,
        B + STA + ABS_Y,
        NONE,
        NONE,
        NONE,
        B + STA + ABS_X,
        NONE,
        B + STA + ABL_X,
    ],
    // A0 to AF
    [
        NONE,
        B + LDA + IND_DIR_X,
        NONE,
        B + LDA + SR,
        NONE,
        B + LDA + DIR,
        NONE,
        B + LDA + LONG_DIR,
        PREFIX + TBY + IMP,
        B + LDA + IMM_M,
        PREFIX + TBX + IMP,
        NONE,
        NONE,
        B + LDA + ABS,
        NONE,
        B + LDA + ABL,
    ],
    // B0 to BF
    [
        NONE,
        B + LDA + IND_DIR_Y,
        B + LDA + IND_DIR,
        B + LDA + IND_SR_Y,
        NONE,
        B + LDA + DIR_X,
        NONE,
        B + LDA + LONG_DIR_Y,
        NONE,
        B + LDA + ABS_Y,
        NONE,
        NONE,
        NONE,
        B + LDA + ABS_X,
        NONE,
        B + LDA + ABL_X,
    ],
    // C0 to CF
    [
        NONE,
        B + CMP + IND_DIR_X,
        NONE,
        B + CMP + SR,
        NONE,
        B + CMP + DIR,
        NONE,
        B + CMP + LONG_DIR,
        NONE,
        B + CMP + IMM_M,
        NONE,
        NONE,
        NONE,
        B + CMP + ABS,
        NONE,
        B + CMP + ABL,
    ],
    // D0 to DF
    [
        NONE,
        B + CMP + IND_DIR_Y,
        B + CMP + IND_DIR,
        B + CMP + IND_SR_Y,
        NONE,
        B + CMP + DIR_X,
        NONE,
        B + CMP + LONG_DIR_Y,
        NONE,
        B + CMP + ABS_Y,
        NONE,
        NONE,
        NONE,
        B + CMP + ABS_X,
        NONE,
        B + CMP + ABL_X,
    ],
    // E0 to EF
    [
        NONE,
        B + SBC + IND_DIR_X,
        NONE,
        B + SBC + SR,
        NONE,
        B + SBC + DIR,
        NONE,
        B + SBC + LONG_DIR,
        NONE,
        B + SBC + IMM_M,
        NONE,
        NONE,
        NONE,
        B + SBC + ABS,
        NONE,
        B + SBC + ABL,
    ],
    // F0 to FF
    [
        NONE,
        B + SBC + IND_DIR_Y,
        B + SBC + IND_DIR,
        B + SBC + IND_SR_Y,
        NONE,
        B + SBC + DIR_X,
        NONE,
        B + SBC + LONG_DIR_Y,
        NONE,
        B + SBC + ABS_Y,
        NONE,
        NONE,
        NONE,
        B + SBC + ABS_X,
        NONE,
        B + SBC + ABL_X,
    ],
];

const BEHIND_89: [[u32; 16]; 16] = [
    // 00 to 0F
    [
        NONE,
        PREFIX + MPY + IND_DIR_X,
        NONE,
        PREFIX + MPY + SR,
        NONE,
        PREFIX + MPY + DIR,
        NONE,
        PREFIX + MPY + LONG_DIR,
        NONE,
        PREFIX + MPY + IMM_M,
        NONE,
        NONE,
        NONE,
        PREFIX + MPY + ABS,
        NONE,
        PREFIX + MPY + ABL,
    ],
    // 10 to 1F
    [
        NONE,
        PREFIX + MPY + IND_DIR_Y,
        PREFIX + MPY + IND_DIR,
        PREFIX + MPY + IND_SR_Y,
        NONE,
        PREFIX + MPY + DIR_X,
        NONE,
        PREFIX + MPY + LONG_DIR_Y,
        NONE,
        PREFIX + MPY + ABS_Y,
        NONE,
        NONE,
        NONE,
        PREFIX + MPY + ABS_X,
        NONE,
        PREFIX + MPY + ABL_X,
    ],
    // 20 to 2F
    [
        NONE,
        PREFIX + DIV + IND_DIR_X,
        NONE,
        PREFIX + DIV + SR,
        NONE,
        PREFIX + DIV + DIR,
        NONE,
        PREFIX + DIV + LONG_DIR,
        PREFIX + XAB + IMP,
        PREFIX + DIV + IMM_M,
        NONE,
        NONE,
        NONE,
        PREFIX + DIV + ABS,
        NONE,
        PREFIX + DIV + ABL,
    ],
    // 30 to 3F
    [
        NONE,
        PREFIX + DIV + IND_DIR_Y,
        PREFIX + DIV + IND_DIR,
        PREFIX + DIV + IND_SR_Y,
        NONE,
        PREFIX + DIV + DIR_X,
        NONE,
        PREFIX + DIV + LONG_DIR_Y,
        NONE,
        PREFIX + DIV + ABS_Y,
        NONE,
        NONE,
        NONE,
        PREFIX + DIV + ABS_X,
        NONE,
        PREFIX + DIV + ABL_X,
    ],
    // 40 to 4F
    [
        NONE,
        NONE,
        NONE,
        NONE,
        NONE,
        NONE,
        NONE,
        NONE,
        NONE,
        PREFIX + RLA + IMM_M,
        NONE,
        NONE,
        NONE,
        NONE,
        NONE,
        NONE,
    ],
    // 50 to 5F
    NO_CODES,
    // 60 to 6F
    NO_CODES,
    // 70 to 7F
    NO_CODES,
    // 80 to 8F
    NO_CODES,
    // 90 to 9F
    NO_CODES,
    // A0 to AF
    NO_CODES,
    // B0 to BF
    NO_CODES,
    // C0 to CF
    [
        NONE,
        NONE,
        PREFIX + LDT + IMM,
        NONE,
        NONE,
        NONE,
        NONE,
        NONE,
        NONE,
        NONE,
        NONE,
        NONE,
        NONE,
        NONE,
        NONE,
        NONE,
    ],
    // D0 to DF
    NO_CODES,
    // E0 to EF
    NO_CODES,
    // F0 to FF
    NO_CODES,
];

// The three pages: plain, behind 42, behind 89, each 16 rows of 16.
pub type CodePages = [[[u32; 16]; 16]; 3];

// A static, since a constant is copied at each use.
static PAGES: CodePages = [PLAIN, BEHIND_42, BEHIND_89];

// The pages that the definition fixes.
pub fn pages() -> &'static CodePages
    ensures { result.now ≡ packed_pages }
{
    &PAGES
}

// The number of a code of a page: its row by the upper four bits, its column by the lower four. Asks for one of the
// three pages, for there is no number on another.
pub fn packed_at(page: usize, code: u8) -> u32
    requires { page < 3 }
    ensures { result ≡ packed_at packed_pages page code }
{
    pages()[page][(code / 16) as usize][(code % 16) as usize]
}
