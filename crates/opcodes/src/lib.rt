// The class of each opcode.

#![tactic(auto)]

ghost use Rattle.std.specs.Prelude.{◌≡◌, get_or};
ghost use Rattle.definition.specs.Classes.{class_number};
ghost use Rattle.opcodes.specs.View.{ClassRows, BuiltInRows};
ghost use Rattle.opcodes.specs.Class.{number_of};

/// The class of an opcode: what it does to the stacks, or to the walk. Its number is its place in this list.
#[repr(u8)]
#[derive(Clone, Copy, Debug, PartialEq, Eq)]
pub enum Class {
    Unmodelled,
    Push,
    Nothing,
    If,
    NotIf,
    Else,
    EndIf,
    Return,
    ToAlt,
    FromAlt,
    Depth,
    Size,
    Nip,
    Tuck,
    Pick,
    Roll,
    Zk,
    // Copies, (depth, count): (1, 1), (2, 2), (3, 3), (2, 1), (4, 2).
    Dup,
    TwoDup,
    ThreeDup,
    Over,
    TwoOver,
    // Left rotations, (count, shift): (3, 1), (6, 2), (2, 1), (4, 2).
    Rot,
    TwoRot,
    Swap,
    TwoSwap,
    // The plain classes, by the items that they pop and push.
    Effect10,
    Effect20,
    Effect01,
    Effect11,
    Effect31,
    Effect21,
}

/// A number above 31, which is no class.
#[derive(Clone, Copy, Debug, PartialEq, Eq)]
pub struct NoClass(pub u8);

impl TryFrom<u8> for Class {
    ghost use Rattle.opcodes.specs.Class.{Numbers};

    type Error = NoClass;

    ghost try_from_gives = { Numbers };

    fn try_from(number: u8) -> Result<Class, NoClass> {
        Ok(match number {
            0 => Class::Unmodelled,
            1 => Class::Push,
            2 => Class::Nothing,
            3 => Class::If,
            4 => Class::NotIf,
            5 => Class::Else,
            6 => Class::EndIf,
            7 => Class::Return,
            8 => Class::ToAlt,
            9 => Class::FromAlt,
            10 => Class::Depth,
            11 => Class::Size,
            12 => Class::Nip,
            13 => Class::Tuck,
            14 => Class::Pick,
            15 => Class::Roll,
            16 => Class::Zk,
            17 => Class::Dup,
            18 => Class::TwoDup,
            19 => Class::ThreeDup,
            20 => Class::Over,
            21 => Class::TwoOver,
            22 => Class::Rot,
            23 => Class::TwoRot,
            24 => Class::Swap,
            25 => Class::TwoSwap,
            26 => Class::Effect10,
            27 => Class::Effect20,
            28 => Class::Effect01,
            29 => Class::Effect11,
            30 => Class::Effect31,
            31 => Class::Effect21,
            _ => return Err(NoClass(number)),
        })
    }
}

impl From<Class> for u8 {
    ghost use Rattle.opcodes.specs.Class.{number_of};

    ghost from_gives = { λ class number. number ≡ number_of class };

    fn from(class: Class) -> u8 {
        class as u8
    }
}

/// The class of an opcode, by its range.
#[tactic(auto, unfolding(definition::specs::Classes::class_number))]
pub fn class_of(opcode: u8) -> Class
    ensures { number_of result ≡ class_number opcode }
{
    match opcode {
        0x00..=0x4f | 0x51..=0x60 => Class::Push,
        0x61 => Class::Nothing,
        0x63 => Class::If,
        0x64 => Class::NotIf,
        0x67 => Class::Else,
        0x68 => Class::EndIf,
        0x6a => Class::Return,
        0x6b => Class::ToAlt,
        0x6c => Class::FromAlt,
        0x74 => Class::Depth,
        0x82 => Class::Size,
        0x77 => Class::Nip,
        0x7d => Class::Tuck,
        0x79 => Class::Pick,
        0x7a => Class::Roll,
        0xa6 => Class::Zk,
        0x76 => Class::Dup,
        0x6e => Class::TwoDup,
        0x6f => Class::ThreeDup,
        0x78 => Class::Over,
        0x70 => Class::TwoOver,
        0x7b => Class::Rot,
        0x71 => Class::TwoRot,
        0x7c => Class::Swap,
        0x72 => Class::TwoSwap,
        0x69 | 0x75 | 0xb0 | 0xb1 => Class::Effect10,
        0x6d | 0x88 | 0x9d | 0xad => Class::Effect20,
        0xb2..=0xb9 => Class::Effect01,
        0x83 | 0x8b | 0x8c | 0x8f..=0x92 | 0xa8 | 0xaa | 0xba..=0xce => Class::Effect11,
        0x7f | 0xa5 | 0xd5..=0xd9 => Class::Effect31,
        0x7e
        | 0x84..=0x87
        | 0x93..=0x97
        | 0x9a..=0x9c
        | 0x9e..=0xa4
        | 0xa7
        | 0xab
        | 0xac
        | 0xcf..=0xd4 => Class::Effect21,
        _ => Class::Unmodelled,
    }
}

// The class numbers, as the tables name them: a map that C callers lend has rows of bytes, and so have the built-in ones.
pub const UNMODELLED: u8 = Class::Unmodelled as u8;

pub const PUSH: u8 = Class::Push as u8;

pub const NOTHING: u8 = Class::Nothing as u8;

pub const IF: u8 = Class::If as u8;

pub const NOTIF: u8 = Class::NotIf as u8;

pub const ELSE: u8 = Class::Else as u8;

pub const ENDIF: u8 = Class::EndIf as u8;

pub const RETURN: u8 = Class::Return as u8;

pub const TO_ALT: u8 = Class::ToAlt as u8;

pub const FROM_ALT: u8 = Class::FromAlt as u8;

pub const DEPTH: u8 = Class::Depth as u8;

pub const SIZE: u8 = Class::Size as u8;

pub const NIP: u8 = Class::Nip as u8;

pub const TUCK: u8 = Class::Tuck as u8;

pub const PICK: u8 = Class::Pick as u8;

pub const ROLL: u8 = Class::Roll as u8;

pub const ZK: u8 = Class::Zk as u8;

pub const DUP: u8 = Class::Dup as u8;

pub const TWO_DUP: u8 = Class::TwoDup as u8;

pub const THREE_DUP: u8 = Class::ThreeDup as u8;

pub const OVER: u8 = Class::Over as u8;

pub const TWO_OVER: u8 = Class::TwoOver as u8;

pub const ROT: u8 = Class::Rot as u8;

pub const TWO_ROT: u8 = Class::TwoRot as u8;

pub const SWAP: u8 = Class::Swap as u8;

pub const TWO_SWAP: u8 = Class::TwoSwap as u8;

pub const EFFECT_1_0: u8 = Class::Effect10 as u8;

pub const EFFECT_2_0: u8 = Class::Effect20 as u8;

pub const EFFECT_0_1: u8 = Class::Effect01 as u8;

pub const EFFECT_1_1: u8 = Class::Effect11 as u8;

pub const EFFECT_3_1: u8 = Class::Effect31 as u8;

pub const EFFECT_2_1: u8 = Class::Effect21 as u8;

// The class of each opcode as a table, each entry beside its code. It stands beside `class_of` since it is what a map is: 256 bytes
// that are lent, and that `listochur_map` hands to C callers.
pub const CLASSES: [u8; 256] = [
    PUSH, // 00
    PUSH, // 01
    PUSH, // 02
    PUSH, // 03
    PUSH, // 04
    PUSH, // 05
    PUSH, // 06
    PUSH, // 07
    PUSH, // 08
    PUSH, // 09
    PUSH, // 0a
    PUSH, // 0b
    PUSH, // 0c
    PUSH, // 0d
    PUSH, // 0e
    PUSH, // 0f
    PUSH, // 10
    PUSH, // 11
    PUSH, // 12
    PUSH, // 13
    PUSH, // 14
    PUSH, // 15
    PUSH, // 16
    PUSH, // 17
    PUSH, // 18
    PUSH, // 19
    PUSH, // 1a
    PUSH, // 1b
    PUSH, // 1c
    PUSH, // 1d
    PUSH, // 1e
    PUSH, // 1f
    PUSH, // 20
    PUSH, // 21
    PUSH, // 22
    PUSH, // 23
    PUSH, // 24
    PUSH, // 25
    PUSH, // 26
    PUSH, // 27
    PUSH, // 28
    PUSH, // 29
    PUSH, // 2a
    PUSH, // 2b
    PUSH, // 2c
    PUSH, // 2d
    PUSH, // 2e
    PUSH, // 2f
    PUSH, // 30
    PUSH, // 31
    PUSH, // 32
    PUSH, // 33
    PUSH, // 34
    PUSH, // 35
    PUSH, // 36
    PUSH, // 37
    PUSH, // 38
    PUSH, // 39
    PUSH, // 3a
    PUSH, // 3b
    PUSH, // 3c
    PUSH, // 3d
    PUSH, // 3e
    PUSH, // 3f
    PUSH, // 40
    PUSH, // 41
    PUSH, // 42
    PUSH, // 43
    PUSH, // 44
    PUSH, // 45
    PUSH, // 46
    PUSH, // 47
    PUSH, // 48
    PUSH, // 49
    PUSH, // 4a
    PUSH, // 4b
    PUSH, // 4c
    PUSH, // 4d
    PUSH, // 4e
    PUSH, // 4f
    UNMODELLED, // 50
    PUSH, // 51
    PUSH, // 52
    PUSH, // 53
    PUSH, // 54
    PUSH, // 55
    PUSH, // 56
    PUSH, // 57
    PUSH, // 58
    PUSH, // 59
    PUSH, // 5a
    PUSH, // 5b
    PUSH, // 5c
    PUSH, // 5d
    PUSH, // 5e
    PUSH, // 5f
    PUSH, // 60
    NOTHING, // 61
    UNMODELLED, // 62
    IF, // 63
    NOTIF, // 64
    UNMODELLED, // 65
    UNMODELLED, // 66
    ELSE, // 67
    ENDIF, // 68
    EFFECT_1_0, // 69
    RETURN, // 6a
    TO_ALT, // 6b
    FROM_ALT, // 6c
    EFFECT_2_0, // 6d
    TWO_DUP, // 6e
    THREE_DUP, // 6f
    TWO_OVER, // 70
    TWO_ROT, // 71
    TWO_SWAP, // 72
    UNMODELLED, // 73
    DEPTH, // 74
    EFFECT_1_0, // 75
    DUP, // 76
    NIP, // 77
    OVER, // 78
    PICK, // 79
    ROLL, // 7a
    ROT, // 7b
    SWAP, // 7c
    TUCK, // 7d
    EFFECT_2_1, // 7e
    EFFECT_3_1, // 7f
    UNMODELLED, // 80
    UNMODELLED, // 81
    SIZE, // 82
    EFFECT_1_1, // 83
    EFFECT_2_1, // 84
    EFFECT_2_1, // 85
    EFFECT_2_1, // 86
    EFFECT_2_1, // 87
    EFFECT_2_0, // 88
    UNMODELLED, // 89
    UNMODELLED, // 8a
    EFFECT_1_1, // 8b
    EFFECT_1_1, // 8c
    UNMODELLED, // 8d
    UNMODELLED, // 8e
    EFFECT_1_1, // 8f
    EFFECT_1_1, // 90
    EFFECT_1_1, // 91
    EFFECT_1_1, // 92
    EFFECT_2_1, // 93
    EFFECT_2_1, // 94
    EFFECT_2_1, // 95
    EFFECT_2_1, // 96
    EFFECT_2_1, // 97
    UNMODELLED, // 98
    UNMODELLED, // 99
    EFFECT_2_1, // 9a
    EFFECT_2_1, // 9b
    EFFECT_2_1, // 9c
    EFFECT_2_0, // 9d
    EFFECT_2_1, // 9e
    EFFECT_2_1, // 9f
    EFFECT_2_1, // a0
    EFFECT_2_1, // a1
    EFFECT_2_1, // a2
    EFFECT_2_1, // a3
    EFFECT_2_1, // a4
    EFFECT_3_1, // a5
    ZK, // a6
    EFFECT_2_1, // a7
    EFFECT_1_1, // a8
    UNMODELLED, // a9
    EFFECT_1_1, // aa
    EFFECT_2_1, // ab
    EFFECT_2_1, // ac
    EFFECT_2_0, // ad
    UNMODELLED, // ae
    UNMODELLED, // af
    EFFECT_1_0, // b0
    EFFECT_1_0, // b1
    EFFECT_0_1, // b2
    EFFECT_0_1, // b3
    EFFECT_0_1, // b4
    EFFECT_0_1, // b5
    EFFECT_0_1, // b6
    EFFECT_0_1, // b7
    EFFECT_0_1, // b8
    EFFECT_0_1, // b9
    EFFECT_1_1, // ba
    EFFECT_1_1, // bb
    EFFECT_1_1, // bc
    EFFECT_1_1, // bd
    EFFECT_1_1, // be
    EFFECT_1_1, // bf
    EFFECT_1_1, // c0
    EFFECT_1_1, // c1
    EFFECT_1_1, // c2
    EFFECT_1_1, // c3
    EFFECT_1_1, // c4
    EFFECT_1_1, // c5
    EFFECT_1_1, // c6
    EFFECT_1_1, // c7
    EFFECT_1_1, // c8
    EFFECT_1_1, // c9
    EFFECT_1_1, // ca
    EFFECT_1_1, // cb
    EFFECT_1_1, // cc
    EFFECT_1_1, // cd
    EFFECT_1_1, // ce
    EFFECT_2_1, // cf
    EFFECT_2_1, // d0
    EFFECT_2_1, // d1
    EFFECT_2_1, // d2
    EFFECT_2_1, // d3
    EFFECT_2_1, // d4
    EFFECT_3_1, // d5
    EFFECT_3_1, // d6
    EFFECT_3_1, // d7
    EFFECT_3_1, // d8
    EFFECT_3_1, // d9
    UNMODELLED, // da
    UNMODELLED, // db
    UNMODELLED, // dc
    UNMODELLED, // dd
    UNMODELLED, // de
    UNMODELLED, // df
    UNMODELLED, // e0
    UNMODELLED, // e1
    UNMODELLED, // e2
    UNMODELLED, // e3
    UNMODELLED, // e4
    UNMODELLED, // e5
    UNMODELLED, // e6
    UNMODELLED, // e7
    UNMODELLED, // e8
    UNMODELLED, // e9
    UNMODELLED, // ea
    UNMODELLED, // eb
    UNMODELLED, // ec
    UNMODELLED, // ed
    UNMODELLED, // ee
    UNMODELLED, // ef
    UNMODELLED, // f0
    UNMODELLED, // f1
    UNMODELLED, // f2
    UNMODELLED, // f3
    UNMODELLED, // f4
    UNMODELLED, // f5
    UNMODELLED, // f6
    UNMODELLED, // f7
    UNMODELLED, // f8
    UNMODELLED, // f9
    UNMODELLED, // fa
    UNMODELLED, // fb
    UNMODELLED, // fc
    UNMODELLED, // fd
    UNMODELLED, // fe
    UNMODELLED, // ff
];

/// The table: its rows are the rules that `class_of` goes by.
pub fn table() -> [u8; 256]
    ensures { BuiltInRows result }
{
    CLASSES
}

/// The class of each opcode, by 256 lent rows of class numbers.
#[derive(Clone, Copy)]
pub struct Classes<'a> {
    rows: &'a [u8],
    pub ghost good: { ClassRows rows.now },
}

impl<'a> Classes<'a> {
    ghost use Rattle.opcodes.specs.Class.{number_of};
    ghost use Rattle.opcodes.specs.Classes.{rows_of};

    /// By these rows, each of which is a class number.
    pub fn new(rows: &'a [u8]) -> Classes<'a>
        requires { ClassRows rows.now }
        ensures { rows_of result ≡ rows.now }
    {
        Classes { rows }
    }

    /// The built-in classes.
    pub fn built_in() -> Classes<'static>
        ensures { BuiltInRows (rows_of result) }
    {
        Classes { rows: &CLASSES }
    }

    /// The class of an opcode.
    pub fn of(self, opcode: u8) -> Class
        ensures { number_of result ≡ get_or (rows_of self.entry) opcode 0 }
    {
        Class::try_from(self.rows[opcode as usize]).unwrap()
    }
}

/// The class of an opcode, out of the table.
pub fn class_at(opcode: u8) -> Class
    ensures { number_of result ≡ class_number opcode }
{
    Classes::built_in().of(opcode)
}
