// What a byte may be, by a table: the tests of the Rust's parser on a byte.
// A constant has no place in memory: where it is used it is written anew. So a loop is lent the table, and does not ask the constant.
#![tactic(auto)]

ghost use Rattle.std.specs.Prelude.{◌≡◌};
ghost use Rattle.definition.specs.Bytes.{is_name, is_octal, is_blank, is_binding};
ghost use Rattle.byte_classes.specs.Classes.{byte_classes};

// An entry for each byte, a bit for each class: 1 name byte, 2 octal digit, 4 blank, 8 binding.
const BYTE_CLASSES: [u8; 256] = [
    0, // 0x00
    0, // 0x01
    0, // 0x02
    0, // 0x03
    0, // 0x04
    0, // 0x05
    0, // 0x06
    0, // 0x07
    0, // 0x08
    4, // tab
    0, // newline
    0, // 0x0b
    0, // 0x0c
    0, // 0x0d
    0, // 0x0e
    0, // 0x0f
    0, // 0x10
    0, // 0x11
    0, // 0x12
    0, // 0x13
    0, // 0x14
    0, // 0x15
    0, // 0x16
    0, // 0x17
    0, // 0x18
    0, // 0x19
    0, // 0x1a
    0, // 0x1b
    0, // 0x1c
    0, // 0x1d
    0, // 0x1e
    0, // 0x1f
    4, // space
    0, // !
    0, // "
    0, // #
    0, // $
    0, // %
    0, // &
    0, // '
    0, // (
    0, // )
    8, // *
    0, // +
    0, // ,
    1, // -
    8, // .
    0, // /
    3, // 0
    3, // 1
    3, // 2
    3, // 3
    3, // 4
    3, // 5
    3, // 6
    3, // 7
    1, // 8
    1, // 9
    0, // :
    0, // ;
    0, // <
    0, // =
    0, // >
    0, // ?
    0, // @
    1, // A
    1, // B
    1, // C
    1, // D
    1, // E
    1, // F
    1, // G
    1, // H
    1, // I
    1, // J
    1, // K
    1, // L
    1, // M
    1, // N
    1, // O
    1, // P
    1, // Q
    1, // R
    1, // S
    1, // T
    1, // U
    1, // V
    1, // W
    1, // X
    1, // Y
    1, // Z
    0, // [
    0, // \
    0, // ]
    0, // ^
    1, // _
    0, // `
    1, // a
    1, // b
    1, // c
    1, // d
    1, // e
    1, // f
    1, // g
    1, // h
    1, // i
    1, // j
    1, // k
    1, // l
    1, // m
    1, // n
    1, // o
    1, // p
    1, // q
    1, // r
    1, // s
    1, // t
    1, // u
    1, // v
    1, // w
    1, // x
    1, // y
    1, // z
    0, // {
    0, // |
    0, // }
    0, // ~
    0, // 0x7f
    0, // 0x80
    0, // 0x81
    0, // 0x82
    0, // 0x83
    0, // 0x84
    0, // 0x85
    0, // 0x86
    0, // 0x87
    0, // 0x88
    0, // 0x89
    0, // 0x8a
    0, // 0x8b
    0, // 0x8c
    0, // 0x8d
    0, // 0x8e
    0, // 0x8f
    0, // 0x90
    0, // 0x91
    0, // 0x92
    0, // 0x93
    0, // 0x94
    0, // 0x95
    0, // 0x96
    0, // 0x97
    0, // 0x98
    0, // 0x99
    0, // 0x9a
    0, // 0x9b
    0, // 0x9c
    0, // 0x9d
    0, // 0x9e
    0, // 0x9f
    0, // 0xa0
    0, // 0xa1
    0, // 0xa2
    0, // 0xa3
    0, // 0xa4
    0, // 0xa5
    0, // 0xa6
    0, // 0xa7
    0, // 0xa8
    0, // 0xa9
    0, // 0xaa
    0, // 0xab
    0, // 0xac
    0, // 0xad
    0, // 0xae
    0, // 0xaf
    0, // 0xb0
    0, // 0xb1
    0, // 0xb2
    0, // 0xb3
    0, // 0xb4
    0, // 0xb5
    0, // 0xb6
    0, // 0xb7
    0, // 0xb8
    0, // 0xb9
    0, // 0xba
    0, // 0xbb
    0, // 0xbc
    0, // 0xbd
    0, // 0xbe
    0, // 0xbf
    0, // 0xc0
    0, // 0xc1
    0, // 0xc2
    0, // 0xc3
    0, // 0xc4
    0, // 0xc5
    0, // 0xc6
    0, // 0xc7
    0, // 0xc8
    0, // 0xc9
    0, // 0xca
    0, // 0xcb
    0, // 0xcc
    0, // 0xcd
    0, // 0xce
    0, // 0xcf
    0, // 0xd0
    0, // 0xd1
    0, // 0xd2
    0, // 0xd3
    0, // 0xd4
    0, // 0xd5
    0, // 0xd6
    0, // 0xd7
    0, // 0xd8
    0, // 0xd9
    0, // 0xda
    0, // 0xdb
    0, // 0xdc
    0, // 0xdd
    0, // 0xde
    0, // 0xdf
    0, // 0xe0
    0, // 0xe1
    0, // 0xe2
    0, // 0xe3
    0, // 0xe4
    0, // 0xe5
    0, // 0xe6
    0, // 0xe7
    0, // 0xe8
    0, // 0xe9
    0, // 0xea
    0, // 0xeb
    0, // 0xec
    0, // 0xed
    0, // 0xee
    0, // 0xef
    0, // 0xf0
    0, // 0xf1
    0, // 0xf2
    0, // 0xf3
    0, // 0xf4
    0, // 0xf5
    0, // 0xf6
    0, // 0xf7
    0, // 0xf8
    0, // 0xf9
    0, // 0xfa
    0, // 0xfb
    0, // 0xfc
    0, // 0xfd
    0, // 0xfe
    0, // 0xff
];

// The table, by value.
pub fn byte_classes() -> [u8; 256]
    ensures { result ≡ byte_classes }
{
    BYTE_CLASSES
}

// The table of bytes: made once for a reading, and lent to all that judge its bytes.
#[derive(Drop)]
pub struct Classes {
    table: [u8; 256],
    ghost is_table: { table ≡ byte_classes },
}

impl Classes {
    pub fn new() -> Classes
        ensures { result.table ≡ byte_classes }
    {
        Classes {
            table: byte_classes(),
        }
    }

    pub fn allowed_in_quark_name(&self, c: u8) -> bool
        ensures { result ≡ is_name c }
    {
        self.table[c as usize] % 2 == 1
    }

    pub fn is_octal_digit(&self, c: u8) -> bool
        ensures { result ≡ is_octal c }
    {
        self.table[c as usize] / 2 % 2 == 1
    }

    pub fn is_blank(&self, c: u8) -> bool
        ensures { result ≡ is_blank c }
    {
        self.table[c as usize] / 4 % 2 == 1
    }

    pub fn is_binding(&self, c: u8) -> bool
        ensures { result ≡ is_binding c }
    {
        self.table[c as usize] / 8 % 2 == 1
    }
}
