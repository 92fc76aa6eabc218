// What an escape or a byte gives to an item: up to four bytes.
ghost use Rattle.std.specs.Prelude.{◌≡◌, ◌≤◌, [], ◌∷◌, take};
ghost use Rattle.lines.specs.Utf8.{encoded};

// The first `count` of four bytes.
#[derive(Clone, Copy)]
pub(crate) struct Few {
    bytes: [u8; 4],
    count: usize,
    ghost short: { count ≤ 4 },
}

impl Few {
    // One byte.
    pub(crate) fn one(b: u8) -> Few
        ensures { take result.count result.bytes ≡ b ∷ [] }
    {
        Few {
            bytes: [b, 0, 0, 0],
            count: 1,
        }
    }

    // The UTF-8 of a code point.
    #[tactic(auto, unfolding(lines::specs::Utf8::encoded))]
    pub(crate) fn encode(v: u64) -> Few
        requires { v ≤ 0x10FFFF }
        ensures { take result.count result.bytes ≡ encoded v }
    {
        let last = (0x80 + v % 0x40) as u8;
        let middle = (0x80 + v / 0x40 % 0x40) as u8;
        match v {
            0..=0x7F => Few::one(v as u8),
            0x80..=0x7FF => Few {
                bytes: [(0xC0 + v / 0x40) as u8, last, 0, 0],
                count: 2,
            },
            0x800..=0xFFFF => Few {
                bytes: [(0xE0 + v / 0x1000) as u8, middle, last, 0],
                count: 3,
            },
            _ => Few {
                bytes: [
                    (0xF0 + v / 0x40000) as u8,
                    (0x80 + v / 0x1000 % 0x40) as u8,
                    middle,
                    last,
                ],
                count: 4,
            },
        }
    }

    pub(crate) fn as_slice(&self) -> &[u8]
        ensures { result.now ≡ take self.now.count self.now.bytes }
    {
        &self.bytes[..self.count]
    }
}
