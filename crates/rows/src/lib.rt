// A row of a table, the content that it names, and the bytes of its lean text.
#![tactic(auto)]

ghost use Rattle.std.specs.Prelude.{◌≡◌, true, false, MatchOption, [], ◌∷◌};
ghost use Rattle.rows.specs.Row.{row_of, part_at, inside, content_size, row_size};

/// A row of a table: code, length, place of the first byte after the length bytes.
#[derive(Clone, Copy, Debug, PartialEq, Eq)]
pub struct Row {
    pub code: u32,
    pub length: u32,
    pub place: u32,
}

impl From<[u32; 3]> for Row {
    ghost from_gives = { λ numbers row. row ≡ row_of numbers };

    fn from(numbers: [u32; 3]) -> Row {
        let [code, length, place] = numbers;
        Row {
            code,
            length,
            place,
        }
    }
}

impl From<Row> for [u32; 3] {
    ghost from_gives = { λ row numbers. numbers ≡ row.code ∷ row.length ∷ row.place ∷ [] };

    fn from(row: Row) -> [u32; 3] {
        [row.code, row.length, row.place]
    }
}

impl Row {
    /// The content that a row names, as a part of s, if it lies within.
    pub fn part_of(self, s: &[u8]) -> Option<&[u8]>
        ensures { MatchOption result (inside s.now self ≡ false) (λ part. (inside s.now self ≡ true) × (part.now ≡ part_at s.now self)) }
    {
        let from = self.place as usize;
        s.get(from..from + self.length as usize)
    }

    /// The bytes of the row's own content: a list has none, its members are rows of their own.
    #[tactic(auto, unfolding(crate::specs::Row::content_size))]
    pub fn content_size(self) -> usize
        ensures { result ≡ content_size self.code self.length }
    {
        if self.code == item::L {
            0
        } else {
            self.length as usize
        }
    }

    /// The bytes of the row's lean text.
    #[tactic(auto, using(crate::proofs::Tables::fewest_few, crate::proofs::Tables::content_few), unfolding(crate::specs::Row::row_size))]
    pub fn lean_size(self) -> usize
        ensures { result ≡ row_size self.code self.length }
    {
        1 + item::length_bytes(self.length) + self.content_size()
    }
}
