// The program's first line, read byte by byte: a state by value and a step for each byte, so that a line of any length needs
// fixed memory. No function asks anything of a state: the contracts hold of every value that a State may have.
#![tactic(auto)]

ghost use Rattle.std.specs.Prelude.{◌≡◌};
ghost use Rattle.line.specs.Fold.{next_field, push_number, put_byte, push_key, start, space_of, push_at, step_of, fold_of};
ghost use Rattle.line.specs.Fold.{number_in, rounds_in, key_bytes_in, reading_of};

// The field that the next byte belongs to; Past behind a fourth space.
#[derive(Clone, Copy)]
pub enum Field {
    Digest,
    Limit,
    Rounds,
    Key,
    Past,
}

// What has come of a number's field: nothing, decimal digits and the number that they spell, `-` alone, or something else.
#[derive(Clone, Copy)]
pub enum Number {
    Empty,
    Digits { count: u64, value: u64 },
    Dash,
    Wrong,
}

// What has come of the key's field, two bytes at a time: so many pairs of digits (65 stands for more than 64), such pairs and
// one byte more, or something else.
#[derive(Clone, Copy)]
pub enum Pairs {
    Whole(usize),
    Half(usize, u8),
    Wrong,
}

// The key's field, and the first bytes of the key: enough to tell a key of more than 64 bytes from others. The pairs count these bytes:
// a key that grows would need the heap, and memory is fixed.
#[derive(Clone, Copy)]
pub struct Key {
    pub pairs: Pairs,
    pub bytes: [u8; Key::KEPT],
}

// What has come of a line.
#[derive(Clone, Copy)]
pub struct State {
    pub at: Field,
    pub d: Number,
    pub limit: Number,
    pub rounds: Number,
    pub key: Key,
}

// What a readable line says; no rounds stand for the default. Its key is the first key_bytes of the state's bytes, where 65
// stands for a key over 64 bytes.
#[derive(Clone, Copy)]
pub struct FirstLine {
    pub d: u64,
    pub limit: u64,
    pub rounds: Option<u64>,
    pub key_bytes: usize,
}

impl Field {
    // The field after a space.
    fn next(self) -> Field
        ensures { result ≡ next_field self }
    {
        match self {
            Field::Digest => Field::Limit,
            Field::Limit => Field::Rounds,
            Field::Rounds => Field::Key,
            Field::Key => Field::Past,
            Field::Past => Field::Past,
        }
    }
}

impl Number {
    // The field with one byte more. `%` keeps the sum in range whatever the state; of five digits it takes nothing away.
    fn push(self, b: u8) -> Number
        ensures { result ≡ push_number self b }
    {
        match (self, b) {
            (Number::Empty, b'0'..=b'9') => Number::Digits {
                count: 1,
                value: u64::from(b - b'0'),
            },
            (Number::Empty, b'-') => Number::Dash,
            (Number::Digits { count, value }, b'0'..=b'9') if count < 5 => Number::Digits {
                count: count + 1,
                value: value % 10000 * 10 + u64::from(b - b'0'),
            },
            _ => Number::Wrong,
        }
    }

    // The number of d's field or L's, if that is readable.
    fn number(self) -> Option<u64>
        ensures { result ≡ number_in self }
    {
        match self {
            Number::Digits { value, .. } => Some(value),
            _ => None,
        }
    }

    // The rounds of r's field, if that is readable; no rounds stand for the default.
    fn rounds(self) -> Option<Option<u64>>
        ensures { result ≡ rounds_in self }
    {
        match self {
            Number::Digits { value, .. } => Some(Some(value)),
            Number::Dash => Some(None),
            _ => None,
        }
    }
}

impl Pairs {
    // The bytes of the key, if its field is readable; `-` is a byte that waits for a second one, with no pair before it.
    fn key_bytes(self) -> Option<usize>
        ensures { result ≡ key_bytes_in self }
    {
        match self {
            Pairs::Whole(0) => None,
            Pairs::Whole(n) => Some(n.min(Key::KEPT)),
            Pairs::Half(0, b'-') => Some(0),
            _ => None,
        }
    }
}

impl Key {
    // The bytes of a key that are kept: one more than a key may have.
    pub const KEPT: usize = 65;

    // The key with one byte more at n, if there is room for it.
    fn put(self, n: usize, x: u8) -> Key
        ensures { result ≡ put_byte self.bytes n x }
    {
        let mut bytes = self.bytes;
        if n < Key::KEPT {
            bytes[n] = x;
            return Key {
                pairs: Pairs::Whole(n + 1),
                bytes,
            };
        }
        Key {
            pairs: Pairs::Whole(n),
            bytes,
        }
    }

    // The field with one byte more.
    fn push(self, b: u8) -> Key
        ensures { result ≡ push_key self b }
    {
        match self.pairs {
            Pairs::Whole(n) => Key {
                pairs: Pairs::Half(n, b),
                ..self
            },
            Pairs::Half(n, a) => match digits::number(&[a, b]) {
                Some(x) => self.put(n, x as u8),
                None => Key {
                    pairs: Pairs::Wrong,
                    ..self
                },
            },
            Pairs::Wrong => self,
        }
    }
}

impl State {
    // Where a line begins.
    pub fn new() -> State
        ensures { result ≡ start }
    {
        State {
            at: Field::Digest,
            d: Number::Empty,
            limit: Number::Empty,
            rounds: Number::Empty,
            key: Key {
                pairs: Pairs::Whole(0),
                bytes: [0; Key::KEPT],
            },
        }
    }

    // The line with a space more: what follows belongs to the next field.
    fn space(self) -> State
        ensures { result ≡ space_of self }
    {
        State {
            at: self.at.next(),
            ..self
        }
    }

    // The line with another byte more, which belongs to the field that the line has come to.
    fn push(self, b: u8) -> State
        ensures { result ≡ push_at self.at self b }
    {
        match self.at {
            Field::Digest => State {
                d: self.d.push(b),
                ..self
            },
            Field::Limit => State {
                limit: self.limit.push(b),
                ..self
            },
            Field::Rounds => State {
                rounds: self.rounds.push(b),
                ..self
            },
            Field::Key => State {
                key: self.key.push(b),
                ..self
            },
            Field::Past => self,
        }
    }

    // The line with one byte more; byte 10, which ends the line, is not given to it.
    #[tactic(auto, unfolding(crate::specs::Fold::step_of))]
    pub fn step(self, b: u8) -> State
        ensures { result ≡ step_of self b }
    {
        if b == b' ' {
            self.space()
        } else {
            self.push(b)
        }
    }

    // The line with bytes more.
    pub fn steps(self, bytes: &[u8]) -> State
        ensures { result ≡ fold_of self bytes.now }
    {
        bytes.iter().fold(self, |line, b| line.step(*b))
    }

    // What the line says, once all its bytes have come; none if it is unreadable.
    #[tactic(auto, unfolding(crate::specs::Fold::reading_of))]
    pub fn reading(self) -> Option<FirstLine>
        ensures { result ≡ reading_of self }
    {
        let Field::Key = self.at else {
            return None;
        };
        Some(FirstLine {
            d: self.d.number()?,
            limit: self.limit.number()?,
            rounds: self.rounds.rounds()?,
            key_bytes: self.key.pairs.key_bytes()?,
        })
    }
}
