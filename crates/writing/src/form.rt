// The forms of a text, and the fields of its line 1.
ghost use Rattle.std.specs.Prelude.{◌≡◌, ◌*◌, ◌≤◌, ◌<◌, map};
ghost use Rattle.calls.specs.Area.{head_words};
ghost use Rattle.texts.specs.Text.{rounds_bytes, line1_fields};

use area::Area;

// A field of line 1: the area's word that it tells, and its bytes, of two digits each.
#[derive(Clone, Copy)]
pub struct Field {
    pub word: usize,
    pub bytes: usize,
    ghost in_head: { word < head_words },
    ghost short: { bytes ≤ 8 },
}

impl Field {
    pub fn digits(self) -> usize
        ensures { result ≡ 2 * self.bytes }
    {
        2 * self.bytes
    }
}

// A form of a text: by the bytes of r in its line 1.
#[derive(Clone, Copy)]
pub struct Form {
    pub width: usize,
    pub ghost few: { width ≤ rounds_bytes },
}

impl Form {
    ghost use Rattle.writing.specs.Told.{told_field};

    // The bytes of r in what writing gives, and in what it gave before M-108.
    pub const NEW_WIDTH: usize = 2;

    pub const OLD_WIDTH: usize = 1;

    // These two forms.
    pub const NEW: Form = Form {
        width: Form::NEW_WIDTH,
    };

    pub const OLD: Form = Form {
        width: Form::OLD_WIDTH,
    };

    // The fields of line 1 in their order.
    pub fn fields(self) -> [Field; 7]
        ensures { map told_field result ≡ line1_fields self.width }
    {
        [
            Field {
                word: Area::PHASE,
                bytes: 1,
            },
            Field {
                word: Area::ROUNDS,
                bytes: self.width,
            },
            Field {
                word: Area::LIMIT,
                bytes: 1,
            },
            Field {
                word: Area::KEY_BYTES,
                bytes: 1,
            },
            Field {
                word: Area::D,
                bytes: 2,
            },
            Field {
                word: Area::TOTAL,
                bytes: 8,
            },
            Field {
                word: Area::DONE,
                bytes: 8,
            },
        ]
    }
}
