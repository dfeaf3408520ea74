// A script's line, read as a call.
ghost use Rattle.std.specs.Prelude.{◌≡◌, ◌+◌, length, drop};
ghost use Rattle.door_script.specs.Text.{upto};
ghost use Rattle.door_script.specs.Lines.{field, taken_by, fits, number_in, numbers_of, place, call_at, line_of};

use base_calls::Call;
use base_units::address::{Gpa, Hpa};

pub const LINE_MOST_BYTES: usize = 120;

const TAB: u8 = b'\t';

pub const LF: u8 = b'\n';

const PLACE: u8 = b'#';

// Which call a line makes.
#[derive(Clone, Copy)]
enum Name {
    Create,
    KeyConfig,
    AddCx,
    Init,
    SeptAdd,
    PageAdd,
    Finalize,
    PageAug,
    Block,
    Track,
    Unblock,
    PageRemove,
    SeptRemove,
    FlushDone,
    KeyFree,
    Reclaim,
    ReadPage,
    ReadEntry,
    CacheWb,
}

// A call's form as a line, with `#` in each number's place.
#[derive(Clone, Copy)]
struct Row {
    form: &'static [u8],
    name: Name,
}

const ROWS: [Row; 19] = [
    Row {
        form: b"create\thpa\t#\tkey\t#",
        name: Name::Create,
    },
    Row {
        form: b"keyconfig\thpa\t#",
        name: Name::KeyConfig,
    },
    Row {
        form: b"addcx\thpa\t#\thpa\t#",
        name: Name::AddCx,
    },
    Row {
        form: b"init\thpa\t#",
        name: Name::Init,
    },
    Row {
        form: b"septadd\thpa\t#\tgpa\t#\tlevel\t#\thpa\t#",
        name: Name::SeptAdd,
    },
    Row {
        form: b"pageadd\thpa\t#\tgpa\t#\thpa\t#",
        name: Name::PageAdd,
    },
    Row {
        form: b"finalize\thpa\t#",
        name: Name::Finalize,
    },
    Row {
        form: b"pageaug\thpa\t#\tgpa\t#\thpa\t#",
        name: Name::PageAug,
    },
    Row {
        form: b"block\thpa\t#\tgpa\t#\tlevel\t#",
        name: Name::Block,
    },
    Row {
        form: b"track\thpa\t#",
        name: Name::Track,
    },
    Row {
        form: b"unblock\thpa\t#\tgpa\t#\tlevel\t#",
        name: Name::Unblock,
    },
    Row {
        form: b"pageremove\thpa\t#\tgpa\t#",
        name: Name::PageRemove,
    },
    Row {
        form: b"septremove\thpa\t#\tgpa\t#\tlevel\t#",
        name: Name::SeptRemove,
    },
    Row {
        form: b"flushdone\thpa\t#",
        name: Name::FlushDone,
    },
    Row {
        form: b"keyfree\thpa\t#",
        name: Name::KeyFree,
    },
    Row {
        form: b"reclaim\thpa\t#",
        name: Name::Reclaim,
    },
    Row {
        form: b"readpage\thpa\t#",
        name: Name::ReadPage,
    },
    Row {
        form: b"readentry\thpa\t#\tgpa\t#\tlevel\t#",
        name: Name::ReadEntry,
    },
    Row {
        form: b"cachewb",
        name: Name::CacheWb,
    },
];

// Where the first `mark` stands, from `from` on, or the end.
pub fn end_of(text: &[u8], from: usize, mark: u8) -> usize
    ensures { result ≡ from + length (upto mark (drop from text.now)) }
{
    let rest = text.get(from..).unwrap_or(&[]);
    let end = rest.iter().position(|&byte| byte == mark);
    from + end.unwrap_or(rest.len())
}

// The field that a line begins with.
fn field(line: &[u8]) -> &[u8]
    ensures { result.now ≡ field line.now }
{
    &line[..end_of(line, 0, TAB)]
}

// How many bytes of a line a byte of a row stands for, if the line goes on so.
fn taken_by(line: &[u8], byte: u8) -> Option<usize>
    ensures { result ≡ taken_by byte line.now }
{
    if byte == PLACE {
        let number = field(line);
        base_numbers::number_of(number)?;
        return Some(number.len());
    }
    let &first = line.first()?;
    (first == byte).then_some(1)
}

// Whether a line is of a row's form.
fn fits(form: &[u8], line: &[u8]) -> bool
    ensures { result ≡ fits form.now line.now }
{
    let mut rest = line;
    for &byte in form {
        let Some(n) = taken_by(rest, byte) else {
            return false;
        };
        rest = &rest[n..];
    }
    rest.is_empty()
}

// The number in a line's field, counted from 0; 0 where there is none.
fn number_in(line: &[u8], index: usize) -> u64
    ensures { result ≡ number_in line.now index }
{
    let field = line.split(|&byte| byte == TAB).nth(index);
    field.and_then(base_numbers::number_of).unwrap_or(0)
}

// The numbers of a line's operands: behind its name, each in the field after its unit.
fn numbers_of(line: &[u8]) -> [u64; 4]
    ensures { result ≡ numbers_of line.now }
{
    [
        number_in(line, 2),
        number_in(line, 4),
        number_in(line, 6),
        number_in(line, 8),
    ]
}

impl Name {
    // The call of that name, of its operands' numbers.
    fn call(self, numbers: [u64; 4]) -> Call
        ensures { result ≡ call_at (place self) numbers }
    {
        let [a, b, c, d] = numbers;
        let domain = Hpa(a);
        let gpa = Gpa(b);
        let level = c as usize;
        match self {
            Name::Create => Call::Create {
                frame: Hpa(a),
                key: b,
            },
            Name::KeyConfig => Call::KeyConfig { domain },
            Name::AddCx => Call::AddCx {
                domain,
                frame: Hpa(b),
            },
            Name::Init => Call::Init { domain },
            Name::SeptAdd => Call::SeptAdd {
                domain,
                gpa,
                level,
                frame: Hpa(d),
            },
            Name::PageAdd => Call::PageAdd {
                domain,
                gpa,
                frame: Hpa(c),
            },
            Name::Finalize => Call::Finalize { domain },
            Name::PageAug => Call::PageAug {
                domain,
                gpa,
                frame: Hpa(c),
            },
            Name::Block => Call::Block { domain, gpa, level },
            Name::Track => Call::Track { domain },
            Name::Unblock => Call::Unblock { domain, gpa, level },
            Name::PageRemove => Call::PageRemove { domain, gpa },
            Name::SeptRemove => Call::SeptRemove { domain, gpa, level },
            Name::FlushDone => Call::FlushDone { domain },
            Name::KeyFree => Call::KeyFree { domain },
            Name::Reclaim => Call::Reclaim { frame: Hpa(a) },
            Name::ReadPage => Call::ReadPage { frame: Hpa(a) },
            Name::ReadEntry => Call::ReadEntry { domain, gpa, level },
            Name::CacheWb => Call::CacheWb,
        }
    }
}

pub fn read_line(line: &[u8]) -> Option<Call>
    ensures { result ≡ line_of line.now }
{
    if line.len() > LINE_MOST_BYTES {
        return None;
    }
    let row = ROWS.iter().find(|row| fits(row.form, line));
    row.map(|row| row.name.call(numbers_of(line)))
}
