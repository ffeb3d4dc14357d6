// A changing call as a value, and an answer as a row of document 01's table.
#![tactic(auto)]

ghost use Rattle.std.specs.Prelude.{◌≡◌};
ghost use Rattle.model.specs.Answer as replies;
ghost use Rattle.call_values.specs.Values.{row_of, OfNumber};

use model::{Answer, Refusal};

// The kinds of calls.
#[derive(Clone, Copy, Debug, PartialEq, Eq)]
pub enum Kind {
    Write,
    Append,
    WriteInside,
    Mkdir,
    Unlink,
    Rmdir,
    Rename,
}

// A number that no kind of call has.
#[derive(Clone, Copy, Debug, PartialEq, Eq)]
pub struct UnknownKind(pub u64);

// The kind with a number, as a script's steps have it.
impl TryFrom<u64> for Kind {
    type Error = UnknownKind;

    ghost try_from_gives = { OfNumber };

    fn try_from(number: u64) -> Result<Self, UnknownKind> {
        match number {
            1 => Ok(Kind::Write),
            2 => Ok(Kind::Mkdir),
            3 => Ok(Kind::Unlink),
            4 => Ok(Kind::Rmdir),
            5 => Ok(Kind::Rename),
            6 => Ok(Kind::Append),
            7 => Ok(Kind::WriteInside),
            _ => Err(UnknownKind(number)),
        }
    }
}

// What a call takes beside its paths and data. The flags are mkdir's, the offset is that of writing inside, and the
// mtime is for the calls that set one: write, append, writing inside and mkdir. The other calls take no notice of them.
#[derive(Clone, Copy, Debug, PartialEq, Eq)]
pub struct Order {
    pub kind: Kind,
    pub parents: bool,
    pub exist_ok: bool,
    pub mtime: u64,
    pub limit: u64,
    pub offset: u64,
}

// An answer as a row. Accepted: 0, 0 and the value; refused: number, path and length.
#[derive(Clone, Copy, Debug, PartialEq, Eq)]
pub struct Row {
    pub number: u64,
    pub path: u64,
    pub len: u64,
}

// A refusal, as a row.
fn refused(number: u64, path: u64, len: u64) -> Row
    ensures { result ≡ row_of (replies.refused number path len) }
{
    Row { number, path, len }
}

// The row of a refusal.
pub fn told_refusal(refusal: Refusal) -> Row
    ensures { result ≡ row_of (replies.told_refusal refusal) }
{
    match refusal {
        Refusal::MalformedTable => refused(1, 0, 0),
        Refusal::MalformedListing => refused(2, 0, 0),
        Refusal::MalformedPath(path) => refused(3, path, 0),
        Refusal::LinkOrRoot(path, len) => refused(4, path, len),
        Refusal::NotFound(path, len) => refused(5, path, len),
        Refusal::Exists(path, len) => refused(6, path, len),
        Refusal::NotADirectory(path, len) => refused(7, path, len),
        Refusal::IsADirectory(path, len) => refused(8, path, len),
        Refusal::NotEmpty(path, len) => refused(9, path, len),
        Refusal::BelowSource(len) => refused(10, 0, len),
        Refusal::Limit => refused(11, 0, 0),
        Refusal::KeyTooLong => refused(12, 0, 0),
        Refusal::NoRoom => refused(13, 0, 0),
        Refusal::LentCount => refused(17, 0, 0),
        Refusal::RangeTooLarge => refused(18, 0, 0),
    }
}

// The row of an answer.
pub fn told(answer: Answer) -> Row
    ensures { result ≡ row_of (replies.told answer) }
{
    match answer {
        Ok(value) => Row {
            number: 0,
            path: 0,
            len: value,
        },
        Err(refusal) => told_refusal(refusal),
    }
}
