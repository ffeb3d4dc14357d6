// Scripts: lists of changing calls as bytes, which of them are well-formed, and what stands in a step. The check takes
// any bytes; what reads a step asks that its head stands there, or the whole step: only this repository's crates call
// it. A check is one pass over the script's steps. `two` says that the script's mark is TSC2, not TSC1.
#![tactic(auto)]

ghost use Rattle.std.specs.Prelude.{◌≡◌, true, ◌&&◌, ◌+◌, ◌*◌, ◌≤◌, ◌<◌, leb, length};
ghost use Rattle.run_script.specs.Script.{is_two, offset_at, third_length, step_head, third_from, step_end};
ghost use Rattle.run_script.specs.Script.{first_part, second_part, third_part, step_kind, order_at, step_count};
ghost use Rattle.run_script.specs.Script.{ruled, fits, headed, marked, is_script};
ghost use Rattle.run_script.specs.Wrong.{wrong_from};

use call_values::{Kind, Order};

// The bytes of a script before its steps, and of a step before its parts: in TSC1, then in TSC2.
pub const SCRIPT_HEAD: usize = 8;

pub const STEP_HEAD: usize = 24;

const STEP_HEAD_TWO: usize = 36;

// The bytes of a report's row, which a run writes for each step.
pub const ROW_SIZE: usize = 32;

const ROW_BYTES: u64 = ROW_SIZE as u64;

// The kinds of steps that the rules of a step name, and the numbers behind the last kind: in TSC1, then in TSC2.
const WRITE: u64 = 1;

const MKDIR: u64 = 2;

const RENAME: u64 = 5;

const APPEND: u64 = 6;

const WRITE_INSIDE: u64 = 7;

const KIND_END: u64 = 6;

const KIND_END_TWO: u64 = 8;

// Whether a step's kind, flags, length of its second part, mtime bits, offset and length of its third part go together.
fn is_ruled(
    two: bool,
    kind: u64,
    flags: u64,
    second: u64,
    mtime: u64,
    offset: u64,
    third: u64,
) -> bool
    ensures { result ≡ ruled two kind flags second mtime offset third }
{
    let has_data = (kind == WRITE) | ((kind == APPEND) | (kind == WRITE_INSIDE));
    ((0 < kind) & ((kind < KIND_END) | (two & (kind < KIND_END_TWO))))
        & (((flags == 0) | ((kind == MKDIR) & (flags < 4)))
            & (((second == 0) | (has_data | (kind == RENAME)))
                & (((mtime == 0) | (has_data | (kind == MKDIR)))
                    & (((offset == 0) | (kind == WRITE_INSIDE))
                        & ((third == 0) | (kind == APPEND))))))
}

// Whether the mark is TSC2.
pub fn is_two(script: &[u8]) -> bool
    requires { 4 ≤ length script.now }
    ensures { result ≡ is_two script.now }
{
    let mark = &script[..4];
    base_fields::is_same(mark, b"TSC2")
}

// Whether the bytes begin with a mark and a count.
fn is_marked(script: &[u8]) -> bool
    ensures { result ≡ marked script.now }
{
    if script.len() < SCRIPT_HEAD {
        return false;
    }
    let mark = &script[..4];
    let one = base_fields::is_same(mark, b"TSC1");
    one | is_two(script)
}

// The bytes of a step before its parts.
pub fn step_head(two: bool) -> usize
    ensures { (result ≡ step_head two) × ((24 ≤ result) × (result ≤ 36)) }
{
    if two { STEP_HEAD_TWO } else { STEP_HEAD }
}

// The offset of the step at `at`, then the length of its third part: 0 in TSC1, which has neither.
fn offset_at(script: &[u8], two: bool, at: usize) -> u64
    requires { at + step_head two ≤ length script.now }
    ensures { result ≡ offset_at two script.now at }
{
    if two {
        base_fields::le64(script, at + 24)
    } else {
        0
    }
}

fn third_length(script: &[u8], two: bool, at: usize) -> u64
    requires { at + step_head two ≤ length script.now }
    ensures { (result ≡ third_length two script.now at) × (result < 0x1_0000_0000) }
{
    if two {
        base_fields::le32(script, at + 32)
    } else {
        0
    }
}

// Where the third part of the step at `at` begins, then where the step ends.
fn third_from(script: &[u8], two: bool, at: usize) -> usize
    requires { at + step_head two ≤ length script.now }
    ensures value { result ≡ third_from two script.now at }
    ensures upper_bound { result < length script.now + 0x1_0001_0000 }
{
    let head = step_head(two);
    let n = base_fields::le16(script, at + 2) as usize;
    let m = base_fields::le32(script, at + 4) as usize;
    at + head + n + m
}

pub fn end_of(script: &[u8], two: bool, at: usize) -> usize
    requires { at + step_head two ≤ length script.now }
    ensures { result ≡ step_end two script.now at }
{
    let from = third_from(script, two, at);
    from + third_length(script, two, at) as usize
}

// Whether the step that starts at `at` ends within the script.
fn is_inside(script: &[u8], two: bool, at: usize) -> bool
    requires { at ≤ length script.now }
    ensures { result ≡ fits two script.now at }
{
    at + step_head(two) <= script.len() && end_of(script, two, at) <= script.len()
}

// Whether the numbers of the step at `at` go together.
fn is_headed(script: &[u8], two: bool, at: usize) -> bool
    requires { at + step_head two ≤ length script.now }
    ensures { result ≡ headed two script.now at }
{
    let kind = base_fields::wide(script[at]);
    let flags = base_fields::wide(script[at + 1]);
    let second = base_fields::le32(script, at + 4);
    let mtime = base_fields::le64(script, at + 8);
    let offset = offset_at(script, two, at);
    let third = third_length(script, two, at);
    is_ruled(two, kind, flags, second, mtime, offset, third)
}

// Whether a step stands at `at`.
fn is_step(script: &[u8], two: bool, at: usize) -> bool
    requires { at ≤ length script.now }
    ensures { result ≡ (fits two script.now at && headed two script.now at) }
{
    is_inside(script, two, at) && is_headed(script, two, at)
}

// Whether the bytes are a script. What does not stand there ends the pass, so the time is linear in the bytes, whatever
// is counted.
pub fn check(script: &[u8]) -> bool
    ensures { result ≡ is_script script.now }
{
    if !is_marked(script) {
        return false;
    }
    let two = is_two(script);
    let count = base_fields::le32(script, 4);
    let mut at = SCRIPT_HEAD;
    for _step in 0..count {
        if !is_step(script, two, at) {
            return false;
        }
        at = end_of(script, two, at);
    }
    at == script.len()
}

// Where bytes that are no script go wrong: at 0 if the head is wrong, else at the first step that is, or behind the
// last step. Of a script it is the end.
pub fn wrong_from(script: &[u8]) -> usize
    ensures value { result ≡ wrong_from script.now }
    ensures upper_bound { result ≤ length script.now }
    ensures value_2 { is_script script.now ≡ true → result ≡ length script.now }
{
    if !is_marked(script) {
        return 0;
    }
    let two = is_two(script);
    let count = base_fields::le32(script, 4);
    let mut at = SCRIPT_HEAD;
    for _step in 0..count {
        if !is_step(script, two, at) {
            return at;
        }
        at = end_of(script, two, at);
    }
    at
}

// The kind of a step with this number. In a script it is from 1 to 7.
fn kind_of(kind: u64) -> Kind
    ensures { result ≡ step_kind kind }
{
    Kind::try_from(kind).unwrap_or(Kind::WriteInside)
}

// The call of the step at `at`, without its paths and data.
pub fn order_at(script: &[u8], two: bool, at: usize) -> Order
    requires { at + step_head two ≤ length script.now }
    ensures { result ≡ order_at two script.now at }
{
    let kind = base_fields::wide(script[at]);
    let flags = base_fields::wide(script[at + 1]);
    let mtime = base_fields::le64(script, at + 8);
    let limit = base_fields::le64(script, at + 16);
    let offset = offset_at(script, two, at);
    Order {
        kind: kind_of(kind),
        parents: flags % 2 == 1,
        exist_ok: flags / 2 == 1,
        mtime,
        limit,
        offset,
    }
}

// The step's first part; then its second, and its third.
pub fn first_part(script: &[u8], two: bool, at: usize) -> &[u8]
    requires { (at + step_head two ≤ length script.now) × (step_end two script.now at ≤ length script.now) }
    ensures { result.now ≡ first_part two script.now at }
{
    let from = at + step_head(two);
    let to = from + base_fields::le16(script, at + 2) as usize;
    &script[from..to]
}

pub fn second_part(script: &[u8], two: bool, at: usize) -> &[u8]
    requires { (at + step_head two ≤ length script.now) × (step_end two script.now at ≤ length script.now) }
    ensures { result.now ≡ second_part two script.now at }
{
    let from = at + step_head(two) + base_fields::le16(script, at + 2) as usize;
    let to = third_from(script, two, at);
    &script[from..to]
}

pub fn third_part(script: &[u8], two: bool, at: usize) -> &[u8]
    requires { (at + step_head two ≤ length script.now) × (step_end two script.now at ≤ length script.now) }
    ensures { result.now ≡ third_part two script.now at }
{
    let from = third_from(script, two, at);
    let to = end_of(script, two, at);
    &script[from..to]
}

// Whether the report has a row for each step of a script that has its head.
pub fn has_rows(script: &[u8], len: usize) -> bool
    requires { 8 ≤ length script.now }
    ensures { result ≡ leb (32 * step_count script.now) len }
{
    let count = base_fields::le32(script, 4);
    ROW_BYTES * count <= len as u64
}
