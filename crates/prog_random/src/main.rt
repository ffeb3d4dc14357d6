// Random lists of calls, over random listings, beside a plain tree. Each call's number is compared with the plain
// rules'; after it all must be kept where it was refused, and where it was accepted the table must be well-formed, the
// work buffer 0, the charge within the limit, what is_file and is_dir say of every path the plain tree's, and the
// content of every own file too. One call in four has a limit near the charge: it may give 11 where the plain rules
// accept. How many calls are accepted and refused is not known beforehand; `stdout` has the counts of a run without
// differences.
#![tactic(auto)]

ghost use Rattle.std.specs.Prelude.{◌≡◌, true};
ghost use Rattle.model.specs.Table.{is_table};

use call_values::{Kind, Order};
use model::{Answer, Answered, Finding, Record};
use std::io;
use table_entries::OverlayEntry;
use test_rows::{DIRECTORY, FILE, LINK, NOTHING, PATHS};

const LARGE: u64 = 1_000_000;

// The bits of 1.0.
const MTIME: u64 = 0x3FF0_0000_0000_0000;

// A call as it is drawn: its kind, the number of its path, and another: a rename's destination, or the path that a
// write, an append or a writing inside has as its data. An append is lent what it needs or, with `again`, its data. The
// seed is the generator's number behind it.
#[derive(Clone, Copy)]
struct Call {
    kind: Kind,
    path: usize,
    other: usize,
    parents: bool,
    exist_ok: bool,
    offset: u64,
    again: bool,
    limit: u64,
    seed: u64,
}

// The record of the table, the generator's number, and what is counted.
#[derive(Clone, Copy)]
struct State {
    rec: Record,
    seed: u64,
    accepted: u64,
    refused: u64,
    limited: u64,
    moved: u64,
    added: u64,
    inside: u64,
    wrong: u64,
}

fn parent(i: usize) -> usize {
    i.saturating_sub(1) / 3
}

// The bytes of a path. In `names` each has 12: its length, and itself with spaces behind it.
fn bytes(names: &[u8], i: usize) -> &[u8] {
    if i < PATHS {
        if 480 <= names.len() {
            let from = 12 * i + 1;
            let n = usize::from(names[from - 1]);
            if n <= 11 {
                let to = from + n;
                return &names[from..to];
            }
        }
    }
    &names[..0]
}

// Whether k is below a, which is not the root: no path has more than two proper ancestors beside the root.
fn is_below(a: usize, k: usize) -> bool {
    let up = parent(k);
    (up == a) | (parent(up) == a)
}

// An ancestor's part in the parents' rule: what is below it counts only where it is a directory, or is missing and
// made.
fn through(made: bool, kind: u8, below: u64) -> u64 {
    match kind {
        DIRECTORY => below,
        LINK => 4,
        _ if !made => 5,
        FILE => 7,
        _ => below,
    }
}

// From the parent up, so that the topmost that refuses is the last to be seen, and decides.
fn parents(tree: &[u8], i: usize, made: bool) -> u64 {
    let mut number = 0;
    let mut at = parent(i);
    for _step in 0..2u64 {
        number = through(made, test_rows::kind(tree, at), number);
        at = parent(at);
    }
    number
}

fn has_child(tree: &[u8], i: usize) -> bool {
    (1..PATHS).any(|k| (parent(k) == i) & (test_rows::kind(tree, k) != NOTHING))
}

fn has_link_below(tree: &[u8], a: usize) -> bool {
    (1..PATHS).any(|k| is_below(a, k) & (test_rows::kind(tree, k) == LINK))
}

fn mkdir(there: u8, exist_ok: bool, parents: u64) -> u64 {
    match there {
        LINK => 4,
        NOTHING => parents,
        DIRECTORY if exist_ok => 0,
        _ => 6,
    }
}

// write, append, unlink and rmdir where the parents passed.
fn other(kind: Kind, there: u8, child: bool) -> u64 {
    match (kind, there) {
        (_, LINK) => 4,
        (Kind::Write | Kind::Append, NOTHING) => 0,
        (_, NOTHING) => 5,
        (Kind::Rmdir, FILE) => 7,
        (Kind::Rmdir, _) if child => 9,
        (Kind::Rmdir, _) => 0,
        (_, DIRECTORY) => 8,
        _ => 0,
    }
}

// Rename: roots, both paths' parents, and links at them.
fn rename_places(tree: &[u8], a: usize, b: usize) -> u64 {
    if (a == 0) | (b == 0) {
        return 4;
    }
    let first = parents(tree, b, false);
    if first != 0 {
        return first;
    }
    if test_rows::kind(tree, b) == LINK {
        return 4;
    }
    let second = parents(tree, a, false);
    if second != 0 {
        return second;
    }
    if test_rows::kind(tree, a) == LINK {
        return 4;
    }
    0
}

// Rename: a clash of types, then 9.
fn rename_types(source: u8, there: u8, child: bool) -> u64 {
    match (source, there) {
        (DIRECTORY, DIRECTORY) if child => 9,
        (DIRECTORY, DIRECTORY) => 0,
        (_, DIRECTORY) => 8,
        (DIRECTORY, FILE) => 7,
        _ => 0,
    }
}

// Rename, where its places passed. The walk has no budget here, and gives 4 at a link.
fn rename_moves(tree: &[u8], a: usize, b: usize) -> u64 {
    let source = test_rows::kind(tree, a);
    let number = rename_types(source, test_rows::kind(tree, b), has_child(tree, b));
    if number != 0 {
        return number;
    }
    if is_below(a, b) {
        return 10;
    }
    if source == NOTHING {
        return 5;
    }
    if (source == DIRECTORY) & has_link_below(tree, a) {
        return 4;
    }
    0
}

// Onto itself a rename does nothing (#104).
fn rename(tree: &[u8], a: usize, b: usize) -> u64 {
    let number = rename_places(tree, a, b);
    if (number != 0) | ((a == b) & (test_rows::kind(tree, a) != NOTHING)) {
        return number;
    }
    rename_moves(tree, a, b)
}

// Writing n bytes inside a file. An offset near 2^64 - 1 is above every limit here.
fn write_inside(own: bool, offset: u64, n: u64) -> u64 {
    if !own {
        return 5;
    }
    if u64::MAX - n < offset {
        return 18;
    }
    if LARGE < offset {
        return 11;
    }
    0
}

// The number by the plain rules; 0 where they accept. The call has n bytes of data.
fn judged(tree: &[u8], call: Call, n: usize) -> u64 {
    let i = call.path;
    let there = test_rows::kind(tree, i);
    match call.kind {
        Kind::WriteInside => write_inside(test_rows::is_own(tree, i), call.offset, n as u64),
        Kind::Rename => rename(tree, i, call.other),
        Kind::Mkdir => mkdir(there, call.exist_ok, parents(tree, i, call.parents)),
        Kind::Rmdir if i == 0 => 4,
        Kind::Write | Kind::Append | Kind::Unlink | Kind::Rmdir => judged_one(tree, call, n),
    }
}

// The same for write, append, unlink and rmdir.
fn judged_one(tree: &[u8], call: Call, n: usize) -> u64 {
    let i = call.path;
    let number = parents(tree, i, false);
    if number != 0 {
        return number;
    }
    let last = other(call.kind, test_rows::kind(tree, i), has_child(tree, i));
    let miscounted = call.again & (test_rows::lent(tree, i).len() != n);
    match call.kind {
        Kind::Append if miscounted & (last == 0) => 17,
        _ => last,
    }
}

// A path without a node gets a directory.
fn make(tree: &mut [u8], i: usize) {
    if test_rows::kind(tree, i) == NOTHING {
        test_rows::set_kind(tree, i, DIRECTORY);
    }
}

// mkdir goes through the ancestors with or without its flag: without it, none is missing.
fn make_all(tree: &mut [u8], i: usize) {
    let up = parent(i);
    make(tree, i);
    make(tree, up);
    make(tree, parent(up));
}

// The path in b that has the last component of k.
fn in_directory(b: usize, k: usize) -> usize {
    if PATHS <= b {
        return PATHS;
    }
    3 * b + 1 + (k % 3 + 2) % 3
}

// Where k is after a, which is not the root, has moved to b with all below it.
fn moved(a: usize, b: usize, k: usize) -> usize {
    let up = parent(k);
    if k == a {
        return b;
    }
    if up == a {
        return in_directory(b, k);
    }
    if parent(up) == a {
        return in_directory(in_directory(b, up), k);
    }
    k
}

// Whether a move would take something out of the tree, to a fourth level.
fn is_too_deep(tree: &[u8], a: usize, b: usize) -> bool {
    (1..PATHS).any(|k| (PATHS <= moved(a, b, k)) & (test_rows::kind(tree, k) != NOTHING))
}

// a and all below it move to b, where nothing is below; what is elsewhere moves to where it is.
fn move_all(tree: &mut [u8], a: usize, b: usize) {
    for k in 1..PATHS {
        test_rows::move_row(tree, k, moved(a, b, k));
    }
}

fn write_whole(tree: &mut [u8], i: usize, data: &[u8]) {
    test_rows::clear(tree, i);
    test_rows::write_at(tree, i, 0, data);
}

// What is lent for an append is the file's content, unless it is an own one.
fn lend(tree: &mut [u8], i: usize, lent: &[u8], again: bool) {
    if again & !test_rows::is_own(tree, i) {
        write_whole(tree, i, lent);
    }
}

fn add(tree: &mut [u8], i: usize, data: &[u8], again: bool) {
    lend(tree, i, data, again);
    let end = test_rows::count(tree, i);
    test_rows::write_at(tree, i, end, data);
}

// The tree after a call; a refused one does nothing, and a move onto itself neither.
fn effect(tree: &mut [u8], call: Call, data: &[u8], accepted: bool) {
    let i = call.path;
    if !accepted {
        return;
    }
    match call.kind {
        Kind::Mkdir => make_all(tree, i),
        Kind::Write => write_whole(tree, i, data),
        Kind::Append => add(tree, i, data, call.again),
        Kind::WriteInside => test_rows::write_at(tree, i, call.offset as usize, data),
        Kind::Unlink | Kind::Rmdir => test_rows::clear(tree, i),
        Kind::Rename => {
            if i != call.other {
                move_all(tree, i, call.other);
            }
        }
    }
}

// The next number of the generator, below 2^31.
fn next(seed: u64) -> u64 {
    seed % 2147483647 * 48271 % 2147483647
}

// A number below n from the generator's; its low bits are left out.
fn below(seed: u64, n: u64) -> u64 {
    if n == 0 {
        return 0;
    }
    seed / 16 % n
}

// One of all paths, or five in six times one of the root and the first two levels.
fn drawn_path(seed: u64) -> usize {
    if below(seed, 6) == 0 {
        return below(next(seed), 40) as usize;
    }
    below(next(seed), 13) as usize
}

// Five in fourteen calls are renames.
fn kind(n: u64) -> Kind {
    match n {
        0 => Kind::Write,
        1 | 2 => Kind::Mkdir,
        3 => Kind::Unlink,
        4 => Kind::Rmdir,
        5 | 6 => Kind::Append,
        7 | 8 => Kind::WriteInside,
        _ => Kind::Rename,
    }
}

// Seven in eight up to 19, which a row has room for with any data behind it, else one of the last eight.
fn offset(seed: u64) -> u64 {
    if below(seed, 8) != 0 {
        return below(next(seed), 20);
    }
    0xFFFF_FFFF_FFFF_FFF8 + next(seed) % 8
}

// Three in four large, else up to 1000 above the charge.
fn limit(seed: u64, charge: u64) -> u64 {
    if below(seed, 4) != 0 {
        return LARGE;
    }
    charge.wrapping_add(below(next(seed), 1001))
}

// A rename that would take something out of the tree, and an append to more than a row has room for with any data
// behind it, is drawn as an unlink.
fn drawn_kind(tree: &[u8], n: u64, path: usize, other: usize) -> Kind {
    match kind(n) {
        Kind::Rename if (path != 0) & is_too_deep(tree, path, other) => Kind::Unlink,
        Kind::Append if 19 < test_rows::count(tree, path) => Kind::Unlink,
        drawn => drawn,
    }
}

fn drawn(tree: &[u8], seed: u64, charge: u64) -> Call {
    let one = next(seed);
    let two = next(one);
    let three = next(next(two));
    let four = next(next(three));
    let five = next(next(next(four)));
    let path = drawn_path(two);
    let other = drawn_path(three);
    Call {
        kind: drawn_kind(tree, below(one, 14), path, other),
        path,
        other,
        parents: below(four, 2) == 0,
        exist_ok: below(four, 4) < 2,
        offset: offset(five),
        again: below(next(next(five)), 8) == 0,
        limit: limit(next(four), charge),
        seed: next(next(next(five))),
    }
}

fn order(call: Call) -> Order {
    Order {
        kind: call.kind,
        parents: call.parents,
        exist_ok: call.exist_ok,
        mtime: MTIME,
        limit: call.limit,
        offset: call.offset,
    }
}

fn is(finding: Finding, yes: bool) -> bool {
    match finding {
        Ok(true) => {
            return yes;
        }
        Ok(false) => {
            return !yes;
        }
        Err(_) => {
            return false;
        }
    }
}

// Whether is_file and is_dir say of a path what the plain tree has there.
fn is_seen(listing: &[u8], table: &[u8], rec: Record, path: &[u8], kind: u8) -> bool {
    let a = is(
        call_queries::is_file(listing, table, rec, path),
        kind == FILE,
    );
    let b = is(
        call_queries::is_dir(listing, table, rec, path),
        kind == DIRECTORY,
    );
    a & b
}

// The same at every path, the root among them.
fn is_all_seen(listing: &[u8], table: &[u8], rec: Record, tree: &[u8], names: &[u8]) -> bool {
    (0..PATHS).all(|i| {
        is_seen(
            listing,
            table,
            rec,
            bytes(names, i),
            test_rows::kind(tree, i),
        )
    })
}

// Whether an entry is an own file with the plain tree's content where that has one, and none where it has none.
fn is_held(table: &[u8], entry: Option<OverlayEntry>, own: bool, content: &[u8]) -> bool {
    match entry {
        Some(OverlayEntry::File { at, len, .. }) => {
            let end = at.saturating_add(len);
            let Some(held) = table.get(at as usize..end as usize) else {
                return false;
            };
            own & (held == content)
        }
        _ => !own,
    }
}

// The same at every path, in a table that is well-formed.
fn is_all_held(table: &[u8], rec: Record, tree: &[u8], names: &[u8]) -> bool
    requires { is_table table.now rec ≡ true }
{
    let mut right = true;
    for i in 0..PATHS {
        let entry = table_entries::get(table, rec, bytes(names, i));
        right = right
            & is_held(
                table,
                entry,
                test_rows::is_own(tree, i),
                test_rows::content(tree, i),
            );
    }
    right
}

fn is_held_well(table: &[u8], rec: Record, tree: &[u8], names: &[u8]) -> bool {
    table_open::check(table, rec) && is_all_held(table, rec, tree, names)
}

fn counted(st: State, rec: Record, call: Call, number: u64, right: bool) -> State {
    let accepted = number == 0;
    let of = |kind: bool| u64::from(accepted & kind);
    State {
        rec,
        seed: call.seed,
        accepted: st.accepted.wrapping_add(u64::from(accepted)),
        refused: st.refused.wrapping_add(u64::from(!accepted)),
        limited: st.limited.wrapping_add(u64::from(number == 11)),
        moved: st.moved.wrapping_add(of(matches!(call.kind, Kind::Rename))),
        added: st.added.wrapping_add(of(matches!(call.kind, Kind::Append))),
        inside: st
            .inside
            .wrapping_add(of(matches!(call.kind, Kind::WriteInside))),
        wrong: st.wrong.wrapping_add(u64::from(!right)),
    }
}

fn is_itself(call: Call) -> bool {
    matches!(call.kind, Kind::Rename) & (call.path == call.other)
}

// A number is right where it is the plain rules', or is 11 where they accept and there is a limit, unless it is a move
// onto itself. A rename's plan comes before the link that its walk meets, so that 11 is right for 4 too; and its
// deleted source before a clash of types, so that 5 is right for 8.
fn is_number(number: u64, must: u64, call: Call) -> bool {
    let rename = matches!(call.kind, Kind::Rename);
    let limited = (number == 11) & (call.limit < LARGE) & !is_itself(call);
    (number == must)
        | (limited & ((must == 0) | (rename & (must == 4))))
        | (rename & (number == 5) & (must == 8))
}

// An accepted call keeps to its limit, or is a mkdir that changes nothing, or a move onto itself, which changes
// nothing; a write, an append and a writing inside answer their data's length, and the others 0.
fn is_within(call: Call, unchanged: bool, after: u64, value: u64, n: u64) -> bool {
    let written = matches!(call.kind, Kind::Write | Kind::Append | Kind::WriteInside);
    let itself = is_itself(call);
    let still = unchanged & (matches!(call.kind, Kind::Mkdir) | itself);
    ((after <= call.limit) & !itself | still) & (written & (value == n) | !written & (value == 0))
}

// What a call must have left.
fn is_left_well(
    listing: &[u8],
    names: &[u8],
    table: &[u8],
    old: &[u8],
    work: &[u8],
    tree: &[u8],
    given: Record,
    done: Answered,
    call: Call,
) -> bool {
    let after = done.record;
    let answer = done.answer;
    match answer {
        Ok(value) => {
            let n = bytes(names, call.other).len() as u64;
            let unchanged = test_kept::is_unchanged(table, old, after, given);
            let within = is_within(call, unchanged, after.charge, value, n);
            let clean = test_kept::is_clean(table, work, after);
            let held = is_held_well(table, after, tree, names);
            return within & clean & held & is_all_seen(listing, table, after, tree, names);
        }
        Err(_) => {
            return test_kept::is_kept(table, old, work, after, given);
        }
    }
}

// The call with what is lent to it, with the table copied and the work buffer filled before it.
fn made_with(
    listing: &[u8],
    names: &[u8],
    table: &mut [u8],
    old: &mut [u8],
    work: &mut [u8],
    rec: Record,
    call: Call,
    third: &[u8],
) -> Answered {
    let first = bytes(names, call.path);
    let second = bytes(names, call.other);
    test_kept::prepare(table, old, work);
    call_order::make(listing, table, rec, work, first, second, third, order(call))
}

fn made(
    listing: &[u8],
    names: &[u8],
    table: &mut [u8],
    old: &mut [u8],
    work: &mut [u8],
    tree: &[u8],
    rec: Record,
    call: Call,
) -> Answered {
    if call.again {
        let second = bytes(names, call.other);
        return made_with(listing, names, table, old, work, rec, call, second);
    }
    let third = test_rows::lent(tree, call.path);
    made_with(listing, names, table, old, work, rec, call, third)
}

// A random call, and all that is compared after it.
fn step(
    listing: &[u8],
    names: &[u8],
    table: &mut [u8],
    old: &mut [u8],
    work: &mut [u8],
    tree: &mut [u8],
    st: State,
) -> State {
    let given = st.rec;
    let call = drawn(tree, st.seed, given.charge);
    let data = bytes(names, call.other);
    let must = judged(tree, call, data.len());
    let done = made(listing, names, table, old, work, tree, given, call);
    let answer = done.answer;
    let number = call_values::told(answer).number;
    effect(tree, call, data, number == 0);
    let left = is_left_well(listing, names, table, old, work, tree, given, done, call);
    counted(
        st,
        done.record,
        call,
        number,
        left & is_number(number, must, call),
    )
}

fn steps(
    listing: &[u8],
    names: &[u8],
    table: &mut [u8],
    old: &mut [u8],
    work: &mut [u8],
    tree: &mut [u8],
    st: State,
) -> State {
    let mut now = st;
    for _i in 0..100u64 {
        now = step(listing, names, table, old, work, tree, now);
    }
    now
}

fn sprout(n: u64) -> u8 {
    match n {
        0..=15 => NOTHING,
        16..=25 => DIRECTORY,
        26..=30 => FILE,
        _ => LINK,
    }
}

// A listed file holds the name of the path that is seven numbers on, which is not the path that a reference to it has.
fn fill(tree: &mut [u8], names: &[u8], i: usize, kind: u8) {
    if kind == FILE {
        test_rows::write_at(tree, i, 0, bytes(names, (i % PATHS + 7) % PATHS));
    }
}

// What stands at a path of a random listing: something only below a directory.
fn sow(tree: &mut [u8], names: &[u8], i: usize, kind: u8) {
    if test_rows::kind(tree, parent(i)) == DIRECTORY {
        fill(tree, names, i, kind);
        test_rows::set_kind(tree, i, kind);
    }
}

// A random tree; the generator's last number is returned.
fn plant(tree: &mut [u8], names: &[u8], seed: u64) -> u64 {
    let mut now = seed;
    for i in 1..PATHS {
        now = next(now);
        sow(tree, names, i, sprout(below(now, 32)));
    }
    now
}

// The numbers of the paths but the root in the order of their bytes.
const ORDERED: [usize; 39] = [
    1, 2, 7, 8, 25, 26, 27, 22, 23, 24, 9, 28, 29, 30, 4, 5, 16, 17, 18, 13, 14, 15, 6, 19, 20, 21,
    3, 10, 11, 34, 35, 36, 31, 32, 33, 12, 37, 38, 39,
];

fn set(s: &mut [u8], at: usize, b: u8) {
    if let Some(there) = s.get_mut(at) {
        *there = b;
    }
}

// A record, where something is there; the mtime is 0.
fn put(s: &mut [u8], at: usize, kind: u8, size: usize, path: &[u8]) -> usize {
    let n = path.len();
    if kind == NOTHING {
        return at;
    }
    if 11 < n {
        return at;
    }
    if s.len() < 30 {
        return at;
    }
    if s.len() - 30 < at {
        return at;
    }
    base_fields::put16(s, at, n as u64);
    set(s, at + 2, kind);
    base_fields::put64(s, at + 11, size as u64);
    base_fields::copy_in(s, at + 19, path);
    at + 19 + n
}

// The mark, version 1 and the count.
fn head(s: &mut [u8], count: u64) {
    if 9 <= s.len() {
        base_fields::copy_in(s, 0, b"RDL\x01\x00");
        base_fields::put32(s, 5, count);
    }
}

// The plain tree as a listing, and its length.
fn listed(s: &mut [u8], tree: &[u8], names: &[u8]) -> usize {
    let mut at: usize = 9;
    let mut count: u64 = 0;
    for k in ORDERED {
        let there = test_rows::kind(tree, k);
        at = put(s, at, there, test_rows::count(tree, k), bytes(names, k));
        count = count.wrapping_add(u64::from(there != NOTHING));
    }
    head(s, count);
    at
}

// A list of calls over a tree; the buffers stand here and are lent on.
fn over(listing: &[u8], names: &[u8], tree: &mut [u8], seed: u64, st: State) -> State {
    let mut table = [255u8; 2560];
    let mut old = [0u8; 2560];
    let mut work = [255u8; 2560];
    let opened = table_open::open(&mut table, 40);
    let start = State {
        rec: opened.record,
        seed,
        ..st
    };
    steps(listing, names, &mut table, &mut old, &mut work, tree, start)
}

// A list of calls over a random tree.
fn list(names: &[u8], st: State) -> State {
    let mut tree = [0u8; 1280];
    let mut listing = [0u8; 1200];
    let seed = plant(&mut tree, names, st.seed);
    let n = listed(&mut listing, &tree, names);
    if n <= 1200 {
        return over(&listing[0..n], names, &mut tree, seed, st);
    }
    st
}

fn lists(names: &[u8], st: State) -> State {
    let mut now = st;
    for _i in 0..100u64 {
        now = list(names, now);
    }
    now
}

fn run() -> State {
    let rec = Record {
        used: 0,
        count: 0,
        charge: 0,
        entry_size: 40,
    };
    let st = State {
        rec,
        seed: 20240229,
        accepted: 0,
        refused: 0,
        limited: 0,
        moved: 0,
        added: 0,
        inside: 0,
        wrong: 0,
    };
    lists(
        b"\x00           \x01a          \x03a-b        \x02a0         \x03a/a        \
        \x05a/a-b      \x04a/a0       \x05a-b/a      \x07a-b/a-b    \x06a-b/a0     \
        \x04a0/a       \x06a0/a-b     \x05a0/a0      \x05a/a/a      \x07a/a/a-b    \
        \x06a/a/a0     \x07a/a-b/a    \x09a/a-b/a-b  \x08a/a-b/a0   \x06a/a0/a     \
        \x08a/a0/a-b   \x07a/a0/a0    \x07a-b/a/a    \x09a-b/a/a-b  \x08a-b/a/a0   \
        \x09a-b/a-b/a  \x0Ba-b/a-b/a-b\x0Aa-b/a-b/a0 \x08a-b/a0/a   \x0Aa-b/a0/a-b \
        \x09a-b/a0/a0  \x06a0/a/a     \x08a0/a/a-b   \x07a0/a/a0    \x08a0/a-b/a   \
        \x0Aa0/a-b/a-b \x09a0/a-b/a0  \x07a0/a0/a    \x09a0/a0/a-b  \x08a0/a0/a0   ",
        st,
    )
}

// A number behind a text, each a write of its own.
fn say(rt: &impl Print, s: &[u8], n: u64) -> io::Result<()> {
    rt.write_all(s)?;
    rt.print(n)
}

fn main(rt: HostRuntime) -> io::Result<()> {
    let State {
        rec: _,
        seed: _,
        accepted,
        refused,
        limited,
        moved,
        added,
        inside,
        wrong,
    } = run();
    say(&rt, b"random calls: accepted ", accepted)?;
    say(&rt, b", of these renames ", moved)?;
    say(&rt, b", appends ", added)?;
    say(&rt, b", writings inside ", inside)?;
    say(&rt, b"; refused ", refused)?;
    say(&rt, b", of these at the limit ", limited)?;
    say(&rt, b"; differences ", wrong)?;
    rt.write_all(b"\n")
}
