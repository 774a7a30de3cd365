// The check on the job file of document 01's example and its table, with bytes of the table changed, and of a level in the file.

// Needs 1-3, 2-3, limit 3.
pub const FILE: [u8; 36] = [
    1, 1, 0, 1, 2, 1, 0, 3, 3, 3, 0, 15, 0, 97, 3, 3, 0, 241, 255, 98, 3, 3, 0, 4, 0, 99, 4, 2, 0,
    1, 3, 4, 2, 0, 2, 3,
];

// Starts 0 0 2 on two boards.
pub const TABLE: [u8; 30] = [
    16, 3, 0, 1, 3, 2, 17, 5, 0, 0, 1, 2, 0, 97, 17, 5, 0, 0, 2, 254, 255, 98, 17, 5, 0, 2, 1, 0,
    0, 99,
];

// The fields of the example's table with bytes changed: a place and a byte each.
const DECODING: [(&str, &[(usize, u8)]); 8] = [
    ("14 tag of the head", &[(0, 17)]),
    ("14 length of the head", &[(1, 2)]),
    ("14 edition", &[(3, 2)]),
    ("14 tag of a row", &[(14, 18)]),
    ("14 length of a row", &[(15, 6)]),
    ("14 name byte 32", &[(13, 32)]),
    ("14 name byte 127", &[(13, 127)]),
    ("15 name byte 126", &[(13, 126)]),
];

// Other tables for the example.
const DECODED: [(&str, &[u8]); 8] = [
    ("14 no byte", b""),
    ("14 no row", b"\x10\x03\x00\x01\x03\x02"),
    (
        "14 a row too few",
        b"\x10\x03\x00\x01\x01\x02\x11\x05\x00\x00\x01\x02\x00a\x11\x05\x00\x00\x02\xfe\xffb",
    ),
    (
        "14 a row too many",
        b"\x10\x03\x00\x01\x03\x02\x11\x05\x00\x00\x01\x02\x00a\x11\x05\x00\x00\x02\xfe\xffb\x11\x05\x00\x02\x01\x00\x00c\x11\x05\x00\x02\x02\x00\x00d",
    ),
    (
        "14 a byte behind",
        b"\x10\x03\x00\x01\x03\x02\x11\x05\x00\x00\x01\x02\x00a\x11\x05\x00\x00\x02\xfe\xffb\x11\x05\x00\x02\x01\x00\x00c\x11",
    ),
    (
        "14 a name of no byte",
        b"\x10\x03\x00\x01\x03\x02\x11\x04\x00\x00\x01\x02\x00\x11\x05\x00\x00\x02\xfe\xffb\x11\x05\x00\x02\x01\x00\x00c",
    ),
    (
        "14 a name of 13 bytes",
        b"\x10\x03\x00\x01\x03\x02\x11\x11\x00\x00\x01\x02\x00aaaaaaaaaaaaa\x11\x05\x00\x00\x02\xfe\xffb\x11\x05\x00\x02\x01\x00\x00c",
    ),
    (
        "15 a name of 12 bytes",
        b"\x10\x03\x00\x01\x03\x02\x11\x10\x00\x00\x01\x02\x00aaaaaaaaaaaa\x11\x05\x00\x00\x02\xfe\xffb\x11\x05\x00\x02\x01\x00\x00c",
    ),
];

// Labels, slots and boards of the example's table changed.
const SIZES: [(&str, &[(usize, u8)]); 13] = [
    ("15 another name", &[(21, 97)]),
    ("15 another level", &[(27, 1)]),
    ("15 millimetres", &[(19, 241), (20, 255)]),
    ("15 before 16", &[(27, 1), (4, 4)]),
    ("16 slots one too many", &[(4, 4)]),
    ("16 slots one too few", &[(4, 2)]),
    ("16 slots beyond the limit", &[(25, 3), (4, 4)]),
    ("16 start 255, slots 0", &[(25, 255), (4, 0)]),
    ("16 board 0", &[(10, 0)]),
    ("16 boards one too many", &[(5, 3)]),
    ("16 boards one too few", &[(5, 1)]),
    ("16 nine boards", &[(18, 9), (5, 9)]),
    ("boards 2 to 7 unused", &[(18, 8), (5, 8)]),
];

// Exact halves to the even neighbour, and to the other one: a level in millimetres, and the centimetres of the table.
const HALVES: [(&str, i16, i16); 14] = [
    ("25 as 2", 25, 2),
    ("15 25 as 3", 25, 3),
    ("35 as 4", 35, 4),
    ("15 35 as 3", 35, 3),
    ("-25 as -2", -25, -2),
    ("15 -25 as -3", -25, -3),
    ("5 as 0", 5, 0),
    ("15 5 as 1", 5, 1),
    ("-5 as 0", -5, 0),
    ("15 -5 as -1", -5, -1),
    ("45 as 4", 45, 4),
    ("15 45 as 5", 45, 5),
    ("-35 as -4", -35, -4),
    ("15 -35 as -3", -35, -3),
];

// Other job files for the example's table.
const FILES: [(&str, &[u8]); 8] = [
    ("10 no byte", b""),
    ("5 header and comment", b"\x01\x01\x00\x01\x05\x00\x00"),
    ("5 tag 9 first", b"\x09\x00\x00"),
    ("5 tag 3 first", b"\x03\x03\x00\x0f\x00a"),
    ("4 tag 10", b"\x01\x01\x00\x01\x02\x01\x00\x03\x0a\x00\x00"),
    (
        "21 tag 9 twice",
        b"\x01\x01\x00\x01\x02\x01\x00\x03\x09\x01\x00\x02\x09\x01\x00\x02",
    ),
    (
        "11 needs 1-2, 2-1",
        b"\x01\x01\x00\x01\x02\x01\x00\x03\x03\x03\x00\x0f\x00a\x03\x03\x00\xf1\xffb\x04\x02\x00\x01\x02\x04\x02\x00\x02\x01",
    ),
    (
        "a comment of length 0 at the end",
        b"\x01\x01\x00\x01\x02\x01\x00\x03\x03\x03\x00\x0f\x00a\x03\x03\x00\xf1\xffb\x03\x03\x00\x04\x00c\x04\x02\x00\x01\x03\x04\x02\x00\x02\x03\x05\x00\x00",
    ),
];

// A line with a number. Where it cannot be written, those behind it are tried all the same.
pub(crate) fn show(rt: &impl Print, label: &str, number: u32) {
    let _ = println!(rt; "{label}: {number}");
}

// The line of the check of a file and a table.
fn check(rt: &impl Print, label: &str, file: &[u8], table: &[u8]) {
    show(rt, label, gate::gate_check(file, table));
}

// Another table for the example.
fn other(rt: &impl Print, label: &str, table: &[u8]) {
    check(rt, label, &FILE, table);
}

// The example's table with bytes changed.
fn changed(rt: &impl Print, label: &str, changes: &[(usize, u8)]) {
    let mut table = TABLE;
    for (place, byte) in changes {
        if let Some(old) = table.get_mut(*place) {
            *old = *byte;
        }
    }
    other(rt, label, &table);
}

fn decoding(rt: &impl Print) {
    for (label, changes) in DECODING {
        changed(rt, label, changes);
    }
    for (label, table) in DECODED {
        other(rt, label, table);
    }
}

fn sizes(rt: &impl Print) {
    for (label, changes) in SIZES {
        changed(rt, label, changes);
    }
}

// The example with another level of job 1, in millimetres, and a table with other centimetres for it.
fn level(rt: &impl Print, label: &str, millimetres: i16, centimetres: i16) {
    let mut file = FILE;
    let mut table = TABLE;
    file[11..13].copy_from_slice(&millimetres.to_le_bytes());
    table[11..13].copy_from_slice(&centimetres.to_le_bytes());
    check(rt, label, &file, &table);
}

fn halves(rt: &impl Print) {
    for (label, millimetres, centimetres) in HALVES {
        level(rt, label, millimetres, centimetres);
    }
}

fn cells(rt: &impl Print) {
    changed(rt, "17 one slot and board", &[(18, 1), (5, 1)]);
    changed(rt, "18 the next slot on another board", &[(25, 1), (4, 2)]);
    other(
        rt,
        "18 the slot of its givers",
        b"\x10\x03\x00\x01\x01\x03\x11\x05\x00\x00\x01\x02\x00a\x11\x05\x00\x00\x02\xfe\xffb\x11\x05\x00\x00\x03\x00\x00c",
    );
    other(
        rt,
        "starts 0 1 2 on one board",
        b"\x10\x03\x00\x01\x03\x01\x11\x05\x00\x00\x01\x02\x00a\x11\x05\x00\x01\x01\xfe\xffb\x11\x05\x00\x02\x01\x00\x00c",
    );
    other(
        rt,
        "boards that the planner does not give",
        b"\x10\x03\x00\x01\x03\x07\x11\x05\x00\x00\x03\x02\x00a\x11\x05\x00\x00\x01\xfe\xffb\x11\x05\x00\x02\x07\x00\x00c",
    );
}

fn takers(rt: &impl Print) {
    let needs =
        b"\x01\x01\x00\x01\x02\x01\x00\x03\x03\x03\x00\x0f\x00a\x03\x03\x00\xf1\xffb\x03\x03\x00\x04\x00c\x04\x02\x00\x01\x02\x04\x02\x00\x01\x03";
    check(
        rt,
        "18 two takers in the next slot",
        needs,
        b"\x10\x03\x00\x01\x02\x02\x11\x05\x00\x00\x01\x02\x00a\x11\x05\x00\x01\x01\xfe\xffb\x11\x05\x00\x01\x02\x00\x00c",
    );
    check(
        rt,
        "two takers, one after the other",
        needs,
        b"\x10\x03\x00\x01\x03\x01\x11\x05\x00\x00\x01\x02\x00a\x11\x05\x00\x01\x01\xfe\xffb\x11\x05\x00\x02\x01\x00\x00c",
    );
}

fn files(rt: &impl Print) {
    for (label, file) in FILES {
        check(rt, label, file, &TABLE);
    }
}

// Starts 0 0 2 on three boards, for the example with tag 9 and without.
fn three_boards(rt: &impl Print) {
    let table =
        b"\x10\x03\x00\x01\x03\x03\x11\x05\x00\x00\x01\x02\x00a\x11\x05\x00\x00\x02\xfe\xffb\x11\x05\x00\x02\x03\x00\x00c";
    let two =
        b"\x01\x01\0\x01\x02\x01\0\x03\x03\x03\0\x0f\0a\x03\x03\0\xf1\xffb\x03\x03\0\x04\0c\x04\x02\0\x01\x03\x04\x02\0\x02\x03\x09\x01\0\x02";
    check(rt, "two boards, tag 9 with 2", two, &TABLE);
    check(rt, "16 three boards, tag 9 with 2", two, table);
    other(rt, "three boards without tag 9", table);
    show(rt, "  in slot 2 on board 3", gate::gate_lookup(table, 2, 3));
}

pub(crate) fn all(rt: &impl Print) {
    other(rt, "the example", &TABLE);
    decoding(rt);
    sizes(rt);
    halves(rt);
    cells(rt);
    takers(rt);
    files(rt);
    three_boards(rt);
}
