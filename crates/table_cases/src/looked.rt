// The lookup and the name on the table of document 01's example.
use crate::checked::{TABLE, show};

// Slots and boards of the example's table.
const CELLS: [(&str, usize, usize); 11] = [
    ("job 1", 0, 1),
    ("job 2", 0, 2),
    ("job 3", 2, 1),
    ("an idle board", 2, 2),
    ("an empty slot", 1, 1),
    ("board 0", 0, 0),
    ("a slot beyond", 3, 1),
    ("a board beyond", 0, 3),
    ("slot 256", 256, 1),
    ("board 257", 0, 257),
    ("the greatest slot and board", usize::MAX, usize::MAX),
];

// Other tables.
const TABLES: [(&str, &[u8]); 7] = [
    ("14 no byte", b""),
    ("14 no row", b"\x10\x03\x00\x01\x01\x01"),
    (
        "16 slots",
        b"\x10\x03\x00\x01\x02\x01\x11\x05\x00\x00\x01\x00\x00a",
    ),
    (
        "16 board 0",
        b"\x10\x03\x00\x01\x01\x00\x11\x05\x00\x00\x00\x00\x00a",
    ),
    (
        "16 slots beyond 64",
        b"\x10\x03\x00\x01\x41\x01\x11\x05\x00\x40\x01\x00\x00a",
    ),
    (
        "17 one slot and board",
        b"\x10\x03\x00\x01\x01\x01\x11\x05\x00\x00\x01\x00\x00a\x11\x05\x00\x00\x01\x00\x00b",
    ),
    (
        "starts in any order",
        b"\x10\x03\x00\x01\x40\x01\x11\x05\x00\x3f\x01\x00\x00a\x11\x05\x00\x00\x01\xff\xff~",
    ),
];

// The lines of a table: the answer and the name's place.
fn look(rt: &impl Print, label: &str, table: &[u8], slot: usize, board: usize) {
    show(rt, label, gate::gate_lookup(table, slot, board));
    show(rt, "  name at", gate::gate_name_at(table, slot, board));
}

// The name as a line.
fn show_name(rt: &impl Print, name: &[u8]) {
    let _ = print!(rt; "  name (");
    let _ = rt.write_all(name);
    let _ = println!(rt; ")");
}

pub(crate) fn all(rt: &impl Print) {
    for (label, slot, board) in CELLS {
        look(rt, label, &TABLE, slot, board);
        show_name(rt, gate::name(&TABLE, slot, board));
    }
    for (label, table) in TABLES {
        look(rt, label, table, 0, 1);
    }
}
