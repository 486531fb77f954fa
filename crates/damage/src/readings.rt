// What readings of the sound table tell, and when a reading is refused.
use super::tables::{HIGHEST, LOWEST, SOUND};
use super::told::{number_of, yes_or_no};
use ids::NodeId;
use std::io;
use table::calls::evaluate;
use table::lent::Table;

// Boolean 40 on and all others off, and the other way round.
const ON: u32 = 1 << 8;

const OFF: u32 = !ON;

// A reading's name; the spare word of the table's first record, which damages it if it is set; how many places are lent, and that of variable 31
// (all others are 0); and the id.
const READINGS: [(&str, u32, usize, i64, NodeId); 21] = [
    ("places 31", 0, 31, 0, NodeId(4)),
    ("places 32", 0, 32, 0, NodeId(4)),
    ("places 33", 0, 33, 0, NodeId(4)),
    ("places 0", 0, 0, 0, NodeId(4)),
    ("id 7", 0, 32, 0, NodeId(7)),
    ("id 8", 0, 32, 0, NodeId(8)),
    ("id 9", 0, 32, 0, NodeId(9)),
    ("id 4294967295", 0, 32, 0, NodeId(4294967295)),
    ("place 4294967295", 0, 32, HIGHEST, NodeId(4)),
    ("place 4294967296", 0, 32, HIGHEST + 1, NodeId(4)),
    ("place -4294967297", 0, 32, LOWEST, NodeId(4)),
    ("place -4294967298", 0, 32, LOWEST - 1, NodeId(4)),
    ("highest i64", 0, 32, i64::MAX, NodeId(4)),
    ("lowest i64", 0, 32, i64::MIN, NodeId(4)),
    // More than one reason to refuse: the lowest number is told.
    ("terminal, bad place", 0, 32, HIGHEST + 1, NodeId(0)),
    ("damaged", 1, 32, 0, NodeId(4)),
    ("damaged, 31 places", 1, 31, 0, NodeId(4)),
    ("damaged, id 8", 1, 32, 0, NodeId(8)),
    ("damaged, bad place", 1, 32, HIGHEST + 1, NodeId(4)),
    ("id 8, bad place", 0, 32, HIGHEST + 1, NodeId(8)),
    (
        "damaged, 33 places, id 8, bad place",
        1,
        33,
        HIGHEST + 1,
        NodeId(8),
    ),
];

pub fn show_refusals(rt: &impl Print) -> io::Result<()> {
    for (name, spare, length, place, id) in READINGS {
        let mut words = SOUND;
        words.nodes[3] = spare;
        let mut places = [0; 33];
        places[31] = place;
        match places.get(..length) {
            Some(places) => {
                let told = evaluate(&words.read(), places, 0, id);
                println!(rt;
                    "{name}: {} {}",
                    number_of(told),
                    yes_or_no(told == Ok(true))
                )?
            }
            None => println!(rt; "{name}: too few places")?,
        }
    }
    Ok(())
}

// The ids of the terminals and of the three nodes, under one reading.
fn show_ids(rt: &impl Print, table: &Table, places: &[i64; 32], bools: u32) -> io::Result<()> {
    for id in 0..8 {
        match evaluate(table, places, bools, NodeId(id)) {
            Ok(yes) => print!(rt; " {}", yes_or_no(yes))?,
            Err(_) => print!(rt; " refused")?,
        }
    }
    println!(rt)
}

// Variables 1 and 3 at both ends and about their cuts.
pub fn show_readings(rt: &impl Print) -> io::Result<()> {
    let sound = SOUND;
    for first in [LOWEST, 4, 5, HIGHEST] {
        for third in [LOWEST, -6, -5, 9, 10, HIGHEST] {
            let mut places = [0; 32];
            places[1] = first;
            places[3] = third;
            print!(rt; "read {first} {third} on:")?;
            show_ids(rt, &sound.read(), &places, ON)?;
            print!(rt; "read {first} {third} off:")?;
            show_ids(rt, &sound.read(), &places, OFF)?;
        }
    }
    Ok(())
}
