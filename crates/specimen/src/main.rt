// specimen > LINES: what the kernel answers to the rows of the specimen table: P1 to P10, then those that are only run.
#![tactic(auto)]

use crate::tables::specimen_table;

mod limits;
mod lines;
mod rows;
mod tables;
mod translations;

fn main(rt: HostRuntime) {
    let table = specimen_table();
    rows::answer(&rt, &table);
    translations::answer(&rt, &table);
    limits::answer(&rt);
}
