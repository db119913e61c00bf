// made by c/exports.py
//! The exports: for each cell and size a make, a write, a read, a look and an end of either side, and of a triple
//! buffer a hold, a loan and what publishes it; for each family and size of a board a make, a write, two reads and an
//! end; and the library's version.

mod board_24;
mod board_256;
mod board_4096;
mod four_slot_1024;
mod four_slot_1048576;
mod four_slot_128;
mod four_slot_24;
mod four_slot_256;
mod four_slot_4096;
mod four_slot_64;
mod four_slot_65536;
mod four_slot_8;
mod triple_1024;
mod triple_1048576;
mod triple_128;
mod triple_24;
mod triple_256;
mod triple_4096;
mod triple_64;
mod triple_65536;
mod triple_8;
mod triple_board_24;
mod triple_board_256;
mod triple_board_4096;
mod version;
