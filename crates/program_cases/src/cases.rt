// Cases, by what they are of.
mod calling;
mod chains;
mod chunks;
mod commands;
mod faults;
mod images;
mod lines;
mod prelude;
mod sources;
