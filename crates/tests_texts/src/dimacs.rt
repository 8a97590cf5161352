mod counts;
mod faults;
mod lines;
mod lists;
mod pieces;
