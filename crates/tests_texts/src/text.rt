mod devices;
mod entries;
mod memory;
mod pieces;
mod quick;
