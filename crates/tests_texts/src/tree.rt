mod counts;
mod layouts;
mod pages;
mod pieces;
mod tables;
mod written;
