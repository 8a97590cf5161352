mod printed;
mod streams;
